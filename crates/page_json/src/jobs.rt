//! What the members of a job file say.
ghost use Rattle.std.specs.Option.{option_copied};
ghost use Rattle.std.specs.Prelude.{◌≡◌, ◌≤◌, codes, length, map, IfOk, IfSome};
ghost use Rattle.serde_json.specs.Find.{as_str, get};
ghost use Rattle.serde_json.specs.View.{view};
ghost use Rattle.viz_base.specs.Answers.{Gives};
ghost use Rattle.page_json.specs.Values.{each_of, list_at, list_of, ◌of_member◌};
ghost use Rattle.page_json.specs.Faults.{refusal_of, shaped_at};
ghost use Rattle.page_json.specs.Fonts.{font_of};
ghost use Rattle.page_json.specs.Documents.{node_of};
ghost use Rattle.page_json.specs.Jobs.{fonts_of, form_of, height_of, heights_of, page_of, parts_under, sheets_of};
ghost use Rattle.page_json.specs.Pages.{IsDocument};
ghost use Rattle.page_json.specs.Seen.{seen, all_measures, IsFormOf, lists_under, page_parts, parts_seen};

use crate::JobFault;
use crate::elements::body_of;
use crate::fonts::font_of;
use crate::places::{Place, depth_of, places_of};
use crate::values::{list_at, list_of, number_of, pair_at, whole_at, whole_in};
use serde_json::Value;
use std::alloc::{AllocError, Global};
use viz_base::{Font, List, Node, Part, Text};

/// All that the members say.
#[derive(Drop)]
pub(crate) struct Parts<'a> {
    /// 1 where the viewport has one height, 2 where it has a range of heights.
    pub form: u8,
    pub widths: (u64, u64),
    pub sizes: (u64, u64),
    pub heights: (u64, u64),
    pub fonts: List<Font>,
    pub css: List<Text>,
    pub page: Nodes,
    pub formula: &'a str,
}

/// The members that are numbers.
#[derive(Clone, Copy)]
struct Numbers {
    form: u8,
    widths: (u64, u64),
    sizes: (u64, u64),
    heights: (u64, u64),
}

/// The nodes of a page, and how deep its elements nest.
#[derive(Drop)]
pub(crate) struct Nodes {
    pub depth: u64,
    pub nodes: List<Node>,
}

/// The fonts that values say, or the number of the first that is none.
fn all_fonts(alloc: Global, values: &[Value]) -> Result<List<Font>, JobFault>
    ensures gives { Gives all_measures refusal_of result
        (shaped_at Part.Fonts (each_of font_of 0 (map view values.now))) }
    ensures count { IfOk result (λ fonts. length fonts ≡ length values.now) }
{
    let mut fonts = List::new(alloc);
    for (place, value) in values.iter().enumerate() {
        match font_of(alloc, value)? {
            Some(font) => fonts.push(font)?,
            None => return Err(JobFault::Shape(Part::Fonts, number_of(place)?)),
        }
    }
    Ok(fonts)
}

/// The fonts, at least one.
fn fonts_of(alloc: Global, value: &Value) -> Result<List<Font>, JobFault>
    ensures gives { Gives all_measures refusal_of result
        (shaped_at Part.Fonts (fonts_of ((list_of of_member codes "fonts") (view value.now)))) }
    ensures has_font { IfOk result (λ fonts. 1 ≤ length fonts) }
{
    let fault = JobFault::Shape(Part::Fonts, 0);
    let Some(member) = value.get("fonts") else {
        return Err(fault);
    };
    let Some(values) = list_of(member) else {
        return Err(fault);
    };
    if values.is_empty() {
        return Err(fault);
    }
    all_fonts(alloc, values)
}

/// The texts that values are, or the number of the first that is none.
fn all_sheets(alloc: Global, values: &[Value]) -> Result<List<Text>, JobFault>
    ensures { Gives (λ css. css) refusal_of result
        (shaped_at Part.Css (each_of as_str 0 (map view values.now))) }
{
    let mut sheets = List::new(alloc);
    for (place, value) in values.iter().enumerate() {
        match value.as_str() {
            Some(text) => sheets.push(Text::from_text(alloc, text)?)?,
            None => return Err(JobFault::Shape(Part::Css, number_of(place)?)),
        }
    }
    Ok(sheets)
}

/// The texts of the style sheets.
fn sheets_of(alloc: Global, value: &Value) -> Result<List<Text>, JobFault>
    ensures { Gives (λ css. css) refusal_of result
        (shaped_at Part.Css (sheets_of (list_at (codes "css") (view value.now)))) }
{
    match list_at(value, "css") {
        Some(values) => all_sheets(alloc, values),
        None => Err(JobFault::Shape(Part::Css, 0)),
    }
}

/// The nodes at places, or the number of the first that is none.
fn nodes_at(alloc: Global, places: &[Place<'_>]) -> Result<List<Node>, JobFault>
    ensures { Gives (λ nodes. nodes) refusal_of result
        (shaped_at Part.Page (each_of node_of 0 (map seen places.now))) }
{
    let mut nodes = List::new(alloc);
    for (at, place) in places.iter().enumerate() {
        match body_of(alloc, place.value)? {
            Some(body) => nodes.push(Node {
                parent: place.parent,
                body,
            })?,
            None => return Err(JobFault::Shape(Part::Page, number_of(at)?)),
        }
    }
    Ok(nodes)
}

/// The nodes of the page with this root.
fn page_in(alloc: Global, root: &Value) -> Result<Nodes, JobFault>
    ensures gives { Gives page_parts refusal_of result
        (shaped_at Part.Page (page_of (Some (view root.now)))) }
    ensures document { IfOk result (λ page. IsDocument page.nodes) }
{
    if root.is_string() {
        return Err(JobFault::Shape(Part::Page, 0));
    }
    let places = places_of(alloc, root)?;
    let nodes = nodes_at(alloc, places.as_slice())?;
    Ok(Nodes {
        depth: depth_of(places.as_slice()),
        nodes,
    })
}

/// The nodes of the page.
fn page_of(alloc: Global, value: &Value) -> Result<Nodes, JobFault>
    ensures gives { Gives page_parts refusal_of result
        (shaped_at Part.Page (page_of (get (codes "page") (view value.now)))) }
    ensures document { IfOk result (λ page. IsDocument page.nodes) }
{
    match value.get("page") {
        Some(root) => page_in(alloc, root),
        None => Err(JobFault::Shape(Part::Page, 0)),
    }
}

/// Which of the two forms of a job file a value says it is.
fn form_of(value: &Value) -> Option<u8>
    ensures value { result ≡ form_of (view value.now) }
    ensures bounds { IfSome result (λ form. (1 ≤ form) × (form ≤ 2)) }
{
    let form = whole_in(value, "vizlog", 1, 2)?;
    Some(form as u8)
}

/// One height of the viewport, as the ends of its range.
fn height_of(value: &Value) -> Option<(u64, u64)>
    ensures value { result ≡ height_of (view value.now) }
    ensures one { IfSome result (λ heights. heights.0 ≡ heights.1) }
{
    let height = whole_at(value, "height")?;
    Some((height, height))
}

/// The range of heights that a value of this form says.
fn heights_of(form: u8, value: &Value) -> Option<(u64, u64)>
    ensures value { result ≡ heights_of form (view value.now) }
    ensures one { IfSome result (λ heights. form ≡ 1 → heights.0 ≡ heights.1) }
{
    if form == 1 {
        height_of(value)
    } else {
        pair_at(value, "heights")
    }
}

/// The members with lists and the formula, which is this one, beside those that are numbers.
fn lists_under<'a>(
    alloc: Global,
    value: &Value,
    numbers: Numbers,
    assertion: Option<&'a str>,
) -> Result<Parts<'a>, JobFault>
    requires { IsFormOf numbers.form numbers.heights }
    ensures gives { Gives parts_seen refusal_of result
        (lists_under
        (option_copied assertion.entry) numbers.form numbers.widths numbers.sizes numbers.heights
        (view value.now)) }
    ensures formed { IfOk result (λ parts. IsFormOf parts.form parts.heights) }
    ensures document { IfOk result (λ parts. IsDocument parts.page.nodes) }
    ensures has_font { IfOk result (λ parts. 1 ≤ length parts.fonts) }
{
    let fonts = fonts_of(alloc, value)?;
    let css = sheets_of(alloc, value)?;
    let page = page_of(alloc, value)?;
    let Some(formula) = assertion else {
        return Err(JobFault::Shape(Part::Assert, 0));
    };
    Ok(Parts {
        form: numbers.form,
        widths: numbers.widths,
        sizes: numbers.sizes,
        heights: numbers.heights,
        fonts,
        css,
        page,
        formula,
    })
}

/// What the members say, this being the text of the assertion if there is one, or the first that is missing, of another
/// form or against a rule.
pub(crate) fn parts_under<'a>(
    alloc: Global,
    value: &Value,
    assertion: Option<&'a str>,
) -> Result<Parts<'a>, JobFault>
    ensures gives { Gives parts_seen refusal_of result
        (parts_under (option_copied assertion.entry) (view value.now)) }
    ensures formed { IfOk result (λ parts. IsFormOf parts.form parts.heights) }
    ensures document { IfOk result (λ parts. IsDocument parts.page.nodes) }
    ensures has_font { IfOk result (λ parts. 1 ≤ length parts.fonts) }
{
    let Some(form) = form_of(value) else {
        return Err(JobFault::Shape(Part::Top, 0));
    };
    let Some(widths) = pair_at(value, "widths") else {
        return Err(JobFault::Shape(Part::Widths, 0));
    };
    let Some(sizes) = pair_at(value, "sizes") else {
        return Err(JobFault::Shape(Part::Sizes, 0));
    };
    let Some(heights) = heights_of(form, value) else {
        return Err(JobFault::Shape(Part::Height, 0));
    };
    let numbers = Numbers {
        form,
        widths,
        sizes,
        heights,
    };
    lists_under(alloc, value, numbers, assertion)
}
