//! The text of a value, found by where the value stands.
ghost use Rattle.std.specs.Prelude.{◌≡◌, ℕ, [], IfSome, List as Seq, option_map, slice_get};
ghost use Rattle.std.specs.Option.{IfNone};
ghost use Rattle.viz_base.specs.declared.settings.Source.TheVariants as of_source;
ghost use Rattle.css_semantics.specs.Sources.{IsValueAt, length_of_source, place_of_source, style_text, text_of_source};

use crate::applying::style_of;
use crate::reading::slice;
use viz_base::{Body, Page, Source, Text};

fn text_at(texts: &[Text], at: usize) -> Option<&str>
    ensures { option_map (λ text. text.now) result ≡ slice_get texts.now at }
{
    match texts.get(at) {
        Some(text) => Some(text.as_str()),
        None => None,
    }
}

/// The style attribute of an element.
fn style_text(body: &Body) -> Option<&str>
    ensures { option_map (λ text. text.now) result ≡ style_text body.now }
{
    match body {
        Body::Element(element) => style_of(element.attrs.as_slice()),
        Body::Chars(_) => None,
    }
}

/// The style attribute of the node of this number.
fn style_at(page: &Page, node: usize) -> Option<&str>
    ensures { option_map (λ text. text.now) result
        ≡ text_of_source page.now.nodes [] (of_source.Style node 0 0) }
{
    match page.nodes.as_slice().get(node) {
        Some(node) => style_text(&node.body),
        None => None,
    }
}

/// The text in which a source stands.
fn text_of_source<'a>(page: &'a Page, texts: &'a [Text], source: Source) -> Option<&'a str>
    ensures { option_map (λ text. text.now) result
        ≡ text_of_source page.now.nodes texts.now source }
{
    match source {
        Source::Default { at: _, len: _ } => text_at(texts, 0),
        Source::Author {
            sheet,
            at: _,
            len: _,
        } => text_at(texts, sheet as usize + 1),
        Source::Style {
            node,
            at: _,
            len: _,
        } => style_at(page, node as usize),
    }
}

/// Where a value begins in its text, and how many bytes it has.
fn extent_of(source: Source) -> (u32, u32)
    ensures { result ≡ (place_of_source source, length_of_source source) }
{
    match source {
        Source::Default { at, len }
        | Source::Author { sheet: _, at, len }
        | Source::Style { node: _, at, len } => (at, len),
    }
}

/// The value that a source names, as it is written in the default sheet, which is the first of the texts, in a sheet of
/// an author, or in a style attribute; none where the source names no slice of its text.
pub fn value_text<'a>(page: &'a Page, texts: &'a [Text], source: Source) -> Option<&'a str>
    ensures none { IfNone result ((v : Seq ℕ) → IsValueAt page.now.nodes texts.now source v → ⊥) }
    ensures some { IfSome result (λ v. IsValueAt page.now.nodes texts.now source v.now) }
{
    let text = text_of_source(page, texts, source)?;
    let (at, len) = extent_of(source);
    slice(text, at, len)
}
