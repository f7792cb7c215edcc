//! The limits of a job file.
ghost use Rattle.std.specs.Prelude.{◌≡◌, ◌+◌, ◌-◌, ◌≤◌, map, length, sum_by, IfOk, IsTrue, MatchResult, OnOk};
ghost use Rattle.std.specs.Str.{chars};
ghost use Rattle.viz_base.specs.Pages.{text_of};
ghost use Rattle.viz_base.specs.Answers.{Gives};
ghost use Rattle.viz_base.specs.Worlds.{world_count};
ghost use Rattle.page_json.specs.Faults.{refusal_of, within};
ghost use Rattle.page_json.specs.Fonts.{measures_of};
ghost use Rattle.page_json.specs.Jobs.{advances, are_ends, are_ranges, characters, elements, in_range, limited, rect_of, sheet_bytes, style_bytes, style_bytes_in};
ghost use Rattle.page_json.specs.Seen.{lists_limited, parts_seen};

use crate::JobFault;
use crate::jobs::Parts;
use viz_base::{
    Attr, Body, Font, List, MOST_CHARACTERS, MOST_FORMULA, MOST_PIXELS, MOST_SIZE, Node, Text,
    Which,
};

/// The sum, where memory could hold so much.
fn plus(total: u64, more: u64) -> Result<u64, JobFault>
    ensures { MatchResult result (λ n. n ≡ total + more) (λ fault. fault ≡ JobFault.Mem) }
{
    match total.checked_add(more) {
        Some(sum) => Ok(sum),
        None => Err(JobFault::Mem),
    }
}

/// The number of elements.
fn elements(nodes: &[Node]) -> u64
    ensures { result ≡ elements nodes.now }
{
    nodes
        .iter()
        .filter(|node| matches!(node.body, Body::Element(_)))
        .count() as u64
}

/// The number of a text's characters.
fn length_of(text: &str) -> usize
    ensures { result ≡ length (chars text.now) }
{
    text.chars().count()
}

/// The characters of a text node.
fn text_of(body: &Body) -> &str
    ensures { result.now ≡ text_of body.now }
{
    match body {
        Body::Element(_) => "",
        Body::Chars(text) => text.as_str(),
    }
}

/// The characters of all texts.
fn characters(nodes: &[Node]) -> Result<u64, JobFault>
    ensures { MatchResult result (λ n. n ≡ characters nodes.now) (λ fault. fault ≡ JobFault.Mem) }
{
    let mut total = 0;
    for node in nodes {
        total = plus(total, length_of(text_of(&node.body)) as u64)?;
    }
    Ok(total)
}

/// The bytes of the style attribute.
fn style_bytes(attrs: &[Attr]) -> Result<u64, JobFault>
    ensures { MatchResult result (λ n. n ≡ sum_by style_bytes_in attrs.now)
        (λ fault. fault ≡ JobFault.Mem) }
{
    let mut total = 0;
    for attr in attrs {
        if attr.name.as_str() == "style" {
            total = plus(total, attr.value.len() as u64)?;
        }
    }
    Ok(total)
}

/// The bytes of all sheets and style attributes.
fn sheet_bytes(css: &[Text], nodes: &[Node]) -> Result<u64, JobFault>
    ensures { MatchResult result (λ n. n ≡ sheet_bytes css.now nodes.now)
        (λ fault. fault ≡ JobFault.Mem) }
{
    let mut total = 0;
    for sheet in css {
        total = plus(total, sheet.len() as u64)?;
    }
    for node in nodes {
        if let Body::Element(element) = &node.body {
            total = plus(total, style_bytes(element.attrs.as_slice())?)?;
        }
    }
    Ok(total)
}

/// The advances of all fonts.
fn advances(fonts: &[Font]) -> Result<u64, JobFault>
    ensures { MatchResult result (λ n. n ≡ advances (map measures_of fonts.now))
        (λ fault. fault ≡ JobFault.Mem) }
{
    let mut total = 0;
    for font in fonts {
        total = plus(total, font.advances.len() as u64)?;
    }
    Ok(total)
}

/// The count, where it is at most `most`.
fn within(which: Which, most: u64, count: u64) -> Result<u64, JobFault>
    ensures value { result ≡ within which most count }
    ensures most { IfOk result (λ n. (n ≡ count) × (n ≤ most)) }
{
    if count <= most {
        Ok(count)
    } else {
        Err(JobFault::Limit(which, count))
    }
}

/// Refuses the first count of sheets, fonts and the formula that is beyond its limit.
fn lists_limited(parts: &Parts<'_>) -> Result<u64, JobFault>
    ensures gives { Gives (λ _. parts_seen parts.now) refusal_of result
        (lists_limited (parts_seen parts.now)) }
    ensures short_formula { OnOk result (length parts.now.formula.now ≤ MOST_FORMULA) }
{
    let bytes = sheet_bytes(parts.css.as_slice(), parts.page.nodes.as_slice())?;
    within(Which::Css, 1_048_576, bytes)?;
    within(Which::Fonts, 64, parts.fonts.len() as u64)?;
    within(Which::Advances, 65_536, advances(parts.fonts.as_slice())?)?;
    within(
        Which::Formula,
        MOST_FORMULA as u64,
        parts.formula.len() as u64,
    )
}

/// Refuses the first count that is beyond its limit.
pub(crate) fn limited(parts: &Parts<'_>) -> Result<u64, JobFault>
    ensures gives { Gives (λ _. parts_seen parts.now) refusal_of result
        (limited (parts_seen parts.now)) }
    ensures few_characters { OnOk result (characters parts.now.page.nodes ≤ MOST_CHARACTERS) }
    ensures short_formula { OnOk result (length parts.now.formula.now ≤ MOST_FORMULA) }
{
    let nodes = parts.page.nodes.as_slice();
    within(Which::Elements, 4096, elements(nodes))?;
    within(Which::Depth, 60, parts.page.depth)?;
    within(Which::Text, MOST_CHARACTERS as u64, characters(nodes)?)?;
    lists_limited(parts)
}

/// The greatest width and height that a range may have.
const WIDEST: u64 = MOST_PIXELS as u64;

/// The greatest default font size that it may have.
const LARGEST: u64 = MOST_SIZE as u64;

/// Whether it goes from 1 or more to `most` or less, the first no greater than the second.
fn are_ends(most: u64, ends: (u64, u64)) -> bool
    ensures { result ≡ are_ends most ends }
{
    let (least, last) = ends;
    1 <= least && least <= last && last <= most
}

/// Whether widths, sizes and heights are each within their limits.
fn are_ranges(parts: &Parts<'_>) -> bool
    ensures { result ≡ are_ranges (parts_seen parts.now) }
{
    are_ends(WIDEST, parts.widths)
        && are_ends(LARGEST, parts.sizes)
        && are_ends(WIDEST, parts.heights)
}

/// How many numbers there are from one end to the other.
fn count_of(most: u64, ends: (u64, u64)) -> u64
    requires least { IsTrue (are_ends most ends) }
    requires most { most ≤ MOST_PIXELS }
    ensures count { result ≡ ends.1 + 1 - ends.0 }
    ensures most { result ≤ most }
{
    let (least, last) = ends;
    last + 1 - least
}

/// How many worlds there are, where the three ranges are within their limits.
fn world_count(parts: &Parts<'_>) -> u64
    requires { IsTrue (are_ranges (parts_seen parts.now)) }
    ensures { result ≡ world_count (rect_of (parts_seen parts.now)) }
{
    let widths = count_of(WIDEST, parts.widths);
    let sizes = count_of(LARGEST, parts.sizes);
    let heights = count_of(WIDEST, parts.heights);
    widths * sizes * heights
}

/// Whether widths, sizes and heights are within their limits, and there are not too many worlds.
pub(crate) fn in_range(parts: &Parts<'_>) -> bool
    ensures { result ≡ in_range (parts_seen parts.now) }
{
    are_ranges(parts) && world_count(parts) <= 4_194_304
}
