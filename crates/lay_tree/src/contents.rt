//! What stands in the lines of a box, and which of them exist (CSS 2.1, 9.2.1, 9.4.2).
ghost use Rattle.std.specs.Prelude.{◌≡◌, ◌<◌, ◌++◌, ◌==◌, ℕ, true, not, length, slice_index_or, IfOk, OnOk};
ghost use Rattle.std.specs.List.{list_any};
ghost use Rattle.std.specs.Str.{chars};
ghost use Rattle.layout_semantics.specs.FlowBoxes.{flow_children};
ghost use Rattle.layout_semantics.specs.InlineContent.{start, finish, content, float_boxes, makes_line};
ghost use Rattle.layout_semantics.specs.InlineContent.{holds_inline as holds_lines, has_line as has_lines};
ghost use Rattle.lay_tree.specs.Contents.{in_line, own_floats};

use crate::boxes::{children, is_floated, is_inline_level, kind, text};
use crate::styles::{are_zero, borders, margins, paddings};
use std::alloc::AllocError;
use viz_base::{BoxTree, Kind};

/// Whether an inline box has edges at its start, or above or below, that aren't zero.
pub fn starts_with_edges(tree: &BoxTree, at: u32) -> bool
    ensures { result ≡ makes_line tree.now (start at) }
{
    let margin = margins(tree, at);
    let border = borders(tree, at);
    let padding = paddings(tree, at);
    !are_zero(&[
        margin.left,
        border.left,
        padding.left,
        margin.top,
        border.top,
        padding.top,
        margin.bottom,
        border.bottom,
        padding.bottom,
    ])
}

/// Whether an inline box has edges at its end, or above or below, that aren't zero.
pub fn ends_with_edges(tree: &BoxTree, at: u32) -> bool
    ensures { result ≡ makes_line tree.now (finish at) }
{
    let margin = margins(tree, at);
    let border = borders(tree, at);
    let padding = paddings(tree, at);
    !are_zero(&[
        margin.right,
        border.right,
        padding.right,
        margin.top,
        border.top,
        padding.top,
        margin.bottom,
        border.bottom,
        padding.bottom,
    ])
}

/// Whether a text has a character other than a space.
fn has_letter(text: &str) -> bool
    ensures { result ≡ list_any (λ c. not (c == 32)) (chars text.now) }
{
    text.chars().any(|letter| letter != ' ')
}

#[cycle(lines)]
#[tactic(auto, unfolding(crate::specs::Contents::in_line))]
/// Whether a box in inline content makes a line exist.
fn is_in_line(tree: &BoxTree, at: u32) -> bool
    ensures { result ≡ in_line tree.now at }
{
    if is_floated(tree, at) {
        return false;
    }
    match kind(tree, at) {
        Kind::Chars => has_letter(text(tree, at)),
        Kind::Inline => {
            starts_with_edges(tree, at) || (is_in_lines(tree, at) || ends_with_edges(tree, at))
        }
        _ => true,
    }
}

#[cycle(lines)]
/// Whether the inline content of a box makes a line exist.
fn is_in_lines(tree: &BoxTree, at: u32) -> bool
    ensures { result ≡ list_any (makes_line tree.now) (content tree.now at) }
{
    for kid in children(tree, at) {
        if is_in_line(tree, *kid) {
            return true;
        }
    }
    false
}

#[tactic(auto, unfolding(layout_semantics::specs::InlineContent::holds_inline))]
/// Whether a block container holds inline content (CSS 2.1, 9.2.1).
pub fn holds_inline(tree: &BoxTree, at: u32) -> bool
    ensures { result ≡ holds_lines tree.now at }
{
    children(tree, at)
        .iter()
        .any(|kid| is_inline_level(tree, *kid))
}

#[tactic(auto, unfolding(layout_semantics::specs::InlineContent::has_line))]
/// Whether a box has a line that exists.
pub fn has_line(tree: &BoxTree, at: u32) -> bool
    ensures { result ≡ has_lines tree.now at }
{
    holds_inline(tree, at) && is_in_lines(tree, at)
}

#[cycle(floats)]
#[tactic(auto, unfolding(crate::specs::Contents::own_floats))]
/// Adds the floats of a box in inline content.
fn add_own_floats(tree: &BoxTree, at: u32, floats: &mut Vec<u32>) -> Result<(), AllocError>
    ensures { OnOk result (floats.new.items ≡ floats.old.items ++ own_floats tree.now at) }
{
    if is_floated(tree, at) {
        floats.push(at)?;
        return Ok(());
    }
    match kind(tree, at) {
        Kind::Inline => add_floats(tree, at, floats),
        _ => Ok(()),
    }
}

#[cycle(floats)]
/// Adds the floats in the inline content of a box.
fn add_floats(tree: &BoxTree, at: u32, floats: &mut Vec<u32>) -> Result<(), AllocError>
    ensures { OnOk result (floats.new.items
        ≡ floats.old.items ++ float_boxes (content tree.now at)) }
{
    for kid in children(tree, at) {
        add_own_floats(tree, *kid, floats)?;
    }
    Ok(())
}

/// The floats in the inline content of a box, in order: what is in its flow. They are behind it, and boxes of the tree.
pub fn floats_in(tree: &BoxTree, at: u32) -> Result<Vec<u32>, AllocError>
    requires inline { holds_lines tree.now at ≡ true }
    ensures value { IfOk result (λ floats. floats.items ≡ flow_children tree.now at) }
    ensures each { IfOk result (λ floats. (i : ℕ) → i < length floats.items
        → (at < slice_index_or floats.items i 0)
        × (slice_index_or floats.items i 0 < length tree.now.boxes)) }
{
    let mut floats = Vec::new(tree.boxes.allocator());
    add_floats(tree, at, &mut floats)?;
    Ok(floats)
}
