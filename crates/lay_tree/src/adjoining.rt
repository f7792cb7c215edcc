//! Which margins adjoin, and which boxes are cleared (CSS 2.1, 8.3.1, 9.5.2).
ghost use Rattle.std.specs.Prelude.{◌≡◌};
ghost use Rattle.layout_semantics.specs.FlowBoxes.{stands_clear_of_floats as stands_clear, clear_of, is_open_above as open_above, is_open_below as open_below};
ghost use Rattle.layout_semantics.specs.FlowBoxes.{may_collapse_through, joins_last_child as joins_last};
ghost use Rattle.layout_semantics.specs.Leads.{clears_something};

use crate::boxes::{establishes_context, is_block_level, is_floated, is_replaced, parent};
use crate::contents::has_line;
use crate::heights::{has_auto_height, has_no_minimum};
use crate::styles::{borders, clear, is_zero, own_height, paddings};
use viz_base::{BoxTree, Clear};

#[tactic(auto, unfolding(layout_semantics::specs::FlowBoxes::stands_clear_of_floats))]
/// Whether a box is treated as `clear: both`, so that it overlaps no float.
pub fn stands_clear_of_floats(tree: &BoxTree, at: u32) -> bool
    ensures { result ≡ stands_clear tree.now at }
{
    (establishes_context(tree, at) || is_replaced(tree, at))
        && is_block_level(tree, at)
        && !is_floated(tree, at)
}

#[tactic(auto, unfolding(layout_semantics::specs::FlowBoxes::clear_of))]
/// `clear` as it works on a box in flow; on the root it has no effect (CSS 2.1, 9.5.2).
pub fn clear_in_flow(tree: &BoxTree, at: u32) -> Clear
    ensures { result ≡ clear_of tree.now at }
{
    if parent(tree, at).is_none() {
        return Clear::Nothing;
    }
    if stands_clear_of_floats(tree, at) {
        return Clear::Both;
    }
    clear(tree, at)
}

/// Whether a box has `clear` as it works on a box in flow.
pub fn has_clear(tree: &BoxTree, at: u32) -> bool
    ensures { result ≡ clears_something (clear_of tree.now at) }
{
    !matches!(clear_in_flow(tree, at), Clear::Nothing)
}

#[tactic(auto, unfolding(layout_semantics::specs::FlowBoxes::is_open_above))]
/// Whether no border, no padding and no context of its own part a box's top margin from those in it (CSS 2.1, 8.3.1).
pub fn is_open_above(tree: &BoxTree, at: u32) -> bool
    ensures { result ≡ open_above tree.now at }
{
    !establishes_context(tree, at)
        && !is_replaced(tree, at)
        && is_zero(&borders(tree, at).top)
        && is_zero(&paddings(tree, at).top)
}

#[tactic(auto, unfolding(layout_semantics::specs::FlowBoxes::is_open_below))]
/// Whether no border, no padding and no context of its own part a box's bottom margin from those in it (CSS 2.1,
/// 8.3.1).
pub fn is_open_below(tree: &BoxTree, at: u32) -> bool
    ensures { result ≡ open_below tree.now at }
{
    !establishes_context(tree, at)
        && !is_replaced(tree, at)
        && is_zero(&borders(tree, at).bottom)
        && is_zero(&paddings(tree, at).bottom)
}

#[tactic(auto, unfolding(layout_semantics::specs::FlowBoxes::may_collapse_through))]
/// Whether a block's own top and bottom margins adjoin, where all its children in flow collapse through too.
pub fn collapses_through(tree: &BoxTree, at: u32) -> bool
    ensures { result ≡ may_collapse_through tree.now at }
{
    is_open_above(tree, at)
        && is_open_below(tree, at)
        && has_no_minimum(tree, at)
        && (has_auto_height(tree, at) || is_zero(&own_height(tree, at)))
        && !has_line(tree, at)
}

#[tactic(auto, unfolding(layout_semantics::specs::FlowBoxes::joins_last_child))]
/// Whether the bottom margin of a block adjoins that of its last child in flow.
pub fn joins_last_child(tree: &BoxTree, at: u32) -> bool
    ensures { result ≡ joins_last tree.now at }
{
    is_open_below(tree, at) && has_auto_height(tree, at) && has_no_minimum(tree, at)
}
