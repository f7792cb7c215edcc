//! Which heights are definite, and what percentages of heights are of (CSS 2.1, 10.5, 10.7).
ghost use Rattle.std.specs.Prelude.{◌≡◌};
ghost use Rattle.layout_semantics.specs.DefiniteHeights.{is_passed_over as passes_over, container_to, is_definite_to, is_definite as definite_of};
ghost use Rattle.layout_semantics.specs.DefiniteHeights.{counts_as_auto as counted_as_auto};
ghost use Rattle.layout_semantics.specs.DefiniteHeights.{has_auto_height as auto_height_of, has_no_minimum as no_minimum_of};

use crate::boxes::{kind, parent};
use crate::styles::{is_zero, min_height, own_height};
use viz_base::{BoxTree, Kind, Length};

/// Whether percentages of heights are of no box of this kind: an inline box is no containing block, and an
/// anonymous block is passed over (CSS 2.1, 9.2.1.1).
fn is_passed_over(kind: Kind) -> bool
    ensures { result ≡ passes_over kind }
{
    matches!(kind, Kind::Inline | Kind::Anon)
}

/// The box whose height percentages are of, up so many levels, where there is one.
pub fn container(tree: &BoxTree, levels: u64, at: u32) -> Option<u32>
    ensures { result ≡ container_to levels tree.now at }
{
    if levels == 0 {
        return None;
    }
    let outer = parent(tree, at)?;
    if is_passed_over(kind(tree, outer)) {
        container(tree, levels - 1, outer)
    } else {
        Some(outer)
    }
}

/// Whether the height that percentages of a box's heights are of is definite, so many levels up (CSS 2.1, 10.5).
fn is_definite(tree: &BoxTree, levels: u64, at: u32) -> bool
    ensures { result ≡ is_definite_to levels tree.now at }
{
    if levels == 0 {
        return false;
    }
    match container(tree, u64::from(at) + 1, at) {
        Some(outer) => match own_height(tree, outer) {
            Length::Auto => false,
            Length::Pct(_) => is_definite(tree, levels - 1, outer),
            Length::Px(_) | Length::Em { .. } => true,
        },
        None => true,
    }
}

/// Whether a height of a box counts as `auto`: a percentage of a height that is not definite does (CSS 2.1, 10.5).
fn counts_as_auto(tree: &BoxTree, at: u32, height: &Length) -> bool
    ensures { result ≡ counted_as_auto (definite_of tree.now at) height.now }
{
    match height {
        Length::Auto => true,
        Length::Pct(_) => !is_definite(tree, u64::from(at) + 1, at),
        Length::Px(_) | Length::Em { .. } => false,
    }
}

#[tactic(auto, unfolding(layout_semantics::specs::DefiniteHeights::has_auto_height))]
/// Whether the height of a box is `auto`.
pub fn has_auto_height(tree: &BoxTree, at: u32) -> bool
    ensures { result ≡ auto_height_of tree.now at }
{
    counts_as_auto(tree, at, &own_height(tree, at))
}

#[tactic(auto, unfolding(layout_semantics::specs::DefiniteHeights::has_no_minimum))]
/// Whether a box has no minimum height, or a computed one of zero.
pub fn has_no_minimum(tree: &BoxTree, at: u32) -> bool
    ensures { result ≡ no_minimum_of tree.now at }
{
    let least = min_height(tree, at);
    counts_as_auto(tree, at, &least) || is_zero(&least)
}
