ghost use Rattle.std.specs.Prelude.{◌≡◌, ◌<◌, ◌↔◌, ℤ, ◌≤ℤ◌, List, length, Contains};
ghost use Rattle.viz_base.specs.declared.layouts.Preferred.{Preferred};
ghost use Rattle.layout_semantics.specs.Horizontal.{widths, sum_of, placing_of, block_flow, shrunk, block_terms, shrunk_terms, shrink_to_fit};
ghost use Rattle.layout_semantics.specs.Preferred.{Child, block_widths, preferred, inside_of, inline_content, blocks, a_replaced};
ghost use Rattle.layout_semantics.specs.Replaced.{preferred_replaced};
ghost use Rattle.layout_laws.specs.Greatest.{IsGreatestOf};
ghost use Rattle.layout_laws.specs.FloatRuns.{IsChildWidth};
ghost use Rattle.layout_laws.specs.Terms.{IsInFlowBlock, own_width, clamped_width};
ghost use Rattle.layout_laws.specs.Outer.{unbreakable_widths, piece_widths, child_least_widths, child_most_widths};

use viz_base::{BoxTree, World};

/// The preferred minimum width of inline content is that of the widest segment that no line may break, or float, and
/// the preferred width that of the widest piece between forced breaks, its floats in it (CSS 2.1, 10.3.5; our own
/// reading).
pub fn preferred_widths_of_inline_content(tree: &BoxTree, world: World, at: usize)
    requires within { at < length tree.now.boxes }
    requires inline { inside_of tree.now at ≡ inline_content }
    ensures least { IsGreatestOf (unbreakable_widths tree.now world at)
        (preferred tree.now world at).least }
    ensures most { IsGreatestOf (piece_widths tree.now world at)
        (preferred tree.now world at).most }
{}

/// The preferred minimum width of a box that holds blocks is the greatest of its children, and the preferred width
/// the greatest of those in normal flow and of the floats that follow one another together (CSS 2.1, 10.3.5; our own
/// reading).
pub fn preferred_widths_of_blocks(tree: &BoxTree, world: World, at: usize)
    requires within { at < length tree.now.boxes }
    requires blocks { inside_of tree.now at ≡ blocks }
    ensures least { IsGreatestOf (child_least_widths tree.now world at)
        (preferred tree.now world at).least }
    ensures most { IsGreatestOf (child_most_widths tree.now world at)
        (preferred tree.now world at).most }
{}

/// Both of a replaced box are its width where percentages count as `auto` and none (CSS 2.1, 10.3.2, 10.3.5; our own
/// reading).
pub fn preferred_widths_of_a_replaced_box(tree: &BoxTree, world: World, at: usize)
    requires within { at < length tree.now.boxes }
    requires replaced { inside_of tree.now at ≡ a_replaced }
    ensures least { (preferred tree.now world at).least ≡ preferred_replaced tree.now world at }
    ensures most { (preferred tree.now world at).most ≡ preferred_replaced tree.now world at }
{}

/// The seven terms of a block in normal flow add up to the width of its containing block (CSS 2.1, 10.3.3, 10.3.4).
pub fn the_terms_of_a_block_add_up(tree: &BoxTree, world: World, at: usize)
    ensures { (cb : ℤ) → IsInFlowBlock tree.now at → sum_of (widths tree.now world at cb) ≡ cb }
{}

/// The used width of a box that isn't replaced is the one that its own `width` gives, but no more than its maximum,
/// and then no less than its minimum (CSS 2.1, 10.4).
pub fn used_widths_are_clamped(tree: &BoxTree, world: World, at: usize)
    ensures block { (cb : ℤ) → placing_of tree.now at ≡ block_flow
        → (widths tree.now world at cb).content
        ≡ clamped_width tree.now world at cb
        (block_terms tree.now world at cb (own_width tree.now world at cb)).content }
    ensures shrunk { (cb : ℤ) → placing_of tree.now at ≡ shrunk
        → (widths tree.now world at cb).content
        ≡ clamped_width tree.now world at cb
        (shrunk_terms tree.now world at cb (own_width tree.now world at cb)).content }
{}

/// The width that a float or an inline-block shrinks to is what is left of the containing block where that lies
/// between its preferred widths (CSS 2.1, 10.3.5).
pub fn a_width_shrinks_to_fit()
    ensures least { (p : Preferred ℤ) (room : ℤ) → p.least ≤ℤ p.most
        → p.least ≤ℤ shrink_to_fit p room }
    ensures most { (p : Preferred ℤ) (room : ℤ) → shrink_to_fit p room ≤ℤ p.most }
    ensures between { (p : Preferred ℤ) (room : ℤ) → p.least ≤ℤ room → room ≤ℤ p.most
        → shrink_to_fit p room ≡ room }
{}

/// Among the children of a box, the widths that its preferred width is the greatest of are those of the children in
/// normal flow and the sums of floats that follow one another (CSS 2.1, 10.3.5; our own reading).
pub fn child_widths_are_of_children_and_runs_of_floats()
    ensures { (children : List Child) (width : ℤ)
        → Contains (block_widths children) width ↔ IsChildWidth children width }
{}
