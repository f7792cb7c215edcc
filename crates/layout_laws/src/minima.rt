ghost use Rattle.std.specs.Prelude.{◌≡◌, ℤ, ◌≤ℤ◌, false};
ghost use Rattle.layout_semantics.specs.DefiniteHeights.{least_height};
ghost use Rattle.layout_semantics.specs.Flow.{content_height};
ghost use Rattle.layout_semantics.specs.FlowBoxes.{joins_last_child, may_collapse_through};
ghost use Rattle.layout_laws.specs.Edges.{IsNonzero, used_minimum};

use viz_base::{BoxTree, World};

/// A box is no lower than its minimum height, whatever its content's height is (CSS 2.1, 10.7).
pub fn a_box_is_no_lower_than_its_minimum(tree: &BoxTree, world: World, at: usize)
    ensures { (auto : ℤ) → used_minimum tree.now world at ≤ℤ content_height tree.now world at auto }
{}

/// A minimum height that is not zero, of pixels or of a font size, keeps the margins of a box apart, and its bottom
/// margin from that of its last child (CSS 2.1, 8.3.1).
pub fn a_minimum_parts_margins(tree: &BoxTree, at: usize)
    requires minimum { IsNonzero (least_height tree.now at) }
    ensures through { may_collapse_through tree.now at ≡ false }
    ensures last { joins_last_child tree.now at ≡ false }
{}
