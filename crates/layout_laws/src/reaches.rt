ghost use Rattle.std.specs.Prelude.{◌≡◌, ◌≤◌, ◌^◌, ◌+◌, ℕ, slice_get, Some, None};
ghost use Rattle.viz_base.specs.declared.trees.BoxNode.{BoxNode};
ghost use Rattle.viz_base.specs.Reaches.{beyond_reach, own_extent, reaches, reach_in, total_extent};

use viz_base::BoxTree;

/// A box reaches at least as far as the box around it, and at least as far as its own extent.
pub fn a_box_reaches_as_far_as_the_box_around_it(tree: &BoxTree)
    ensures around { (b : BoxNode) (around : ℕ)
        → around ≤ reach_in tree.now.styles tree.now.parents tree.now.fonts b around }
    ensures own { (b : BoxNode) (around : ℕ)
        → own_extent tree.now.styles tree.now.parents tree.now.fonts b
        ≤ reach_in tree.now.styles tree.now.parents tree.now.fonts b around }
{}

/// Where no box of a page is beyond reach, all extents together are at most 2^40 units, and so is the reach of each
/// box.
pub fn pages_within_reach_are_bounded(tree: &BoxTree, at: usize)
    requires { beyond_reach tree.now.styles tree.now.parents tree.now.fonts tree.now.boxes ≡ None }
    ensures total { total_extent tree.now.styles tree.now.parents tree.now.fonts tree.now.boxes
        ≤ 2 ^ 40 }
    ensures each { (r : ℕ) → slice_get
        (reaches tree.now.styles tree.now.parents tree.now.fonts tree.now.boxes) at ≡ Some r
        → r ≤ 2 ^ 40 }
{}
