ghost use Rattle.std.specs.Prelude.{◌≢◌, ◌↔◌, ◌<◌, slice_get, Contains, length};
ghost use Rattle.layout_semantics.specs.Order.{page_order, IsOnPage};

use viz_base::BoxTree;

/// Document order has each box of the page.
pub fn each_box_of_the_page_is_placed(tree: &BoxTree, at: usize)
    ensures { Contains (page_order tree.now.boxes) at ↔ IsOnPage tree.now.boxes at }
{}

/// Document order has no box twice.
pub fn no_box_is_placed_twice(tree: &BoxTree, first: usize, second: usize)
    requires differ { first < second }
    requires within { second < length (page_order tree.now.boxes) }
    ensures { slice_get (page_order tree.now.boxes) first
        ≢ slice_get (page_order tree.now.boxes) second }
{}
