ghost use Rattle.std.specs.Prelude.{◌≡◌, ◌<◌, ◌≤◌, ◌∷◌, length};
ghost use Rattle.std.specs.List.{flat_map};
ghost use Rattle.layout_semantics.specs.Order.{document_order, order_to, kids_of};

use viz_base::BoxTree;

/// Document order has all levels: more of them change nothing.
pub fn more_levels_change_nothing(tree: &BoxTree, at: usize, levels: usize)
    requires within { at < length tree.now.boxes }
    requires levels { length tree.now.boxes ≤ levels }
    ensures { order_to levels tree.now.boxes at ≡ document_order tree.now.boxes at }
{}

/// Document order has a box, and then the orders of the boxes in it.
pub fn a_box_then_its_content(tree: &BoxTree, at: usize)
    requires within { at < length tree.now.boxes }
    ensures { document_order tree.now.boxes at ≡ at
        ∷ flat_map (document_order tree.now.boxes) (kids_of tree.now.boxes at) }
{}
