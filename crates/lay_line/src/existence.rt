//! What a line exists by (CSS 2.1, 9.4.2).
ghost use Rattle.std.specs.Prelude.{◌≡◌};
ghost use Rattle.lay_line.specs.Items.{item_of};
ghost use Rattle.lay_line.specs.steps.Words.{makes};

use crate::items::Item;
use lay_tree::contents::{ends_with_edges, starts_with_edges};
use viz_base::BoxTree;

#[tactic(auto, unfolding(crate::specs::steps::Words::makes))]
/// Whether an item makes the line exist on which it is.
pub fn makes_line(tree: &BoxTree, item: &Item) -> bool
    ensures { result ≡ makes tree.now (item_of item.now) }
{
    match item {
        Item::Word(..) | Item::Atomic(_) | Item::Forced(_) => true,
        Item::Start(at) => starts_with_edges(tree, *at),
        Item::Finish(at) => ends_with_edges(tree, *at),
        Item::Space(_) | Item::Float(_) => false,
    }
}
