//! The grown page made of its nodes, with what wins at each and its number on the page as it is written.
ghost use Rattle.std.specs.Prelude.{◌≡◌, ◌∷◌, ◌++◌, [], map, IfOk, OnOk};
ghost use Rattle.viz_base.specs.Pages.{IsPage};
ghost use Rattle.page_pseudo.specs.declared.nodes.GrownNode.{GrownNode};
ghost use Rattle.page_pseudo.specs.Grown.{node_of};

use crate::growing::Grown;
use crate::nodes::GrownNode;
use std::alloc::Global;
use viz_base::{Cascaded, List, Mem, Node, Page, Setting};

/// The nodes of a grown page, what wins at each, and its number on the page as it is written.
#[derive(Drop)]
struct Lists {
    nodes: List<Node>,
    winners: List<List<Setting>>,
    from: List<Option<u32>>,
}

impl Lists {
    fn new(alloc: Global) -> Self
        ensures nodes { result.nodes ≡ [] }
        ensures winners { result.winners ≡ [] }
        ensures from { result.from ≡ [] }
    {
        Lists {
            nodes: List::new(alloc),
            winners: List::new(alloc),
            from: List::new(alloc),
        }
    }

    fn push(&mut self, node: GrownNode) -> Result<(), Mem>
        ensures nodes { OnOk result (self.new.nodes ≡ self.old.nodes ++ node_of node ∷ []) }
        ensures winners { OnOk result (self.new.winners ≡ self.old.winners ++ node.winners ∷ []) }
        ensures from { OnOk result (self.new.from ≡ self.old.from ++ node.from ∷ []) }
    {
        let GrownNode {
            parent,
            body,
            from,
            winners,
        } = node;
        self.nodes.push(Node { parent, body })?;
        self.winners.push(winners)?;
        self.from.push(from)?;
        Ok(())
    }
}

/// The lists of the nodes of a grown page.
fn lists_of(alloc: Global, grown: Vec<GrownNode>) -> Result<Lists, Mem>
    ensures nodes { IfOk result (λ lists. lists.nodes ≡ map node_of grown.items) }
    ensures winners { IfOk result (λ lists. lists.winners
        ≡ map (λ (g : GrownNode). g.winners) grown.items) }
    ensures from { IfOk result (λ lists. lists.from ≡ map (λ (g : GrownNode). g.from) grown.items) }
{
    let mut lists = Lists::new(alloc);
    for node in grown {
        lists.push(node)?;
    }
    Ok(lists)
}

/// The grown page of these nodes.
pub fn split(alloc: Global, grown: Vec<GrownNode>) -> Result<Grown, Mem>
    requires { IsPage (map node_of grown.items) }
    ensures nodes { IfOk result (λ g. g.page.nodes ≡ map node_of grown.items) }
    ensures winners { IfOk result (λ g. g.cascaded.winners
        ≡ map (λ (g : GrownNode). g.winners) grown.items) }
    ensures from { IfOk result (λ g. g.from ≡ map (λ (g : GrownNode). g.from) grown.items) }
{
    let Lists {
        nodes,
        winners,
        from,
    } = lists_of(alloc, grown)?;
    Ok(Grown {
        page: Page { nodes },
        cascaded: Cascaded { winners },
        from,
    })
}
