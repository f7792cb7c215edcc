ghost use Rattle.std.specs.Prelude.{◌≡◌, ◌+◌, ℕ, None, Some, get_or, length, replicate, slice_get, IfOk};
ghost use Rattle.css_select.specs.steps.Trees.{AreLast, AreSiblings};

use crate::steps::place;
use std::alloc::Global;
use viz_base::{Body, Mem, Node, Page};

/// For each node of a page the last element before it that is a child of its parent.
#[derive(Drop)]
pub struct Siblings {
    pub previous: Vec<Option<u32>>,
}

/// No node for each of so many.
fn no_nodes(alloc: Global, count: usize) -> Result<Vec<Option<u32>>, Mem>
    ensures { IfOk result (λ nodes. nodes.items ≡ replicate count None) }
{
    let mut nodes = Vec::new(alloc);
    for _node in 0..count {
        nodes.push(None)?;
    }
    Ok(nodes)
}

/// The last child so far of a node's parent.
fn last_of(last: &[Option<u32>], parent: Option<u32>) -> Option<u32>
    ensures { (p : ℕ) → parent ≡ Some p → result ≡ get_or last.now p None }
{
    let parent = parent?;
    match last.get(parent as usize) {
        Some(child) => *child,
        None => None,
    }
}

/// Keeps the last children of all nodes behind one more node.
fn keep_last(page: &Page, last: &mut Vec<Option<u32>>, at: u32, node: &Node)
    requires len { length last.old.items ≡ length page.now.nodes }
    requires found { slice_get page.now.nodes at ≡ Some node.now }
    requires last { AreLast page.now.nodes at last.old.items }
    ensures len { length last.new.items ≡ length page.now.nodes }
    ensures last { AreLast page.now.nodes (at + 1) last.new.items }
{
    if let Body::Element(_) = &node.body {
        if let Some(parent) = node.parent {
            last[parent as usize] = Some(at);
        }
    }
}

impl Siblings {
    /// The last element before a node that is a child of its parent.
    pub fn before(&self, node: u32) -> Option<u32>
        ensures { result ≡ get_or self.now.previous.items node None }
    {
        match self.previous.get(node as usize) {
            Some(found) => *found,
            None => None,
        }
    }
}

/// The elements before the nodes of a page, in one pass over them.
pub fn find_siblings(alloc: Global, page: &Page) -> Result<Siblings, Mem>
    ensures { IfOk result (AreSiblings page.now.nodes) }
{
    let nodes = page.nodes.as_slice();
    let mut last = no_nodes(alloc, nodes.len())?;
    let mut previous = Vec::new(alloc);
    for (at, node) in nodes.iter().enumerate() {
        // Nodes come in document order, so the last child so far is the element before this one.
        previous.push(last_of(&last, node.parent))?;
        keep_last(page, &mut last, place(at)?, node);
    }
    Ok(Siblings { previous })
}
