//! Goes through the nodes of a page, and adds what is generated before and after the content of each.
ghost use Rattle.std.specs.Prelude.{◌≡◌, [], None, Some, ◌≤◌, get_or, length, slice_get, suc, IfOk, OnOk};
ghost use Rattle.page_pseudo.specs.Grown.{Grow, children};
ghost use Rattle.page_pseudo.specs.steps.Seeds.{written};
ghost use Rattle.page_pseudo.specs.steps.Upto.{HasAllBefore, IsGrowing, new_number, open_behind, parent_at};

use crate::adding::{add_content, add_own};
use crate::nodes::GrownNode;
use crate::numbers::number;
use crate::seeds::{Seeds, winners_at};
use std::alloc::Global;
use viz_base::{Body, Mem, Node, Pseudo};

/// The grown page as far as it goes: its nodes, the new numbers of those that are written, and the innermost element
/// that may go on, by its old number.
#[derive(Drop)]
pub struct Growing {
    /// The nodes of the grown page.
    pub grown: Vec<GrownNode>,
    /// The new numbers of the nodes that are written, by their old ones.
    pub numbers: Vec<u32>,
    /// The old number of the innermost element that may go on.
    pub going: Option<u32>,
}

impl Growing {
    /// Before the root.
    fn new(alloc: Global) -> Self
        ensures grown { result.grown.items ≡ [] }
        ensures numbers { result.numbers.items ≡ [] }
        ensures going { result.going ≡ None }
    {
        Growing {
            grown: Vec::new(alloc),
            numbers: Vec::new(alloc),
            going: None,
        }
    }

    /// The new number of a node.
    fn number_of(&self, node: u32) -> u32
        ensures { result ≡ get_or self.now.numbers.items node 0 }
    {
        match self.numbers.get(node as usize) {
            Some(number) => *number,
            None => 0,
        }
    }

    /// The new number of a node's parent.
    fn parent_of(&self, node: &Node) -> Option<u32>
        ensures { result ≡ new_number self.now.numbers.items node.now.parent }
    {
        Some(self.number_of(node.parent?))
    }

    /// Ends the innermost element with its `:after`.
    fn close(&mut self, seeds: Seeds<'_>, at: u32, node: &Node) -> Result<(), Mem>
        requires growing { IsGrowing (written seeds) self.old }
        requires going { self.old.going ≡ Some at }
        requires found { slice_get seeds.page.now.nodes at ≡ Some node.now }
        requires few { length self.old.numbers.items ≤ length seeds.page.now.nodes }
        requires whole { HasAllBefore seeds.page.now.nodes at (length self.old.numbers.items) }
        ensures growing { OnOk result (IsGrowing (written seeds.entry) self.new) }
        ensures going { OnOk result (self.new.going ≡ node.now.parent) }
        ensures numbers { OnOk result (self.new.numbers.items ≡ self.old.numbers.items) }
    {
        let number = self.number_of(at);
        let winners = winners_at(seeds.after, at as usize);
        add_content(&mut self.grown, Pseudo::After, number, &node.body, winners)?;
        self.going = node.parent;
        Ok(())
    }

    /// Ends the elements in which a node with this parent isn't, the innermost first.
    fn close_to(&mut self, seeds: Seeds<'_>, parent: Option<u32>) -> Result<(), Mem>
        requires growing { IsGrowing (written seeds) self.old }
        requires going { self.old.going
            ≡ open_behind seeds.page.now.nodes (length self.old.numbers.items) }
        requires parent { parent ≡ parent_at seeds.page.now.nodes (length self.old.numbers.items) }
        requires few { length self.old.numbers.items ≤ length seeds.page.now.nodes }
        ensures growing { OnOk result (IsGrowing (written seeds.entry) self.new) }
        ensures going { OnOk result (self.new.going ≡ parent) }
        ensures numbers { OnOk result (self.new.numbers.items ≡ self.old.numbers.items) }
    {
        let nodes = seeds.page.nodes.as_slice();
        while self.going != parent {
            let Some(at) = self.going else {
                return Ok(());
            };
            self.close(seeds, at, &nodes[at as usize])?;
        }
        Ok(())
    }

    /// Adds a node with its `:before`. An element may go on.
    fn add(&mut self, seeds: Seeds<'_>, at: u32, node: &Node) -> Result<(), Mem>
        requires growing { IsGrowing (written seeds) self.old }
        requires going { self.old.going ≡ node.now.parent }
        requires next { at ≡ length self.old.numbers.items }
        requires found { slice_get seeds.page.now.nodes at ≡ Some node.now }
        ensures growing { OnOk result (IsGrowing (written seeds.entry) self.new) }
        ensures going { OnOk result (self.new.going
            ≡ open_behind seeds.entry.page.now.nodes (suc at)) }
        ensures numbers { OnOk result (length self.new.numbers.items ≡ suc at) }
    {
        let new = number(self.grown.len())?;
        let parent = self.parent_of(node);
        add_own(&mut self.grown, seeds, at, parent, node)?;
        let winners = winners_at(seeds.before, at as usize);
        add_content(&mut self.grown, Pseudo::Before, new, &node.body, winners)?;
        self.numbers.push(new)?;
        if let Body::Element(_) = &node.body {
            self.going = Some(at);
        }
        Ok(())
    }
}

/// The nodes of the grown page.
pub fn walk(alloc: Global, seeds: Seeds<'_>) -> Result<Vec<GrownNode>, Mem>
    ensures { IfOk result (λ all.
        Grow (written seeds.entry) (children seeds.entry.page.now.nodes None) 0 None all.items) }
{
    let mut growing = Growing::new(alloc);
    let nodes = seeds.page.nodes.as_slice();
    for at in 0..nodes.len() {
        growing.close_to(seeds, nodes[at].parent)?;
        growing.add(seeds, number(at)?, &nodes[at])?;
    }
    growing.close_to(seeds, None)?;
    let Growing { grown, .. } = growing;
    Ok(grown)
}
