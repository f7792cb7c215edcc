ghost use Rattle.std.specs.Prelude.{◌≡◌, ◌<◌, ◌↔◌, ℕ, IfSome, IsTrue, MatchOption};
ghost use Rattle.css_semantics.specs.Matching.{IsChildElement, IsFirstChild, IsParent, IsPrevious};
ghost use Rattle.css_select.specs.steps.Trees.{AreSiblings, IsLastChildBefore, NoChildBefore};

use crate::siblings::Siblings;
use viz_base::{Body, Page};

/// A node's parent, which stands before it.
pub fn parent_of(page: &Page, node: u32) -> Option<u32>
    ensures is { MatchOption result ((p : ℕ) → IsParent page.now.nodes p node → ⊥)
        (λ p. IsParent page.now.nodes p node) }
    ensures before { MatchOption result (Unit {0}) (λ p. p < node) }
{
    page.nodes.get(node as usize)?.parent
}

/// Whether a node is an element and a child of another one.
fn is_child_element(page: &Page, parent: u32, node: u32) -> bool
    ensures { IsTrue result ↔ IsChildElement page.now.nodes parent node }
{
    match page.nodes.get(node as usize) {
        Some(found) => found.parent == Some(parent) && matches!(found.body, Body::Element(_)),
        None => false,
    }
}

/// The last child of an element that is an element and stands before a node.
fn last_child_before(page: &Page, parent: u32, node: u32) -> Option<u32>
    ensures { MatchOption result (NoChildBefore page.now.nodes parent node)
        (IsLastChildBefore page.now.nodes parent node) }
{
    let mut at = node;
    while at > parent {
        at -= 1;
        if is_child_element(page, parent, at) {
            return Some(at);
        }
    }
    None
}

/// The last child of a node's parent that is an element and stands before it, by the table where there is one.
fn last_sibling(page: &Page, siblings: Option<&Siblings>, parent: u32, node: u32) -> Option<u32>
    requires table { IfSome siblings (λ s. AreSiblings page.now.nodes s.now) }
    requires parent { IsParent page.now.nodes parent node }
    ensures { MatchOption result (NoChildBefore page.now.nodes parent node)
        (IsLastChildBefore page.now.nodes parent node) }
{
    match siblings {
        Some(table) => table.before(node),
        None => last_child_before(page, parent, node),
    }
}

/// The element directly before a node among those with its parent.
pub fn previous_sibling(page: &Page, siblings: Option<&Siblings>, node: u32) -> Option<u32>
    requires { IfSome siblings (λ s. AreSiblings page.now.nodes s.now) }
    ensures { MatchOption result ((s : ℕ) → IsPrevious page.now.nodes s node → ⊥)
        (λ s. IsPrevious page.now.nodes s node) }
{
    match parent_of(page, node) {
        Some(parent) => last_sibling(page, siblings, parent, node),
        None => None,
    }
}

/// Whether a node has a parent of which no element before it is a child.
pub fn is_first_child(page: &Page, siblings: Option<&Siblings>, node: u32) -> bool
    requires { IfSome siblings (λ s. AreSiblings page.now.nodes s.now) }
    ensures { IsTrue result ↔ IsFirstChild page.now.nodes node }
{
    let Some(parent) = parent_of(page, node) else {
        return false;
    };
    match last_sibling(page, siblings, parent, node) {
        Some(_) => false,
        None => true,
    }
}
