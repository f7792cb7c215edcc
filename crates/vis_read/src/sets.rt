ghost use Rattle.std.specs.Prelude.{◌≡◌, ◌↔◌, length, map, IfOk, IsTrue};
ghost use Rattle.std.specs.Prelude.{ℕ, List as Seq};
ghost use Rattle.css_semantics.specs.SelectorGrammar.{IsGroupOf};
ghost use Rattle.css_semantics.specs.Spelled.{spelled};
ghost use Rattle.vis_read.specs.Tokens.{AreMatched, IsSet, MatchesOne, names_pseudo};

use crate::lexemes::Lexeme;
use crate::places::place;
use css_select::{SelFault, matches, read_selector};
use std::alloc::Global;
use viz_base::{List, Mem, Page, Selector, Set};

/// Whether one of the selectors matches a node.
fn matches_one(group: &[Selector], page: &Page, node: u32) -> bool
    ensures { IsTrue result ↔ MatchesOne page.now.nodes (map spelled group.now) node }
{
    for selector in group {
        if matches(selector, page, node) {
            return true;
        }
    }
    false
}

/// The nodes that a group of selectors matches. A page of `2^32` nodes and more counts as want of memory.
fn matched(alloc: Global, group: &[Selector], page: &Page) -> Result<List<u32>, Mem>
    ensures { IfOk result (AreMatched page.now.nodes (map spelled group.now)
        (length page.now.nodes)) }
{
    let mut found = List::new(alloc);
    let len = place(page.nodes.len())?;
    for node in 0..len {
        if matches_one(group, page, node) {
            found.push(node)?;
        }
    }
    Ok(found)
}

/// Whether one of the selectors has a pseudo-element.
fn names_pseudo(group: &[Selector]) -> bool
    ensures { result ≡ names_pseudo (map spelled group.now) }
{
    for selector in group {
        if selector.pseudo.is_some() {
            return true;
        }
    }
    false
}

/// What a group of selectors says.
fn set_of(alloc: Global, group: &[Selector], page: &Page) -> Result<Lexeme, Mem>
    ensures { IfOk result (λ said. (text : Seq ℕ) → IsGroupOf text (map spelled group.now)
        → IsSet page.now.nodes text said) }
{
    // Generated content is no node of the page, so no set holds it.
    if names_pseudo(group) {
        return Ok(Lexeme::Unknown);
    }
    Ok(Lexeme::Members(Set::Nodes(matched(alloc, group, page)?)))
}

/// What a string says.
pub fn set(alloc: Global, text: &str, page: &Page) -> Result<Lexeme, Mem>
    ensures { IfOk result (IsSet page.now.nodes text.now) }
{
    match read_selector(alloc, text) {
        Ok(group) => set_of(alloc, group.as_slice(), page),
        Err(SelFault::Mem) => Err(Mem),
        Err(SelFault::Bad(_)) => Ok(Lexeme::Unknown),
        Err(SelFault::Unsupported(_)) => Ok(Lexeme::Unknown),
    }
}
