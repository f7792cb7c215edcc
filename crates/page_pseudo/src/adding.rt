//! Adds nodes to the grown page: those that are written, and the generated ones.
ghost use Rattle.std.specs.Prelude.{◌≡◌, ◌∷◌, ◌++◌, [], length, Some, OnOk};
ghost use Rattle.page_pseudo.specs.Grown.{content, own_node, pseudo_element, pseudo_nodes, text_nodes};
ghost use Rattle.page_pseudo.specs.steps.Seeds.{written};

use crate::copies::{copied_body, copied_settings};
use crate::nodes::GrownNode;
use crate::numbers::number;
use crate::seeds::{Seeds, winners_at};
use crate::texts::{generated, tag_of};
use viz_base::{Body, Element, List, Mem, Node, Pseudo, Setting, Text};

/// Adds a node that is written.
pub fn add_own(
    grown: &mut Vec<GrownNode>,
    seeds: Seeds<'_>,
    at: u32,
    parent: Option<u32>,
    node: &Node,
) -> Result<(), Mem>
    ensures { OnOk result (grown.new.items
        ≡ grown.old.items ++ own_node (written seeds.entry) at parent node.now ∷ []) }
{
    let alloc = *grown.allocator();
    let body = copied_body(alloc, &node.body)?;
    let winners = copied_settings(alloc, winners_at(seeds.own, at as usize))?;
    grown.push(GrownNode {
        parent,
        body,
        from: Some(at),
        winners,
    })?;
    Ok(())
}

/// Adds a pseudo-element without its text.
fn add_element(
    grown: &mut Vec<GrownNode>,
    which: Pseudo,
    parent: u32,
    winners: &[Setting],
) -> Result<(), Mem>
    ensures { OnOk result (grown.new.items
        ≡ grown.old.items ++ pseudo_element which parent winners.now ∷ []) }
{
    let alloc = *grown.allocator();
    let tag = Text::from_text(alloc, tag_of(which))?;
    let winners = copied_settings(alloc, winners)?;
    grown.push(GrownNode {
        parent: Some(parent),
        body: Body::Element(Element {
            tag,
            attrs: List::new(alloc),
            size: None,
        }),
        from: None,
        winners,
    })?;
    Ok(())
}

/// Adds the text of a pseudo-element, unless it is empty.
fn add_text(grown: &mut Vec<GrownNode>, parent: u32, text: &Text) -> Result<(), Mem>
    ensures { OnOk result (grown.new.items ≡ grown.old.items ++ text_nodes parent text.now) }
{
    if text.len() == 0 {
        return Ok(());
    }
    let alloc = *grown.allocator();
    let text = text.clone()?;
    grown.push(GrownNode {
        parent: Some(parent),
        body: Body::Chars(text),
        from: None,
        winners: List::new(alloc),
    })?;
    Ok(())
}

/// Adds a pseudo-element with its text.
fn add_pseudo(
    grown: &mut Vec<GrownNode>,
    which: Pseudo,
    parent: u32,
    winners: &[Setting],
    text: &Text,
) -> Result<(), Mem>
    ensures { OnOk result (grown.new.items ≡ grown.old.items
        ++ pseudo_nodes which (length grown.old.items) parent winners.now (Some text.now)) }
{
    let at = number(grown.len())?;
    add_element(grown, which, parent, winners)?;
    add_text(grown, at, text)
}

/// Adds the generated content that a node of the grown page has there.
pub fn add_content(
    grown: &mut Vec<GrownNode>,
    which: Pseudo,
    parent: u32,
    body: &Body,
    winners: &[Setting],
) -> Result<(), Mem>
    ensures { OnOk result (grown.new.items ≡ grown.old.items
        ++ content which (length grown.old.items) parent body.now winners.now) }
{
    match generated(body, winners) {
        Some(text) => add_pseudo(grown, which, parent, winners, text),
        None => Ok(()),
    }
}
