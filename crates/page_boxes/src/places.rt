//! The boxes at their places.
ghost use Rattle.std.specs.Prelude.{◌≡◌, ◌≤◌, ◌<◌, ◌+◌, ◌^◌, ◌++◌, ◌∷◌, [], map, length, replicate, slice_set, slice_index_or, IfOk, OnOk, None, if◌then◌else◌, encode_utf8_all};
ghost use Rattle.page_boxes.specs.Seen.{seen, all_seen};
ghost use Rattle.page_boxes.specs.steps.Places.{with_kid, with_kid_at, with_kid_in, with_box, with_all, bare_anonymous, bare_own, place_around, begins, own_place_at, outer_in, bare_begun, bare_boxes, places_walk, count_walk};
ghost use Rattle.viz_base.specs.declared.limits.TheConstants.{MOST_BOXES};

use crate::parts::{Level, Part};
use crate::tables::held;
use std::alloc::{AllocError, Global};
use viz_base::{BoxNode, Kind, List, Mem, Text};

fn add_kid(outer: &mut BoxNode, kid: u32) -> Result<(), AllocError>
    ensures { OnOk result (outer.new ≡ with_kid kid outer.old) }
{
    outer.kids.push(kid)?;
    Ok(())
}

/// Names a box in the box that it is in.
fn name_kid_at(boxes: &mut Vec<BoxNode>, place: usize, kid: u32) -> Result<(), AllocError>
    ensures { OnOk result (boxes.new.items ≡ with_kid_at place kid boxes.old.items) }
{
    if place < boxes.len() {
        add_kid(&mut boxes[place], kid)?;
    }
    Ok(())
}

/// Names a box in the box that it is in, if it is in one.
fn name_kid(boxes: &mut Vec<BoxNode>, outer: Option<u32>, kid: u32) -> Result<(), AllocError>
    ensures { OnOk result (boxes.new.items ≡ with_kid_in outer kid boxes.old.items) }
{
    match outer {
        Some(outer) => name_kid_at(boxes, outer as usize, kid),
        None => Ok(()),
    }
}

/// Adds a box.
fn add_box(boxes: &mut Vec<BoxNode>, added: BoxNode) -> Result<(), AllocError>
    requires { length boxes.old.items < 2 ^ 32 }
    ensures { OnOk result (boxes.new.items ≡ with_box boxes.old.items added) }
{
    let place = boxes.len() as u32;
    name_kid(boxes, added.parent, place)?;
    boxes.push(added)?;
    Ok(())
}

/// The text of these characters.
fn text_of(alloc: Global, letters: &[char]) -> Result<Text, AllocError>
    ensures { IfOk result (λ text. text ≡ encode_utf8_all letters.now) }
{
    let mut text = Text::new(alloc);
    for letter in letters {
        text.push(*letter)?;
    }
    Ok(text)
}

/// The anonymous block box that begins with a part.
fn anonymous_box(alloc: Global, part: &Part, outer: Option<u32>) -> BoxNode
    ensures { result ≡ bare_anonymous (seen part.now) outer }
{
    BoxNode {
        kind: Kind::Anon,
        node: part.parent.unwrap_or(0),
        parent: outer,
        kids: List::new(alloc),
        chars: Text::new(alloc),
        size: None,
        context: false,
        block_level: true,
    }
}

fn own_box(alloc: Global, part: &Part, outer: Option<u32>) -> Result<BoxNode, AllocError>
    ensures { IfOk result (λ b. b ≡ bare_own (seen part.now) outer) }
{
    Ok(BoxNode {
        kind: part.kind,
        node: part.node,
        parent: outer,
        kids: List::new(alloc),
        chars: text_of(alloc, part.text.as_slice())?,
        size: part.size,
        context: part.context,
        block_level: part.level != Level::Inline,
    })
}

/// The place of a node's box.
fn place_of(places: &[u32], node: u32) -> u32
    ensures { result ≡ slice_index_or places.now node 0 }
{
    held(places, Some(node), 0)
}

/// The place of the box of an element around a node.
fn place_around(places: &[u32], parent: Option<u32>) -> Option<u32>
    ensures { result ≡ place_around places.now parent }
{
    match parent {
        Some(parent) => Some(place_of(places, parent)),
        None => None,
    }
}

/// The place of the box that a part's is in: the anonymous block box before the first part's, or the parent's.
fn outer_in(places: &[u32], around: Option<u32>, lead: Option<u32>) -> Option<u32>
    ensures { result ≡ outer_in places.now around lead }
{
    match lead {
        Some(first) => Some(place_of(places, first).saturating_sub(1)),
        None => around,
    }
}

/// Adds the anonymous block box that begins with a part, if one does.
fn add_anonymous(
    alloc: Global,
    boxes: &mut Vec<BoxNode>,
    part: &Part,
    lead: Option<u32>,
    around: Option<u32>,
) -> Result<(), AllocError>
    requires { length boxes.old.items + 1 < 2 ^ 32 }
    ensures boxes { OnOk result (boxes.new.items
        ≡ with_all boxes.old.items (bare_begun (seen part.now) lead around)) }
    ensures count { OnOk result (length boxes.new.items
        ≡ own_place_at (length boxes.old.items) (seen part.now) lead) }
{
    if begins(part, lead) {
        add_box(boxes, anonymous_box(alloc, part, around))?;
    }
    Ok(())
}

/// Puts the place of a node's box.
fn put_place(places: &mut Vec<u32>, node: u32, place: u32)
    ensures { places.new.items ≡ slice_set places.old.items node place }
{
    let at = node as usize;
    if at < places.len() {
        places[at] = place;
    }
}

/// Adds the box of a part, and before it the anonymous block box that begins with it.
fn add_part(
    alloc: Global,
    boxes: &mut Vec<BoxNode>,
    places: &mut Vec<u32>,
    part: &Part,
    lead: Option<u32>,
) -> Result<(), AllocError>
    requires { length boxes.old.items + 1 < 2 ^ 32 }
    ensures boxes { OnOk result (boxes.new.items
        ≡ with_all boxes.old.items (bare_boxes places.old.items (length boxes.old.items)
        (seen part.now) lead)) }
    ensures places { OnOk result (places.new.items
        ≡ slice_set places.old.items part.now.node
        (own_place_at (length boxes.old.items) (seen part.now) lead)) }
{
    let around = place_around(places, part.parent);
    add_anonymous(alloc, boxes, part, lead, around)?;
    let place = boxes.len() as u32;
    put_place(places, part.node, place);
    let outer = outer_in(places, around, lead);
    add_box(boxes, own_box(alloc, part, outer)?)?;
    Ok(())
}

/// The first node of the anonymous block box around the part at a place.
fn lead_at(leads: &[Option<u32>], at: usize) -> Option<u32>
    ensures { result ≡ slice_index_or leads.now at None }
{
    leads.get(at).copied().unwrap_or(None)
}

/// Whether an anonymous block box begins with a part.
fn begins(part: &Part, lead: Option<u32>) -> bool
    ensures { result ≡ begins (seen part.now) lead }
{
    match lead {
        Some(first) => first == part.node,
        None => false,
    }
}

/// How many boxes a part makes.
fn box_count(part: &Part, lead: Option<u32>) -> usize
    ensures { result ≡ (if begins (seen part.now) lead then 2 else 1) }
{
    if begins(part, lead) { 2 } else { 1 }
}

/// How many boxes the parts make.
pub fn count(parts: &[Part], leads: &[Option<u32>]) -> usize
    requires { length parts.now < 2 ^ 32 }
    ensures { result ≡ count_walk leads.now 0 (all_seen parts.now) }
{
    let mut boxes = 0;
    for (at, part) in parts.iter().enumerate() {
        boxes += box_count(part, lead_at(leads, at));
    }
    boxes
}

/// The boxes of the parts, in document order.
pub fn boxes_of(
    alloc: Global,
    parts: &[Part],
    leads: &[Option<u32>],
    nodes: usize,
) -> Result<List<BoxNode>, Mem>
    requires { count_walk leads.now 0 (all_seen parts.now) ≤ MOST_BOXES }
    ensures { IfOk result (λ boxes. boxes
        ≡ with_all [] (places_walk (replicate nodes 0) 0 leads.now 0 (all_seen parts.now))) }
{
    let mut places = vec![in alloc; 0u32; nodes]?;
    let mut boxes = Vec::new(alloc);
    for (at, part) in parts.iter().enumerate() {
        add_part(alloc, &mut boxes, &mut places, part, lead_at(leads, at))?;
    }
    Ok(List::from(boxes))
}
