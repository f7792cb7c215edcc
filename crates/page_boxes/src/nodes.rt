//! Which nodes of a page make boxes, and of what kind (CSS 2.1, 9.2).
ghost use Rattle.std.specs.Prelude.{◌≡◌, ◌++◌, ◌∷◌, ◌^◌, ◌<◌, [], length, chars, IfOk, OnOk, if◌then◌else◌, Some, None};
ghost use Rattle.viz_base.specs.Pages.{is_replaced, text_of};
ghost use Rattle.viz_base.specs.Trees.{is_inline};
ghost use Rattle.layout_semantics.specs.Elements.{intrinsic_size, is_closed};
ghost use Rattle.layout_semantics.specs.Lists.{one_if};
ghost use Rattle.layout_semantics.specs.Parts.{display_level, inline_context, inline_kind, is_context, is_inline_block, kind_of_node, level_kind, level_of, style_level};
ghost use Rattle.page_boxes.specs.Seen.{seen, all_seen, level_seen};
ghost use Rattle.page_boxes.specs.steps.Nodes.{is_shown_in, nodes_walk, part_in, spot_around, spot_in};

use crate::letters::letters_of;
use crate::parts::{Level, Part};
use crate::tables::held;
use std::alloc::{AllocError, Global};
use viz_base::{Body, Display, Kind, List, Mem, Node, Page, Style, is_break, is_replaced};

/// What a node's kids stand in.
#[derive(Clone, Copy)]
struct Spot {
    /// Whether they make boxes, where they are not hidden themselves.
    shows: bool,
    /// Their block container.
    container: Option<u32>,
}

const OUTSIDE: Spot = Spot {
    shows: true,
    container: None,
};

fn intrinsic_size(body: &Body) -> (u32, u32)
    ensures { result ≡ intrinsic_size body.now }
{
    match body {
        Body::Element(element) => element.size.unwrap_or((0, 0)),
        Body::Chars(_) => (0, 0),
    }
}

fn display_level(display: Display) -> Level
    ensures { level_seen result ≡ display_level display }
{
    match display {
        Display::Block => Level::Block,
        _ => Level::Inline,
    }
}

/// A float is block-level whatever its display (CSS 2.1, 9.7).
fn style_level(style: &Style) -> Level
    ensures { level_seen result ≡ style_level style.now }
{
    match style.float {
        Some(_) => Level::Floated,
        None => display_level(style.display),
    }
}

/// The root is a block in normal flow, and a `br` and a text are inline, whatever their style.
fn level_of(is_root: bool, body: &Body, style: &Style) -> Level
    ensures { level_seen result ≡ level_of is_root body.now style.now }
{
    if is_root {
        return Level::Block;
    }
    match body {
        Body::Chars(_) => Level::Inline,
        Body::Element(_) => {
            if is_break(body) {
                Level::Inline
            } else {
                style_level(style)
            }
        }
    }
}

/// The kind of an inline-level box that is not replaced (CSS 2.1, 9.2.2 and 9.2.4).
fn inline_kind(body: &Body, display: Display) -> Kind
    ensures { result ≡ inline_kind body.now display }
{
    match body {
        Body::Chars(_) => Kind::Chars,
        Body::Element(_) => {
            if is_break(body) {
                return Kind::Break;
            }
            match display {
                Display::InlineBlock => Kind::Atomic,
                _ => Kind::Inline,
            }
        }
    }
}

fn level_kind(level: Level, body: &Body, display: Display) -> Kind
    ensures { result ≡ level_kind (level_seen level) body.now display }
{
    match level {
        Level::Block => Kind::Block,
        Level::Floated => Kind::Float,
        Level::Inline => inline_kind(body, display),
    }
}

fn kind_of(is_root: bool, body: &Body, style: &Style) -> Kind
    ensures { result ≡ kind_of_node is_root body.now style.now }
{
    if is_replaced(body) {
        Kind::Replaced
    } else {
        level_kind(level_of(is_root, body, style), body, style.display)
    }
}

fn is_inline_block(display: Display) -> bool
    ensures { result ≡ is_inline_block display }
{
    matches!(display, Display::InlineBlock)
}

fn inline_context(kind: Kind, display: Display) -> bool
    ensures { result ≡ inline_context kind display }
{
    match kind {
        Kind::Atomic => true,
        Kind::Replaced => is_inline_block(display),
        _ => false,
    }
}

/// Whether a box starts a block formatting context (CSS 2.1, 9.4.1).
fn is_context(is_root: bool, level: Level, kind: Kind, style: &Style) -> bool
    ensures { result ≡ is_context is_root (level_seen level) kind style.now }
{
    match level {
        Level::Block => is_root || style.clips,
        Level::Floated => true,
        Level::Inline => inline_context(kind, style.display),
    }
}

/// The characters of a text node.
fn text_of(body: &Body) -> &str
    ensures { result.now ≡ text_of body.now }
{
    match body {
        Body::Element(_) => "",
        Body::Chars(text) => text.as_str(),
    }
}

fn size_of(body: &Body) -> Option<(u32, u32)>
    ensures { result ≡ (if is_replaced body.now then Some (intrinsic_size body.now) else None) }
{
    if is_replaced(body) {
        Some(intrinsic_size(body))
    } else {
        None
    }
}

/// The box of a node.
fn part_in(
    alloc: Global,
    around: Spot,
    at: u32,
    node: &Node,
    style: &Style,
) -> Result<Part, AllocError>
    ensures { IfOk result (λ p. seen p ≡ part_in around at node.now style.now) }
{
    let is_root = at == 0;
    let level = level_of(is_root, &node.body, style);
    let kind = kind_of(is_root, &node.body, style);
    Ok(Part {
        node: at,
        parent: node.parent,
        container: around.container,
        kind,
        level,
        text: List::from(letters_of(alloc, text_of(&node.body))?),
        size: size_of(&node.body),
        context: is_context(is_root, level, kind, style),
    })
}

fn is_shown(around: Spot, style: &Style) -> bool
    ensures { result ≡ is_shown_in around style.now }
{
    around.shows && !matches!(style.display, Display::Hidden)
}

/// Whether the content of an element makes no box.
fn is_closed(body: &Body) -> bool
    ensures { result ≡ is_closed body.now }
{
    is_break(body) || is_replaced(body)
}

fn is_inline(kind: Kind) -> bool
    ensures { result ≡ is_inline kind }
{
    matches!(kind, Kind::Inline)
}

/// What the kids of a node stand in.
fn spot_in(around: Spot, at: u32, node: &Node, style: &Style) -> Spot
    ensures { result ≡ spot_in around at node.now style.now }
{
    let is_inline = is_inline(kind_of(at == 0, &node.body, style));
    Spot {
        shows: is_shown(around, style) && !is_closed(&node.body),
        container: if is_inline {
            around.container
        } else {
            Some(at)
        },
    }
}

/// What a node stands in.
fn spot_around(spots: &[Spot], parent: Option<u32>) -> Spot
    ensures { result ≡ spot_around spots.now parent }
{
    held(spots, parent, OUTSIDE)
}

/// Adds the box of a node, if it makes one.
fn add_part(
    alloc: Global,
    parts: &mut Vec<Part>,
    around: Spot,
    at: u32,
    node: &Node,
    style: &Style,
) -> Result<(), AllocError>
    ensures { OnOk result (all_seen parts.new.items
        ≡ all_seen parts.old.items ++ one_if (is_shown_in around style.now)
        (part_in around at node.now style.now)) }
{
    if is_shown(around, style) {
        parts.push(part_in(alloc, around, at, node, style)?)?;
    }
    Ok(())
}

/// The boxes of the nodes of a page, in document order.
pub fn shown_parts(alloc: Global, page: &Page, styles: &List<Style>) -> Result<Vec<Part>, Mem>
    requires few { length page.now.nodes < 2 ^ 32 }
    requires styled { length styles.now ≡ length page.now.nodes }
    ensures { IfOk result (λ parts. all_seen parts.items
        ≡ nodes_walk [] 0 page.now.nodes styles.now) }
{
    let nodes = page.nodes.as_slice();
    let styles = styles.as_slice();
    let mut spots = Vec::new(alloc);
    let mut parts = Vec::new(alloc);
    for at in 0..nodes.len() {
        let node = &nodes[at];
        let style = &styles[at];
        let number = at as u32;
        let around = spot_around(&spots, node.parent);
        add_part(alloc, &mut parts, around, number, node, style)?;
        spots.push(spot_in(around, number, node, style))?;
    }
    Ok(parts)
}
