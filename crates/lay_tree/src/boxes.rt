//! A box, where it stands in the tree, and of which sort it is (CSS 2.1, 9.2, 9.4.1, 9.5).
//!
//! What is not in the tree is a block of node 0 with nothing in it, in no box.
ghost use Rattle.std.specs.Prelude.{◌≡◌, ◌<◌, ℕ, is_some, false, length, slice_get, slice_index_or};
ghost use Rattle.std.specs.Option.{option_map_or};
ghost use Rattle.std.specs.Str.{chars};
ghost use Rattle.viz_base.specs.declared.styles.Style.{Style as StyleOf};
ghost use Rattle.viz_base.specs.Trees.{is_floated as floats_in, is_inline_level as is_in_line};
ghost use Rattle.layout_semantics.specs.Blocks.{kind_of, node_of, parent_of};
ghost use Rattle.layout_semantics.specs.FlowBoxes.{is_replaced_at, is_context_root, is_block_level_at};
ghost use Rattle.layout_semantics.specs.InlineContent.{is_floated_at, is_inline_level_at, text_of};
ghost use Rattle.layout_semantics.specs.Order.{kids_of};
ghost use Rattle.layout_semantics.specs.Replaced.{intrinsic};

use viz_base::{BoxNode, BoxTree, Kind};

/// The kind of a box.
pub fn kind(tree: &BoxTree, at: u32) -> Kind
    ensures { result ≡ kind_of tree.now at }
{
    match tree.boxes.get(at as usize) {
        Some(found) => found.kind,
        None => Kind::Block,
    }
}

/// The node that a box comes from.
pub fn node(tree: &BoxTree, at: u32) -> u32
    ensures { result ≡ node_of tree.now at }
{
    match tree.boxes.get(at as usize) {
        Some(found) => found.node,
        None => 0,
    }
}

/// The place of the box that a box is in, if it is in one.
pub fn parent(tree: &BoxTree, at: u32) -> Option<u32>
    ensures { result ≡ parent_of tree.now.boxes at }
{
    match tree.boxes.get(at as usize) {
        Some(found) => found.parent,
        None => None,
    }
}

/// The places of the boxes in a box.
fn kids(tree: &BoxTree, at: u32) -> &[u32]
    ensures { result.now ≡ kids_of tree.now.boxes at }
{
    match tree.boxes.get(at as usize) {
        Some(found) => found.kids.as_slice(),
        None => &[],
    }
}

/// The places of the boxes in a box, in order: they are behind it, and boxes of the tree.
pub fn children(tree: &BoxTree, at: u32) -> &[u32]
    ensures value { result.now ≡ kids_of tree.now.boxes at }
    ensures each { (i : ℕ) → i < length result.now
        → (at < slice_index_or result.now i 0)
        × (slice_index_or result.now i 0 < length tree.now.boxes) }
{
    kids(tree, at)
}

/// The characters of a text.
pub fn text(tree: &BoxTree, at: u32) -> &str
    ensures { chars result.now ≡ text_of tree.now at }
{
    match tree.boxes.get(at as usize) {
        Some(found) => found.chars.as_str(),
        None => "",
    }
}

/// The intrinsic width and height of a replaced box, in pixels (CSS 2.1, 10.3.2).
pub fn intrinsic_size(tree: &BoxTree, at: u32) -> (u32, u32)
    ensures { result ≡ intrinsic tree.now at }
{
    match tree.boxes.get(at as usize) {
        Some(found) => match found.size {
            Some(size) => size,
            None => (0, 0),
        },
        None => (0, 0),
    }
}

#[tactic(auto, unfolding(layout_semantics::specs::FlowBoxes::is_replaced_at))]
/// Whether a box is replaced.
pub fn is_replaced(tree: &BoxTree, at: u32) -> bool
    ensures { result ≡ is_replaced_at tree.now at }
{
    matches!(kind(tree, at), Kind::Replaced)
}

#[tactic(auto, unfolding(layout_semantics::specs::FlowBoxes::is_context_root))]
/// Whether a box establishes a block formatting context (CSS 2.1, 9.4.1); no replaced one does.
pub fn establishes_context(tree: &BoxTree, at: u32) -> bool
    ensures { result ≡ is_context_root tree.now at }
{
    match tree.boxes.get(at as usize) {
        Some(found) => !matches!(found.kind, Kind::Replaced) && found.context,
        None => false,
    }
}

#[tactic(auto, unfolding(layout_semantics::specs::FlowBoxes::is_block_level_at))]
/// Whether a box is block-level (CSS 2.1, 9.2.1).
pub fn is_block_level(tree: &BoxTree, at: u32) -> bool
    ensures { result ≡ is_block_level_at tree.now at }
{
    match tree.boxes.get(at as usize) {
        Some(found) => found.block_level,
        None => false,
    }
}

/// Whether the style of a box's node floats.
fn has_float(tree: &BoxTree, found: &BoxNode) -> bool
    ensures { result ≡ option_map_or (λ (s : StyleOf). is_some s.float)
        (slice_get tree.now.styles found.now.node) false }
{
    match tree.styles.get(found.node as usize) {
        Some(style) => style.float.is_some(),
        None => false,
    }
}

/// Whether a box of the tree floats, replaced or not.
fn floats(tree: &BoxTree, found: &BoxNode) -> bool
    ensures { result ≡ floats_in tree.now.styles found.now }
{
    match found.kind {
        Kind::Float => true,
        Kind::Replaced => has_float(tree, found),
        _ => false,
    }
}

#[tactic(auto, unfolding(layout_semantics::specs::InlineContent::is_floated_at))]
/// Whether a box is a float (CSS 2.1, 9.5).
pub fn is_floated(tree: &BoxTree, at: u32) -> bool
    ensures { result ≡ is_floated_at tree.now at }
{
    match tree.boxes.get(at as usize) {
        Some(found) => floats(tree, found),
        None => false,
    }
}

/// Whether a box of the tree stands in a line, if it doesn't float.
fn stands_in_line(found: &BoxNode) -> bool
    ensures { result ≡ is_in_line found.now }
{
    match found.kind {
        Kind::Inline | Kind::Chars | Kind::Break | Kind::Atomic => true,
        Kind::Replaced => !found.block_level,
        _ => false,
    }
}

#[tactic(auto, unfolding(layout_semantics::specs::InlineContent::is_inline_level_at))]
/// Whether a box is inline-level (CSS 2.1, 9.2.2), and no float.
pub fn is_inline_level(tree: &BoxTree, at: u32) -> bool
    ensures { result ≡ is_inline_level_at tree.now at }
{
    match tree.boxes.get(at as usize) {
        Some(found) => stands_in_line(found) && !is_floated(tree, at),
        None => false,
    }
}
