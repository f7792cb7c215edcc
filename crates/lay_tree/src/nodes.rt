//! What the tree says of a node's font and line height (CSS 2.1, 10.8.1, 15).
ghost use Rattle.std.specs.Prelude.{◌≡◌, slice_get, option_and_then, option_map, IsTrue, IfSome};
ghost use Rattle.std.specs.Option.{option_map_or, option_copied};
ghost use Rattle.viz_base.specs.FontSizes.{parent_in};
ghost use Rattle.viz_base.specs.Styles.{is_good_size, is_good_line};
ghost use Rattle.viz_base.specs.declared.lengths.Size.TheVariants as of_size;
ghost use Rattle.viz_base.specs.declared.styles.Style.{Style as StyleOf};

use viz_base::{BoxTree, Font, LineHeight, Size};

/// How the font size of a node comes about; as the parent's, where there is no such node.
pub fn own_size(tree: &BoxTree, node: u32) -> Size
    ensures value { result ≡ option_map_or
        (λ (s : StyleOf). s.size) (slice_get tree.now.styles node) of_size.Same }
    ensures good { IsTrue (is_good_size result) }
{
    match tree.styles.get(node as usize) {
        Some(style) => style.size,
        None => Size::Same,
    }
}

/// The parent of a node, if it has one.
pub fn parent_node(tree: &BoxTree, node: u32) -> Option<u32>
    ensures { result ≡ parent_in tree.now.parents node }
{
    match tree.parents.get(node as usize) {
        Some(parent) => *parent,
        None => None,
    }
}

/// How the line height of a node comes about, if there is such a node.
pub fn own_line_height(tree: &BoxTree, node: u32) -> Option<LineHeight>
    ensures value { result ≡ option_map (λ (s : StyleOf). s.line) (slice_get tree.now.styles node) }
    ensures good { IfSome result (λ line. IsTrue (is_good_line line)) }
{
    match tree.styles.get(node as usize) {
        Some(style) => Some(style.line),
        None => None,
    }
}

/// The font of a node, if there is one.
pub fn font(tree: &BoxTree, node: u32) -> Option<&Font>
    ensures { option_copied result ≡ option_and_then
        (λ (s : StyleOf). slice_get tree.now.fonts s.font) (slice_get tree.now.styles node) }
{
    match tree.styles.get(node as usize) {
        Some(style) => tree.fonts.get(style.font as usize),
        None => None,
    }
}
