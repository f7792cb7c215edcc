//! The styles of the tree (CSS 2.1, 9.7 and 11.1.1).
ghost use Rattle.std.specs.Prelude.{◌≡◌, ◌<◌, ◌^◌, length, IfOk, codes};
ghost use Rattle.viz_base.specs.Pages.{has_tag};
ghost use Rattle.layout_semantics.specs.BoxTrees.{clips_at, first_body, styled_element, tree_style, tree_styles, viewport_clip};
ghost use Rattle.layout_semantics.specs.Elements.{node_passes};
ghost use Rattle.layout_semantics.specs.WhiteSpace.{is_in};
ghost use Rattle.layout_laws.specs.Viewport.{is_body};

use std::alloc::{AllocError, Global};
use viz_base::{Body, List, Node, Page, Style, has_tag};

/// The element whose style a node has: a text has its parent's.
fn styled_element(at: u32, node: &Node) -> u32
    ensures { result ≡ styled_element at node.now }
{
    match &node.body {
        Body::Element(_) => at,
        Body::Chars(_) => node.parent.unwrap_or(at),
    }
}

/// Whether the second node is there and the first.
fn is_at(node: u32, place: Option<u32>) -> bool
    ensures { result ≡ is_in node place }
{
    match place {
        Some(place) => place == node,
        None => false,
    }
}

/// Whether a node is a `body` in the root.
fn is_body(node: &Node) -> bool
    ensures { result ≡ is_body node.now }
{
    is_at(0, node.parent) && has_tag(&node.body, "body")
}

/// The first `body` in the root.
fn first_body(nodes: &[Node]) -> Option<u32>
    requires { length nodes.now < 2 ^ 32 }
    ensures { result ≡ first_body nodes.now }
{
    for (at, node) in nodes.iter().enumerate() {
        if is_body(node) {
            return Some(at as u32);
        }
    }
    None
}

fn clips_at(styles: &[Style], at: usize) -> bool
    ensures { result ≡ clips_at styles.now at }
{
    match styles.get(at) {
        Some(style) => style.clips,
        None => false,
    }
}

fn is_html(nodes: &[Node]) -> bool
    ensures { result ≡ node_passes (has_tag (codes "html")) nodes.now 0 }
{
    match nodes.first() {
        Some(root) => has_tag(&root.body, "html"),
        None => false,
    }
}

/// The element whose overflow goes to the viewport: the first `body` of an `html` whose own overflow is visible (CSS
/// 2.1, 11.1.1).
fn viewport_clip(nodes: &[Node], styles: &[Style]) -> Option<u32>
    requires { length nodes.now < 2 ^ 32 }
    ensures { result ≡ viewport_clip nodes.now styles.now }
{
    if is_html(nodes) && !clips_at(styles, 0) {
        first_body(nodes)
    } else {
        None
    }
}

/// A style as the tree has it: the root does not float, and overflow that goes to the viewport is used there alone.
fn tree_style(is_root: bool, gives_clip: bool, style: &Style) -> Style
    ensures { result ≡ tree_style is_root gives_clip style.now }
{
    Style {
        display: style.display,
        float: if is_root { None } else { style.float },
        clear: style.clear,
        clips: !gives_clip && style.clips,
        width: style.width,
        min_width: style.min_width,
        max_width: style.max_width,
        height: style.height,
        min_height: style.min_height,
        max_height: style.max_height,
        margin: style.margin,
        padding: style.padding,
        border: style.border,
        size: style.size,
        font: style.font,
        line: style.line,
        valign: style.valign,
        align: style.align,
        wraps: style.wraps,
    }
}

/// The styles of the tree.
pub fn tree_styles(
    alloc: Global,
    page: &Page,
    styles: &List<Style>,
) -> Result<List<Style>, AllocError>
    requires few { length page.now.nodes < 2 ^ 32 }
    requires styled { length styles.now ≡ length page.now.nodes }
    ensures { IfOk result (λ used. used ≡ tree_styles page.now.nodes styles.now) }
{
    let nodes = page.nodes.as_slice();
    let styles = styles.as_slice();
    let clip = viewport_clip(nodes, styles);
    let mut used = List::new(alloc);
    for at in 0..nodes.len() {
        let element = styled_element(at as u32, &nodes[at]);
        used.push(tree_style(element == 0, is_at(element, clip), &styles[at]))?;
    }
    Ok(used)
}
