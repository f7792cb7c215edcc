ghost use Rattle.std.specs.Prelude.{◌≡◌};
ghost use Rattle.std.specs.Option.{option_copied};
ghost use Rattle.logic_semantics.specs.Scenes.{is_of_element, is_member, is_member_at, named};
ghost use Rattle.logic_semantics.specs.Terms.{ring_of, face_of};
ghost use Rattle.vis_truth.specs.Names.{places_of};
ghost use Rattle.std.specs.List.{list_any};
ghost use Rattle.std.specs.Prelude.{◌==◌};

use crate::names::Names;
use viz_base::{Face, Kind, List, Placed, Quad, Rendering, Ring, Set};

/// Whether boxes of this kind are those of elements.
fn is_of_element(kind: Kind) -> bool
    ensures { result ≡ is_of_element kind }
{
    matches!(
        kind,
        Kind::Block | Kind::Float | Kind::Atomic | Kind::Replaced | Kind::Inline
    )
}

/// Whether a node is listed.
fn is_listed(nodes: &List<u32>, node: u32) -> bool
    ensures { result ≡ list_any (λ n. n == node) nodes.now }
{
    nodes.iter().any(|n| *n == node)
}

/// Whether a box of this kind that comes from this node is a member of the set.
fn is_member(set: &Set, kind: Kind, node: u32) -> bool
    ensures { result ≡ is_member set.now kind node }
{
    match set {
        Set::Of(wanted) => kind == *wanted,
        Set::Every => true,
        Set::Nodes(nodes) => is_of_element(kind) && is_listed(nodes, node),
    }
}

/// Whether the box at a place is a member of the set.
pub fn is_member_at<N>(set: &Set, r: &Rendering<N>, place: usize) -> bool
    ensures { result ≡ is_member_at set.now r.now.boxes place }
{
    match r.boxes.get(place) {
        Some(b) => is_member(set, b.kind, b.node),
        None => false,
    }
}

/// The box that a name stands for.
pub fn find<'a, N>(r: &'a Rendering<N>, names: &Names<'_>, name: u32) -> Option<&'a Placed<N>>
    ensures { option_copied result ≡ named r.now.boxes (places_of names.now) name }
{
    match names.place(name) {
        Some(place) => r.boxes.get(place),
        None => None,
    }
}

/// One of a box's rectangles.
pub fn ring_of<N>(b: &Placed<N>, ring: Ring) -> &Quad<N>
    ensures { result.now ≡ ring_of ring b.now }
{
    match ring {
        Ring::Margin => &b.margin,
        Ring::Border => &b.border,
        Ring::Padding => &b.padding,
        Ring::Content => &b.content,
    }
}

/// One of a rectangle's edges.
pub fn face_of<N>(quad: &Quad<N>, face: Face) -> &N
    ensures { result.now ≡ face_of face quad.now }
{
    match face {
        Face::Left => &quad.left,
        Face::Top => &quad.top,
        Face::Right => &quad.right,
        Face::Bottom => &quad.bottom,
    }
}
