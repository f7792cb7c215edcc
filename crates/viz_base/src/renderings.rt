use crate::{Kind, List};

/// The edges of a rectangle, in units of 1/64 px from the viewport's top left corner.
#[derive(Clone, Copy)]
pub struct Quad<N> {
    pub left: N,
    pub top: N,
    pub right: N,
    pub bottom: N,
}

/// A box with its four rectangles (CSS 2.1, 8.1).
#[derive(Clone, Copy)]
pub struct Placed<N> {
    pub kind: Kind,
    /// The node that it comes from, or the nearest element around it.
    pub node: u32,
    pub margin: Quad<N>,
    pub border: Quad<N>,
    pub padding: Quad<N>,
    pub content: Quad<N>,
}

/// The boxes of a page after layout, in document order, a container before its content.
#[derive(Drop)]
pub struct Rendering<N> {
    pub boxes: List<Placed<N>>,
}
