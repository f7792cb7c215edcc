use crate::{List, Placed};

/// The outer size of a box, in units of 1/64 px.
#[derive(Clone, Copy)]
pub struct Extent<N> {
    pub width: N,
    pub height: N,
}

/// The stretch between two vertical edges, in units of 1/64 px.
#[derive(Clone, Copy)]
pub struct Band<N> {
    pub left: N,
    pub right: N,
}

/// The place of a box's upper left corner, in units of 1/64 px.
#[derive(Clone, Copy)]
pub struct Spot<N> {
    pub x: N,
    pub y: N,
}

/// The used horizontal terms of a box, in units of 1/64 px (CSS 2.1, 10.3.3).
#[derive(Clone, Copy)]
pub struct Widths<N> {
    pub margin_left: N,
    pub border_left: N,
    pub padding_left: N,
    pub content: N,
    pub padding_right: N,
    pub border_right: N,
    pub margin_right: N,
}

/// The preferred widths of a box, in units of 1/64 px (CSS 2.1, 10.3.5).
#[derive(Clone, Copy)]
pub struct Preferred<N> {
    /// The preferred minimum width.
    pub least: N,
    /// The preferred width.
    pub most: N,
}

/// The outer size of a float or of an atomic inline-level box, in units of 1/64 px.
#[derive(Clone, Copy)]
pub struct Inner<N> {
    /// The place of the box in its tree.
    pub b: u32,
    pub width: N,
    /// From its outer top to its baseline; the height of a float.
    pub above: N,
    /// From its baseline to its outer bottom; 0 of a float.
    pub below: N,
}

/// What a block container's lines add to the rendering (CSS 2.1, 9.4.2).
#[derive(Clone, Copy)]
pub enum Entry<N> {
    /// A line, or the piece of an inline box or of a text on one.
    Here(Placed<N>),
    /// The float or atomic inline-level box at this place of the tree, with its content, its outer corner moved to this
    /// spot.
    Goes(u32, Spot<N>),
}

/// The lines of a block container, in units of 1/64 px (CSS 2.1, 9.4.2).
#[derive(Drop)]
pub struct Lines<N> {
    /// Each line, then what is on it in document order; floats where no line exists too.
    pub entries: List<Entry<N>>,
    /// The bottom of the last line.
    pub bottom: N,
    /// The baseline of the last line.
    pub baseline: Option<N>,
}

/// Where the margins that adjoin a box's top end (CSS 2.1, 8.3.1).
#[derive(Clone, Copy, PartialEq, Eq)]
pub enum LeadEnd {
    /// The box's own bottom margin adjoins them.
    Through,
    /// At the content, the border or the padding of this box.
    Solid(u32),
    /// At this box, which has `clear`.
    Cleared(u32),
}

/// A float between margins that adjoin (CSS 2.1, 8.3.1, 9.5).
#[derive(Clone, Copy)]
pub struct Waiting<N> {
    /// The place of the float in its tree.
    pub at: u32,
    /// Its containing block.
    pub cb: Band<N>,
}

/// The margins that adjoin a box's top, with the floats between them (CSS 2.1, 8.3.1).
#[derive(Drop)]
pub struct Lead<N> {
    pub end: LeadEnd,
    /// The containing block of the box at which they end.
    pub cb: Band<N>,
    /// The floats in document order.
    pub waiting: List<Waiting<N>>,
}
