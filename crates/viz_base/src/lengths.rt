/// A computed length (CSS 2.1, 4.3.2).
#[derive(Clone, Copy, Debug)]
pub enum Length {
    /// `auto`.
    Auto,
    /// An absolute length, in units of 1/64 px.
    Px(i64),
    /// Millionths of the font size of a node.
    Em { k: i64, node: u32 },
    /// Millionths of a hundredth: `50%` is 50,000,000.
    Pct(i64),
}

/// A value for each side of a box.
#[derive(Clone, Copy)]
pub struct Sides<T> {
    pub top: T,
    pub right: T,
    pub bottom: T,
    pub left: T,
}

/// How a node's font size comes about (CSS 2.1, 15.7).
#[derive(Clone, Copy)]
pub enum Size {
    /// The parent's.
    Same,
    /// A fraction of the default font size.
    Default { num: i64, den: u64 },
    /// An absolute size, in units of 1/64 px.
    Px(i64),
    /// A fraction of the parent's.
    Parent { num: i64, den: u64 },
}

/// How a node's line height comes about (CSS 2.1, 10.8.1).
#[derive(Clone, Copy)]
pub enum LineHeight {
    /// A fraction of the node's own font size.
    Own { num: i64, den: u64 },
    /// An absolute height, in units of 1/64 px.
    Px(i64),
    /// A fraction of the font size of the node that declares it.
    OfNode { node: u32, num: i64, den: u64 },
}

/// How an inline-level box stands to its parent's baseline (CSS 2.1, 10.8.1).
#[derive(Clone, Copy, Debug)]
pub enum Valign {
    Baseline,
    Sub,
    Super,
    Middle,
    /// Raised by a length or by a percentage of the box's own line height.
    Raise(Length),
}
