use crate::{Boxed, Kind, List};

/// A formula of visual logic. A name is the number of quantifiers between it and its own.
#[derive(Drop, PartialEq, Eq)]
pub enum Formula {
    Const(bool),
    /// Each member of the set, in place of the innermost name, makes the formula true.
    Forall(Set, Boxed<Formula>),
    /// Some member does.
    Exists(Set, Boxed<Formula>),
    Implies(Boxed<Formula>, Boxed<Formula>),
    Or(Boxed<Formula>, Boxed<Formula>),
    And(Boxed<Formula>, Boxed<Formula>),
    Not(Boxed<Formula>),
    Cmp(Term, Sign, Term),
    /// Each of the border rectangles of two members begins before the other ends, from left to right and from
    /// top to bottom.
    Overlap(u32, u32),
    /// Two names stand for one member of the rendering.
    Same(u32, u32),
}

/// A set of boxes of a rendering.
#[derive(Drop, PartialEq, Eq)]
pub enum Set {
    /// Those of a kind.
    Of(Kind),
    /// All of them.
    Every,
    /// The boxes of elements among these nodes, which ascend.
    Nodes(List<u32>),
}

/// A comparison.
#[derive(Clone, Copy, PartialEq, Eq)]
pub enum Sign {
    Lt,
    Le,
    Eq,
    Ne,
    Ge,
    Gt,
}

/// A sum, in units of 1/64 px.
#[derive(Drop, PartialEq, Eq)]
pub struct Term {
    pub parts: List<Summand>,
}

/// A multiple of an edge.
#[derive(Clone, Copy, PartialEq, Eq)]
pub struct Summand {
    pub times: i64,
    pub edge: Edge,
}

/// What a term may name.
#[derive(Clone, Copy, PartialEq, Eq)]
pub enum Edge {
    /// One unit.
    One,
    /// An edge of a rectangle of the member that the name stands for.
    Name(u32, Ring, Face),
    /// The viewport's width.
    ViewWidth,
    /// The viewport's height.
    ViewHeight,
    /// The default font size, which no formula's text names: width queries in `em` are guarded by it.
    ViewSize,
}

/// One of a box's rectangles (CSS 2.1, 8.1).
#[derive(Clone, Copy, PartialEq, Eq)]
pub enum Ring {
    Margin,
    Border,
    Padding,
    Content,
}

/// One of a rectangle's edges.
#[derive(Clone, Copy, PartialEq, Eq)]
pub enum Face {
    Left,
    Top,
    Right,
    Bottom,
}
