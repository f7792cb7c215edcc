use crate::lexemes::{Pair, Quantifier};
use crate::stacks::Stack;
use viz_base::{Formula, List, Ring, Set, Sign, Summand, Term, Text};

/// What stood around the inside of a parenthesis.
#[derive(Drop)]
pub struct Outside {
    pub level: u32,
    pub nested: u32,
    pub nots: u32,
    pub disjunct: Option<Formula>,
    pub conjunct: Option<Formula>,
}

/// What stands inside of which parentheses, and what is read of that.
#[derive(Drop)]
pub struct Closed {
    /// None where no parenthesis is open.
    pub parens: Option<Outside>,
    pub frames: Stack<Frame>,
    pub names: Stack<Text>,
    pub value: Formula,
}

/// What a formula that is being read belongs to.
#[derive(Drop)]
pub enum Frame {
    /// It is the body of a quantifier, over a set.
    Quantified(Quantifier, Set),
    /// It is the right side of an `implies` with this left side.
    Implied(Formula),
    /// It stands in parentheses.
    Parens(Outside),
}

/// The left side of a comparison.
#[derive(Drop)]
pub struct Compared {
    pub left: Term,
    pub sign: Sign,
}

/// What is read of a term, and of the comparison that it is in.
#[derive(Drop)]
pub struct Sum {
    /// Nothing on the left side.
    pub compared: Option<Compared>,
    pub parts: List<Summand>,
    /// Whether a minus stands before the next part.
    pub minus: bool,
}

/// How far an edge is read.
#[derive(Clone, Copy)]
pub enum Spot {
    /// Behind a name.
    Name(u32),
    /// Behind a name and its `.`.
    NameDot(u32),
    /// Behind a name and a rectangle.
    Ring(u32, Ring),
    /// Behind these and a `.`.
    RingDot(u32, Ring),
    /// Behind `view`.
    View,
    /// Behind `view.`.
    ViewDot,
}

/// Where in a formula reading stands.
#[derive(Drop)]
pub enum Place {
    /// Before a formula.
    Start,
    /// Before a part of a formula that may have `not` before it and no quantifier.
    Operand,
    /// Behind a conjunction.
    Behind(Formula),
    /// Behind a quantifier.
    Quantifier(Quantifier),
    /// Behind its name.
    Binder(Quantifier, Text),
    /// Behind `in`.
    Domain(Quantifier, Text),
    /// Behind its set.
    Ranged(Quantifier, Text, Set),
    /// Behind `overlap` or `same`.
    Pair(Pair),
    /// Behind its parenthesis.
    First(Pair),
    /// Behind its first name.
    Comma(Pair, u32),
    /// Behind its comma.
    Second(Pair, u32),
    /// Behind its second name.
    Last(Pair, u32, u32),
    /// Before a term.
    Side(Sum),
    /// Before a part of a term, behind its sign.
    Part(Sum),
    /// Behind a number of units before which no `*` stands.
    Number(Sum, u32),
    /// Behind a factor and its `*`.
    Factor(Sum, u32),
    /// In an edge with a factor.
    Edge(Sum, u32, Spot),
    /// Behind a part of a term.
    Added(Sum),
}

/// What is read of a formula.
#[derive(Drop)]
pub struct Reading {
    /// What the formula that is being read belongs to, the innermost first.
    pub frames: Stack<Frame>,
    /// The names that are bound, the innermost first.
    pub names: Stack<Text>,
    /// How many quantifiers, parentheses and `not`s are around that formula.
    pub level: u32,
    /// How many are around its next part.
    pub nested: u32,
    /// How many `not`s stand directly before that.
    pub nots: u32,
    /// The disjunction that the conjunction which is being read belongs to.
    pub disjunct: Option<Formula>,
    /// The conjunction that the next part belongs to.
    pub conjunct: Option<Formula>,
    pub place: Place,
}

/// What is read of a formula, but for the place.
#[derive(Drop)]
pub struct Held {
    pub frames: Stack<Frame>,
    pub names: Stack<Text>,
    pub level: u32,
    pub nested: u32,
    pub nots: u32,
    pub disjunct: Option<Formula>,
    pub conjunct: Option<Formula>,
}
