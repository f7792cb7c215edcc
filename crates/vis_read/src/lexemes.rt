use viz_base::{Face, Ring, Set, Sign, Text};

/// `forall` or `exists`.
#[derive(Clone, Copy)]
pub enum Quantifier {
    Forall,
    Exists,
}

/// What is said of two names: `overlap` or `same`.
#[derive(Clone, Copy)]
pub enum Pair {
    Overlap,
    Same,
}

/// What a number counts.
#[derive(Clone, Copy)]
pub enum Unit {
    /// Units of 1/64 px, or edges.
    One,
    /// Pixels.
    Px,
}

/// What a token is in the grammar of formulas.
#[derive(Drop)]
pub enum Lexeme {
    Quantifier(Quantifier),
    In,
    Implies,
    Or,
    And,
    Not,
    /// `true` or `false`.
    Truth(bool),
    Pair(Pair),
    /// A kind of boxes, `box`, or a string with the nodes that its selectors match.
    Members(Set),
    View,
    Width,
    Height,
    Ring(Ring),
    Face(Face),
    /// A word that has no meaning in the grammar.
    Name(Text),
    Number(u32, Unit),
    Sign(Sign),
    Open,
    Close,
    Comma,
    Colon,
    Dot,
    Plus,
    Minus,
    Star,
    /// A string that is no group of selectors, or what begins no token.
    Unknown,
}

/// A token, with the place of its first byte in the text.
#[derive(Drop)]
pub struct Token {
    pub lexeme: Lexeme,
    pub at: u32,
}
