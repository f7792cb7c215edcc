use crate::row::Row;
use viz_base::{Boxed, List};

/// A row made of facts and of earlier rows. Facts are named by their places in the list of facts,
/// earlier rows by the order in which they came to be known, both from 0.
#[derive(Drop)]
pub enum Step {
    /// A fact.
    Fact(u32),
    /// The sum of multiples of earlier rows, each a multiplier above 0 and a row's number.
    Sum(List<(i128, u32)>),
    /// An earlier row divided by a number that divides its coefficients, the constant rounded down.
    Cut(i128, u32),
}

/// Rows one after another, and then an end.
#[cycle(derivation)]
#[derive(Drop)]
pub struct Derivation {
    /// The rows.
    pub steps: List<Step>,
    /// What they come to.
    pub last: Ending,
}

/// How a derivation ends.
#[cycle(derivation)]
#[derive(Drop)]
pub enum Ending {
    /// The last row says that a number below 0 is at least 0.
    Closed,
    /// Both cases of a row lead to such a row.
    Cases(Boxed<Branch>),
}

/// Both cases of a row: it is at least 0 in the first derivation, and below 0 in the second.
#[cycle(derivation)]
#[derive(Drop)]
pub struct Branch {
    /// The row.
    pub row: Row,
    /// Why it is not at least 0.
    pub first: Derivation,
    /// Why it is not below 0.
    pub second: Derivation,
}

/// What a comparison of two numbers comes to: whether the row, their difference, is at least 0.
#[derive(Drop)]
pub struct Answer {
    /// Whether it is.
    pub yes: bool,
    /// The difference.
    pub row: Row,
    /// Why the contrary, joined to the facts, is met by no values of the variables.
    pub why: Derivation,
}
