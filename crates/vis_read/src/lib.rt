//! Formulas of visual logic: their grammar over tokens with its laws, and reading them from text.
#![tactic(auto)]

mod acts;
mod faults;
mod laws;
mod lexemes;
mod pieces;
mod places;
mod read;
mod reading;
mod sets;
mod stacks;
mod steps;
mod terms;
mod tokens;
mod words;

pub use faults::FormulaFault;
pub use laws::{every_outcome, names_are_bound, one_answer, one_formula};
pub use lexemes::{Lexeme, Pair, Quantifier, Token, Unit};
pub use read::read_formula;
