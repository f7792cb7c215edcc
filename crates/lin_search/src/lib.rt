//! Search: why a list of facts, rows at least 0 over whole numbers, can't all hold, or numbers that meet them all.
#![tactic(auto)]

mod answer;
mod at_hand;
mod points;
mod refutation;

pub use answer::Search;
pub use refutation::refute;
