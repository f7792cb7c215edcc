//! Searches for a certificate of a job, or for a world at which its formula is false.
#![tactic(auto)]

mod entry;
mod gates;
mod outcome;
mod plain;

pub use entry::{prove, prove_within};
pub use gates::is_proof;
pub use outcome::Outcome;
