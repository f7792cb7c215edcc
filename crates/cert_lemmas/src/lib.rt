//! Shorter certificates: what several leaves derive alike is stated once above them, as a lemma. Nothing is claimed of
//! it but that it returns.
#![tactic(auto)]

mod entry;
mod lengths;
mod reach;
mod renaming;
mod survey;
mod texts;
mod writer;

pub use entry::with_lemmas;
