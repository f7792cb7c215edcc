//! The stages of a search among facts: derivations and points are proposed here, and judged by `lin_search`.
#![tactic(auto)]

mod cases;
mod outline;
mod pairing;
mod proposal;
mod ranges;
mod sources;
mod sums;
mod tries;
mod writing;

pub use proposal::Proposal;
pub use tries::propose;
