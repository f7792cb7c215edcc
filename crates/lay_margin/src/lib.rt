//! Margins that adjoin and collapse, over any arithmetic (CSS 2.1, 8.3.1).
#![tactic(auto)]

pub mod engine;
mod front;
pub mod leads;
mod runs;

pub use front::lead;
pub use runs::Run;
