//! Truth of formulas on renderings, over any arithmetic, and blame of false ones.
#![tactic(auto)]

mod blames;
mod boxes;
pub mod engine;
mod names;
mod premises;
mod terms;
mod verdicts;

pub use blames::blame;
pub use names::Names;
pub use premises::conclusion;
pub use verdicts::{truth, truth_in};
