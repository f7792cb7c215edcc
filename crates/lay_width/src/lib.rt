//! The used widths and horizontal margins of boxes, over any arithmetic.
#![tactic(auto)]

pub mod clamping;
pub mod engine;
mod front;
pub mod heights;
pub mod limits;
pub mod replaced;
pub mod terms;

pub use front::widths;
