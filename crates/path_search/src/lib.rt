//! The search for a certificate of a job, or for a world at which its formula is false: the page is laid out over parts
//! of the range as a whole. Nothing is claimed of it but that it returns.
#![tactic(auto)]

mod heights;
mod premises;
mod rectangles;
mod runs;
mod sampling;
mod seeking;
mod slices;
mod tiling;

pub use seeking::{Finding, seek};
