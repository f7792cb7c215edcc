//! A run of the program: what its words ask for is replied to, over a shelf of files and a sink for its output.
#![tactic(auto)]

mod files;
pub mod run;
mod status;
mod words;

pub use status::{File, Status};
pub use words::{Command, number_of};
