//! A run of the program of surveys: what its words ask for is replied to, over a shelf of files and a sink.
#![tactic(auto)]

mod files;
mod replies;
mod status;
mod surveys;
mod words;

pub use status::{SurveyAnswer, SurveyStatus};
pub use surveys::survey;
pub use words::{Command, Request};
