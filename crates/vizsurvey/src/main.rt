//! A survey of page layout: at which widths of the viewport each rule of a list holds, how much of a certificate still
//! stands after a change, and a certificate made of what stands.
#![tactic(auto)]

use std::env;
use std::process::ExitCode;
use viz_base::Mem;
use viz_outside::{FileShelf, OutSink, words_of};
use viz_survey_run::{SurveyStatus, survey};

/// Runs on the program's own words, files and output. Words that are no text are of no form.
fn main(rt: HostRuntime) -> ExitCode {
    let mut shelf = FileShelf::new(&rt);
    let mut sink = OutSink::new(&rt);
    let status = match words_of(rt.alloc(), env::args(&rt)) {
        Ok(words) => survey(rt.alloc(), words.as_slice(), &mut shelf, &mut sink),
        Err(Mem) => SurveyStatus::Memory,
    };
    ExitCode::from(status.code())
}
