//! A verifier of page layout: lays a page out box by box, proves or refutes its assertion over a range, and checks
//! certificates.
#![tactic(auto)]

use std::env;
use std::process::ExitCode;
use viz_base::Mem;
use viz_outside::{FileShelf, OutSink, words_of};
use viz_run::Status;
use viz_run::run::run;

/// Runs on the program's own words, files and output. Words that are no text are of no form.
fn main(rt: HostRuntime) -> ExitCode {
    let mut shelf = FileShelf::new(&rt);
    let mut sink = OutSink::new(&rt);
    let status = match words_of(rt.alloc(), env::args(&rt)) {
        Ok(words) => run(rt.alloc(), words.as_slice(), &mut shelf, &mut sink),
        Err(Mem) => Status::Memory,
    };
    ExitCode::from(status.code())
}
