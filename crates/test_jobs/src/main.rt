//! Runs a table of outside cases of whole jobs: a case a line of standard input, as JSON, and what is replied to it a
//! line of standard output.
#![tactic(auto)]

mod members;
mod replies;
mod runs;

use serde_json::Value;
use std::alloc::Global;
use test_scribe::Fault;

/// The answer to a case: an array of the call's name and what it is called with.
fn answer(alloc: Global, line: &str) -> Result<String, Fault> {
    let case = Value::from_str(alloc, line)?;
    match members::text_at(&case, 0)? {
        name @ ("run" | "survey" | "ending") => runs::answer(alloc, name, &case),
        "finding" => replies::finding(alloc, &case),
        _ => replies::answer(alloc, &case),
    }
}

fn main(rt: HostRuntime) -> Result<(), Fault> {
    for line in rt.lines(rt.alloc()) {
        let text = answer(rt.alloc(), line?.as_str())?;
        println!(rt; "{text}")?;
    }
    Ok(())
}
