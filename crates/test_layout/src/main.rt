//! Runs a table of outside cases of layout, rows and derivations: a case a line of standard input, as JSON, and its
//! answer a line of standard output.
#![tactic(auto)]

mod boxes;
mod derivations;
mod floats;
mod leads;
mod leaves;
mod lengths;
mod lines;
mod margins;
mod pieces;
mod rows;
mod styles;
mod trees;
mod widths;

use serde_json::Value;
use test_scribe::{Fault, Scribe, Table, answered};

/// The answer to a case of rows, of derivations or of a leaf, or of a box tree.
fn answer_row(scribe: &mut Scribe, name: &str, case: &Value) {
    match name {
        "add_scaled" => rows::add_scaled(scribe, case),
        "negate" => rows::negate(scribe, case),
        "divides" => rows::divides(scribe, case),
        "cut" => rows::cut(scribe, case),
        "derivation" => derivations::judged(scribe, case),
        "entails" => derivations::entailed(scribe, case),
        "leaf" => leaves::judged(scribe, case),
        "pieces" => pieces::told(scribe, case),
        _ => trees::answer(scribe, name, case),
    }
}

/// The cases of layout, rows and derivations.
struct Layouts;

impl Table for Layouts {
    fn answer(scribe: &mut Scribe, name: &str, case: &Value) {
        match name {
            "float_at" => floats::place(scribe, case),
            "floats" => floats::place_all(scribe, case),
            "band" => floats::band(scribe, case),
            "bottom" => floats::bottom(scribe, case),
            "collapsed" => margins::collapsed(scribe, case),
            "boxes" => boxes::answer(scribe, case),
            _ => answer_row(scribe, name, case),
        }
    }
}

fn main(rt: HostRuntime) -> Result<(), Fault> {
    for line in rt.lines(rt.alloc()) {
        let text = answered::<Layouts>(rt.alloc(), line)?;
        println!(rt; "{text}")?;
    }
    Ok(())
}
