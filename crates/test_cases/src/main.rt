//! Runs a table of outside cases of texts, style sheets and formulas: a case a line of standard input, as JSON, and its
//! answer a line of standard output.
#![tactic(auto)]

mod cascades;
mod formulas;
mod growths;
mod queries;
mod selectors;
mod sheets;
mod tokens;
mod truths;
mod values;

use serde_json::Value;
use test_scribe::{Fault, Scribe, Table, answered};
use viz_base::read_decimal;

/// The millionths of a number (CSS 2.1, 4.3.1), or null.
fn decimal(scribe: &mut Scribe, case: &Value) {
    match read_decimal(scribe.text_at(case, 1).as_bytes()) {
        Some(millionths) => scribe.number(millionths),
        None => scribe.null(),
    }
}

/// The answer to a case of what wins on a page, or of a formula.
fn answer_page(scribe: &mut Scribe, name: &str, case: &Value) {
    match name {
        "cascade" => cascades::answer(scribe, case),
        "cascade_pseudo" => cascades::answer_pseudo(scribe, case),
        "grow" => growths::answer(scribe, case),
        "formulas" => formulas::answer(scribe, case),
        "truths" => truths::answer(scribe, case),
        _ => scribe.fail(Fault::NoCase),
    }
}

/// The answer to a case of width queries, or of a page.
fn answer_query(scribe: &mut Scribe, name: &str, case: &Value) {
    match name {
        "features" => queries::tell_asked(scribe, case),
        "signs" => queries::tell_met(scribe, case),
        "parts" => queries::tell_split(scribe, case),
        "chosen" => queries::tell_chosen(scribe, case),
        "guard" => queries::tell_guarded(scribe, case),
        _ => answer_page(scribe, name, case),
    }
}

/// The cases of texts: numbers, style sheets and what stands in them, formulas.
struct Texts;

impl Table for Texts {
    fn answer(scribe: &mut Scribe, name: &str, case: &Value) {
        match name {
            "decimals" => decimal(scribe, case),
            "tokens" => tokens::answer(scribe, case),
            "sheets" => sheets::sheet(scribe, case),
            "declarations" => sheets::declarations(scribe, case),
            "selectors" => selectors::group(scribe, case),
            "matches" => selectors::matched(scribe, case),
            "values" => values::answer(scribe, case),
            _ => answer_query(scribe, name, case),
        }
    }
}

fn main(rt: HostRuntime) -> Result<(), Fault> {
    for line in rt.lines(rt.alloc()) {
        let text = answered::<Texts>(rt.alloc(), line)?;
        println!(rt; "{text}")?;
    }
    Ok(())
}
