ghost use Rattle.std.specs.Prelude.{◌+◌, ◌<◌, ◌^◌, IsTrue, length};
ghost use Rattle.lin_proof.specs.Derivations.{lines_of};

use crate::rows::{row, row_at};
use lin_proof::{
    Branch, Derivation, Ending, Row, RowFault, Step, entails, first_fault,
    first_fault_of_entailment, line_count, refutes,
};
use serde_json::Value;
use test_scribe::{Fault, Scribe};
use viz_base::{Boxed, List};

/// The multiples of a sum, each a multiplier and a row's number.
fn multiples(scribe: &mut Scribe, value: &Value) -> List<(i128, u32)> {
    let mut multiples = List::new(scribe.alloc());
    for one in scribe.list_at(value, 1) {
        let times = scribe.wide_at(one, 0);
        let number = scribe.number_at(one, 1);
        scribe.put(&mut multiples, (times, number));
    }
    multiples
}

/// A step: its name, and what it takes.
fn step(scribe: &mut Scribe, value: &Value) -> Step {
    match scribe.text_at(value, 0) {
        "fact" => Step::Fact(scribe.number_at(value, 1)),
        "sum" => Step::Sum(multiples(scribe, value)),
        "cut" => Step::Cut(scribe.wide_at(value, 1), scribe.number_at(value, 2)),
        _ => {
            scribe.fail(Fault::NoCase);
            Step::Fact(0)
        }
    }
}

/// The steps of a part.
fn steps(scribe: &mut Scribe, part: &Value) -> List<Step> {
    let mut steps = List::new(scribe.alloc());
    for value in scribe.list_at(part, 0) {
        let step = step(scribe, value);
        scribe.put(&mut steps, step);
    }
    steps
}

/// The two cases of a row, which are the two latest derivations that were made.
fn cases(scribe: &mut Scribe, value: &Value, made: &mut Vec<Derivation>) -> Option<Boxed<Branch>> {
    let second = made.pop()?;
    let (first, second) = made.pop().zip(Some(second))?;
    let row = row(scribe, value);
    let cases = Boxed::new(scribe.alloc(), Branch { row, first, second });
    scribe.kept(cases)
}

/// The end of a part: none, or a row with its cases.
fn ending(scribe: &mut Scribe, part: &Value, made: &mut Vec<Derivation>) -> Ending {
    let value = scribe.at(part, 1);
    if value.is_null() {
        return Ending::Closed;
    }
    match cases(scribe, value, made) {
        Some(cases) => Ending::Cases(cases),
        None => {
            scribe.fail(Fault::NoCase);
            Ending::Closed
        }
    }
}

/// Makes a part, behind those that were made.
fn make(scribe: &mut Scribe, part: &Value, made: &mut Vec<Derivation>) {
    let last = ending(scribe, part, made);
    let steps = steps(scribe, part);
    scribe.push(made, Derivation { steps, last });
}

/// The derivation that the parts of a case make, a part before what it is a part of; each has its steps and its end.
fn derivation(scribe: &mut Scribe, case: &Value) -> Option<Derivation> {
    let mut made = Vec::new(scribe.alloc());
    for part in scribe.list_at(case, 3) {
        make(scribe, part, &mut made);
    }
    made.pop()
}

/// The facts of a case.
fn facts(scribe: &mut Scribe, case: &Value) -> List<Row> {
    let mut facts = List::new(scribe.alloc());
    for value in scribe.list_at(case, 1) {
        let fact = row(scribe, value);
        scribe.put(&mut facts, fact);
    }
    facts
}

/// The first wrong line, or null.
fn tell_fault<E: Into<Fault> + Drop>(scribe: &mut Scribe, fault: Result<Option<u32>, E>) {
    match scribe.kept(fault) {
        Some(Some(line)) => scribe.number(line),
        Some(None) | None => scribe.null(),
    }
}

/// Whether there are so few facts and lines that they can be numbered; else no case.
fn are_few(scribe: &mut Scribe, facts: &[Row], derivation: &Derivation) -> bool
    ensures { IsTrue result → length facts.now + lines_of derivation.now < 2 ^ 32 }
{
    let lines = line_count(derivation).unwrap_or(u32::MAX);
    if facts.len() > 65536 || lines > 65536 {
        scribe.fail(Fault::NoCase);
        return false;
    }
    true
}

/// What is said of a derivation over these facts and so many variables.
fn judge(scribe: &mut Scribe, facts: &[Row], vars: u32, derivation: &Derivation) {
    if !are_few(scribe, facts, derivation) {
        return;
    }
    let yes = refutes(scribe.alloc(), facts, vars, derivation);
    let fault = first_fault(scribe.alloc(), facts, vars, derivation);
    scribe.open();
    scribe.truth(yes == Ok(true));
    tell_fault(scribe, fault);
    scribe.close();
}

/// What is said of a row's derivation over these facts and so many variables.
fn judge_row(scribe: &mut Scribe, facts: &[Row], vars: u32, derivation: &Derivation, row: &Row) {
    if !are_few(scribe, facts, derivation) {
        return;
    }
    let yes = entails(scribe.alloc(), facts, vars, row, derivation);
    let fault = first_fault_of_entailment(scribe.alloc(), facts, vars, row, derivation);
    if fault == Err(RowFault::Coeff) {
        return scribe.word("Coeff");
    }
    scribe.open();
    scribe.truth(yes == Ok(true));
    tell_fault(scribe, fault);
    scribe.close();
}

/// Whether the derivation of a case refutes its facts, and its first wrong line, or null.
pub fn judged(scribe: &mut Scribe, case: &Value) {
    let vars = scribe.number_at(case, 2);
    let facts = facts(scribe, case);
    match derivation(scribe, case) {
        Some(derivation) => judge(scribe, facts.as_slice(), vars, &derivation),
        None => scribe.fail(Fault::NoCase),
    }
}

/// Whether the derivation of a case entails its row by its facts, and its first wrong line, or null; or that a number
/// is outside 128 bits.
pub fn entailed(scribe: &mut Scribe, case: &Value) {
    let vars = scribe.number_at(case, 2);
    let facts = facts(scribe, case);
    let row = row_at(scribe, case, 4);
    match derivation(scribe, case) {
        Some(derivation) => judge_row(scribe, facts.as_slice(), vars, &derivation, &row),
        None => scribe.fail(Fault::NoCase),
    }
}
