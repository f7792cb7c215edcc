ghost use Rattle.std.specs.Prelude.{◌≡◌, ◌+◌, ◌<◌, ◌^◌, ◌++◌, length, take, IfOk, OnOk};
ghost use Rattle.viz_base.specs.Answers.{Gives};
ghost use Rattle.lin_proof.specs.Form.{checked_form, denied};
ghost use Rattle.lin_proof.specs.Derivations.{add_part, are_declared, case_form, cut_of, is_contradiction, last_of, run_steps, step_form, sum_from, zero_form};
ghost use Rattle.lin_proof.specs.steps.Answers.{wrong_line};

use crate::derivation::Step;
use crate::facts::Facts;
use crate::pairs::{added, is_contradiction};
use crate::row::{Row, RowFault};
use std::alloc::{AllocError, Global};
use viz_base::{List, Mem};

/// Why a derivation is not right.
#[derive(Clone, Copy)]
pub enum Fault {
    /// Want of memory.
    Mem,
    /// This line is wrong, and none before it.
    Line(u32),
}

impl From<AllocError> for Fault {
    ghost use Rattle.std.specs.Prelude.{◌≡◌};
    ghost use Rattle.lin_proof.specs.declared.steps.Fault.TheVariants.{Mem};

    ghost from_gives = { λ _ fault. fault ≡ Mem };

    fn from(_: AllocError) -> Self {
        Fault::Mem
    }
}

impl From<Mem> for Fault {
    ghost use Rattle.std.specs.Prelude.{◌≡◌};
    ghost use Rattle.lin_proof.specs.declared.steps.Fault.TheVariants.{Mem};

    ghost from_gives = { λ _ fault. fault ≡ Mem };

    fn from(_: Mem) -> Self {
        Fault::Mem
    }
}

/// The row that is at least 0 where this one is below 0, if its numbers are in `i128`.
fn denied(row: &Row) -> Result<Option<Row>, Mem>
    ensures { IfOk result (λ other. other ≡ checked_form (denied row.now)) }
{
    match row.negate() {
        Ok(other) => Ok(Some(other)),
        Err(RowFault::Coeff) => Ok(None),
        Err(RowFault::Mem) => Err(Mem),
    }
}

/// A row plus a positive multiple of a known one.
fn add_part(known: &List<Row>, sum: &Row, part: (i128, u32)) -> Result<Option<Row>, Mem>
    ensures { IfOk result (λ row. row ≡ add_part known.now sum.now part) }
{
    let (times, number) = part;
    match known.get(number as usize) {
        Some(row) if times > 0 => added(sum, times, row),
        _ => Ok(None),
    }
}

/// Positive multiples of known rows, added one after another.
fn sum_row(alloc: Global, known: &List<Row>, parts: &[(i128, u32)]) -> Result<Option<Row>, Mem>
    ensures { IfOk result (λ row. row ≡ sum_from known.now zero_form parts.now) }
{
    let mut sum = Row::constant(alloc, 0);
    for part in parts {
        match add_part(known, &sum, *part)? {
            Some(next) => sum = next,
            None => return Ok(None),
        }
    }
    Ok(Some(sum))
}

/// A row divided by a number, if that divides it.
fn cut_row(row: &Row, divisor: i128) -> Result<Option<Row>, Mem>
    ensures { IfOk result (λ made. made ≡ cut_of divisor row.now) }
{
    if row.divides(divisor) {
        Ok(Some(row.cut(divisor)?))
    } else {
        Ok(None)
    }
}

/// The row that a step makes, if the step is right.
fn step_row(
    alloc: Global,
    facts: Facts<'_>,
    known: &List<Row>,
    step: &Step,
) -> Result<Option<Row>, Mem>
    ensures { IfOk result (λ row. row
        ≡ step_form (facts.entry.first.now ++ facts.entry.later.now) known.now step.now) }
{
    match step {
        Step::Fact(number) => match facts.get(*number) {
            Some(row) => Ok(Some(row.clone()?)),
            None => Ok(None),
        },
        Step::Sum(parts) => sum_row(alloc, known, parts.as_slice()),
        Step::Cut(divisor, number) => match known.get(*number as usize) {
            Some(row) => cut_row(row, *divisor),
            None => Ok(None),
        },
    }
}

/// Adds the rows of the steps to those known. Gives the next line's number, or that of the first wrong line.
pub fn run(
    alloc: Global,
    facts: Facts<'_>,
    known: &mut List<Row>,
    line: u32,
    steps: &[Step],
) -> Result<u32, Fault>
    requires { line + length steps.now < 2 ^ 32 }
    ensures gives { let facts = facts.entry.first.now ++ facts.entry.later.now in Gives
        (λ next. (known.new, next)) wrong_line result (run_steps facts known.old line steps.now) }
    ensures lines { IfOk result (λ next. next ≡ line + length steps.now) }
    ensures kept { OnOk result (take (length known.old) known.new ≡ known.old) }
{
    let mut line = line;
    for step in steps {
        let Some(row) = step_row(alloc, facts, known, step)? else {
            return Err(Fault::Line(line));
        };
        known.push(row)?;
        line += 1;
    }
    Ok(line)
}

/// The row that holds in the other case, if this row's variables are declared and both are in `i128`.
pub fn case_row(variables: u32, row: &Row) -> Result<Option<Row>, Mem>
    ensures { IfOk result (λ other. other ≡ case_form variables row.now) }
{
    if are_declared(row.terms.as_slice(), variables) {
        denied(row)
    } else {
        Ok(None)
    }
}

fn are_declared(terms: &[(u32, i128)], variables: u32) -> bool
    ensures { result ≡ are_declared variables terms.now }
{
    terms.iter().all(|term| term.0 < variables)
}

/// Whether the last row says that a number below 0 is at least 0.
pub fn is_closed(known: &List<Row>) -> bool
    ensures { result ≡ is_contradiction (last_of known.now) }
{
    match known.as_slice().last() {
        Some(row) => is_contradiction(row),
        None => false,
    }
}
