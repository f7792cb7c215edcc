ghost use Rattle.std.specs.Prelude.{◌≡◌, ◌+◌, ◌<◌, ◌^◌, ◌++◌, ℕ, ℤ, length, ◌↔◌, IsTrue, IfOk, OnOk};
ghost use Rattle.viz_base.specs.Answers.{Gives};
ghost use Rattle.lin_proof.specs.Law.{Meets};
ghost use Rattle.lin_proof.specs.Derivations.{Refutes, check_branch, check_derivation, check_ending, first_fault, lines_in, lines_of, lines_under};
ghost use Rattle.lin_proof.specs.steps.Answers.{wrong_line};

use crate::derivation::{Branch, Derivation, Ending};
use crate::facts::Facts;
use crate::row::Row;
use crate::steps::{Fault, case_row, is_closed, run};
use std::alloc::Global;
use viz_base::{List, Mem};

/// Whether a derivation is right in each line and each case is closed, over facts whose variables
/// are below `vars`; then no values of the variables meet all facts.
pub fn refutes(alloc: Global, facts: &[Row], vars: u32, d: &Derivation) -> Result<bool, Mem>
    requires { length facts.now + lines_of d.now < 2 ^ 32 }
    ensures exact { IfOk result (λ yes. IsTrue yes ↔ Refutes facts.now vars d.now) }
    ensures sound { IfOk result (λ yes. IsTrue yes → (v : ℕ → ℤ) → Meets v facts.now → ⊥) }
{
    let fault = first_fault(alloc, facts, vars, d)?;
    Ok(fault.is_none())
}

/// The number of the first wrong line, from 0; none exactly where the derivation refutes the facts.
/// Each step, each end and each row of cases is a line.
pub fn first_fault(
    alloc: Global,
    facts: &[Row],
    vars: u32,
    d: &Derivation,
) -> Result<Option<u32>, Mem>
    requires { length facts.now + lines_of d.now < 2 ^ 32 }
    ensures { IfOk result (λ line. line ≡ first_fault facts.now vars d.now) }
{
    let facts = Facts {
        first: &[],
        later: facts,
    };
    first_fault_among(alloc, facts, vars, d)
}

/// The same over facts in two lists, neither of which is copied.
pub fn first_fault_among(
    alloc: Global,
    facts: Facts<'_>,
    vars: u32,
    d: &Derivation,
) -> Result<Option<u32>, Mem>
    requires { lines_of d.now < 2 ^ 32 }
    ensures { IfOk result (λ line. line
        ≡ first_fault (facts.entry.first.now ++ facts.entry.later.now) vars d.now) }
{
    let mut known = List::new(alloc);
    match check(alloc, facts, vars, d, &mut known, 0) {
        Ok(_) => Ok(None),
        Err(Fault::Line(line)) => Ok(Some(line)),
        Err(Fault::Mem) => Err(Mem),
    }
}

/// The number of the line behind the derivation, whose first is `line`, or that of the first wrong one.
#[cycle(check)]
fn check(
    alloc: Global,
    facts: Facts<'_>,
    vars: u32,
    d: &Derivation,
    known: &mut List<Row>,
    line: u32,
) -> Result<u32, Fault>
    requires { line + lines_of d.now < 2 ^ 32 }
    ensures gives { let facts = facts.entry.first.now ++ facts.entry.later.now in
        Gives (λ next. next) wrong_line result (check_derivation facts vars d.now known.old line) }
    ensures lines { IfOk result (λ next. next ≡ line + lines_of d.now) }
    ensures known { OnOk result (known.new ≡ known.old) }
{
    let count = known.len();
    let line = run(alloc, facts, known, line, d.steps.as_slice())?;
    let line = check_end(alloc, facts, vars, &d.last, known, line)?;
    known.truncate(count);
    Ok(line)
}

#[cycle(check)]
fn check_end(
    alloc: Global,
    facts: Facts<'_>,
    vars: u32,
    end: &Ending,
    known: &mut List<Row>,
    line: u32,
) -> Result<u32, Fault>
    requires { line + lines_in end.now < 2 ^ 32 }
    ensures gives { let facts = facts.entry.first.now ++ facts.entry.later.now in
        Gives (λ next. next) wrong_line result (check_ending facts vars end.now known.old line) }
    ensures lines { IfOk result (λ next. next ≡ line + lines_in end.now) }
    ensures known { OnOk result (known.new ≡ known.old) }
{
    match end {
        Ending::Closed if is_closed(known) => Ok(line + 1),
        Ending::Closed => Err(Fault::Line(line)),
        Ending::Cases(branch) => check_cases(alloc, facts, vars, branch.get(), known, line),
    }
}

#[cycle(check)]
fn check_cases(
    alloc: Global,
    facts: Facts<'_>,
    vars: u32,
    branch: &Branch,
    known: &mut List<Row>,
    line: u32,
) -> Result<u32, Fault>
    requires { line + lines_under branch.now < 2 ^ 32 }
    ensures gives { let facts = facts.entry.first.now ++ facts.entry.later.now in
        Gives (λ next. next) wrong_line result (check_branch facts vars branch.now known.old line) }
    ensures lines { IfOk result (λ next. next ≡ line + lines_under branch.now) }
    ensures known { OnOk result (known.new ≡ known.old) }
{
    let Some(other) = case_row(vars, &branch.row)? else {
        return Err(Fault::Line(line));
    };
    let count = known.len();
    known.push(branch.row.clone()?)?;
    let line = check(alloc, facts, vars, &branch.first, known, line + 1)?;
    known.truncate(count);
    known.push(other)?;
    let line = check(alloc, facts, vars, &branch.second, known, line)?;
    known.truncate(count);
    Ok(line)
}
