ghost use Rattle.std.specs.Prelude.{◌≡◌, ◌<◌, ◌≤ℤ◌, ◌↔◌, ◌^◌, ℕ, ℤ, pos, IsTrue, IfOk};
ghost use Rattle.lin_proof.specs.Form.{value};
ghost use Rattle.lin_proof.specs.Derivations.{first_fault, lines_of};
ghost use Rattle.lin_proof.specs.Entailments.{Entails, IsByDenial, with_denied};
ghost use Rattle.lin_proof.specs.Law.{Meets};

use crate::check::first_fault_among;
use crate::derivation::Derivation;
use crate::facts::Facts;
use crate::row::{Row, RowFault};
use std::alloc::Global;
use viz_base::Mem;

/// Whether a derivation refutes the facts followed by the row's denial, `-row - 1`; then all values of the variables
/// that meet the facts meet the row. `Coeff` exactly where a number of the denial is outside `i128`.
pub fn entails(
    alloc: Global,
    facts: &[Row],
    vars: u32,
    row: &Row,
    d: &Derivation,
) -> Result<bool, RowFault>
    requires { lines_of d.now < 2 ^ 32 }
    ensures exact { IfOk result (λ yes. IsTrue yes ↔ Entails facts.now vars row.now d.now) }
    ensures coeff { IsByDenial result row.now }
    ensures sound { IfOk result (λ yes. IsTrue yes → (v : ℕ → ℤ) → Meets v facts.now
        → pos 0 ≤ℤ value row.now v) }
{
    let fault = first_fault_of_entailment(alloc, facts, vars, row, d)?;
    Ok(fault.is_none())
}

/// The number of the first wrong line, from 0, over the facts followed by the row's denial; none exactly where the
/// derivation entails the row. The denial's number is the count of the facts, which are not copied.
/// `Coeff` exactly where a number of the denial is outside `i128`.
pub fn first_fault_of_entailment(
    alloc: Global,
    facts: &[Row],
    vars: u32,
    row: &Row,
    d: &Derivation,
) -> Result<Option<u32>, RowFault>
    requires { lines_of d.now < 2 ^ 32 }
    ensures gives { IfOk result (λ line. line
        ≡ first_fault (with_denied facts.now row.now) vars d.now) }
    ensures coeff { IsByDenial result row.now }
{
    let denied = row.negate()?;
    let facts = Facts {
        first: facts,
        later: std::slice::from_ref(&denied),
    };
    match first_fault_among(alloc, facts, vars, d) {
        Ok(line) => Ok(line),
        Err(Mem) => Err(RowFault::Mem),
    }
}
