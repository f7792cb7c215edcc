ghost use Rattle.std.specs.Prelude.{◌≡◌, ◌<ℤ◌, [], false, true, pos, Some, ℤ, IfOk, MatchOption};
ghost use Rattle.lin_proof.specs.Form.{IsCanonical, checked_form, plus};
ghost use Rattle.lin_proof.specs.Derivations.{is_contradiction, zero_form};
ghost use Rattle.lin_proof.specs.Pairs.{IsBest, IsFirst, closes, sum_of_two};

use crate::multiples::{Multiples, least_multiples};
use crate::row::{Row, RowFault};
use std::alloc::Global;
use viz_base::Mem;

/// Whether a row has no variable and is below 0.
pub fn is_contradiction(row: &Row) -> bool
    ensures { result ≡ is_contradiction (Some row.now) }
{
    row.terms.is_empty() && row.k < 0
}

/// A row plus a multiple of another, if its numbers are in `i128`.
pub fn added(sum: &Row, times: i128, row: &Row) -> Result<Option<Row>, Mem>
    ensures { IfOk result (λ next. next ≡ checked_form (plus sum.now times row.now)) }
{
    match sum.add_scaled(times, row) {
        Ok(next) => Ok(Some(next)),
        Err(RowFault::Coeff) => Ok(None),
        Err(RowFault::Mem) => Err(Mem),
    }
}

/// A multiple of a row, if its numbers are in `i128`.
pub fn multiple(alloc: Global, times: i128, row: &Row) -> Result<Option<Row>, Mem>
    ensures { IfOk result (λ next. next ≡ checked_form (plus zero_form times row.now)) }
{
    added(&Row::constant(alloc, 0), times, row)
}

/// The sum of positive multiples of two rows, if every number on the way is in `i128`.
fn sum_of_two(alloc: Global, f: &Row, g: &Row, multiples: Multiples) -> Result<Option<Row>, Mem>
    requires first { pos 0 <ℤ multiples.first }
    requires second { pos 0 <ℤ multiples.second }
    ensures { IfOk result (λ sum. sum ≡ sum_of_two f.now multiples.first g.now multiples.second) }
{
    match multiple(alloc, multiples.first, f)? {
        Some(sum) => added(&sum, multiples.second, g),
        None => Ok(None),
    }
}

/// The term of a row's lowest variable, if the row has variables.
fn first_term(row: &Row) -> Option<(u32, i128)>
    ensures first { MatchOption result (row.now.terms ≡ []) (IsFirst row.now.terms) }
    ensures canonical { IsCanonical row.now.terms }
{
    row.terms.as_slice().first().copied()
}

/// The least positive multiples of two rows, neither a contradiction, whose first terms cancel each other. None where
/// no sum of multiples is a contradiction.
fn best_multiples(f: &Row, g: &Row) -> Option<Multiples>
    requires first { is_contradiction (Some f.now) ≡ false }
    requires second { is_contradiction (Some g.now) ≡ false }
    ensures { MatchOption result ((a b : ℤ) → closes f.now g.now a b ≡ false) (IsBest f.now g.now) }
{
    let (left, right) = (first_term(f), first_term(g));
    let Some((variable, c)) = left else {
        return None;
    };
    let Some((other, e)) = right else {
        return None;
    };
    if variable == other {
        least_multiples(c, e)
    } else {
        None
    }
}

/// The multiples of two rows whose sum is a contradiction, where neither row is one itself.
pub fn closing(alloc: Global, f: &Row, g: &Row) -> Result<Option<Multiples>, Mem>
    requires first { is_contradiction (Some f.now) ≡ false }
    requires second { is_contradiction (Some g.now) ≡ false }
    ensures { IfOk result (λ found. MatchOption found
        ((a b : ℤ) → closes f.now g.now a b ≡ false)
        (λ m. closes f.now g.now m.first m.second ≡ true)) }
{
    let Some(multiples) = best_multiples(f, g) else {
        return Ok(None);
    };
    if is_closed_by(alloc, f, g, multiples)? {
        Ok(Some(multiples))
    } else {
        Ok(None)
    }
}

/// Whether the sum of positive multiples of two rows is a contradiction, every number on the way being in `i128`.
fn is_closed_by(alloc: Global, f: &Row, g: &Row, multiples: Multiples) -> Result<bool, Mem>
    requires first { pos 0 <ℤ multiples.first }
    requires second { pos 0 <ℤ multiples.second }
    ensures { IfOk result (λ yes. yes ≡ closes f.now g.now multiples.first multiples.second) }
{
    match sum_of_two(alloc, f, g, multiples)? {
        Some(sum) => Ok(is_contradiction(&sum)),
        None => Ok(false),
    }
}
