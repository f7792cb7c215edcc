ghost use Rattle.std.specs.Prelude.{◌≡◌, ◌≤◌, ◌*◌, ◌↔◌, IfOk, IsTrue};
ghost use Rattle.lin_proof.specs.Derivations.{Refutes};
ghost use Rattle.lin_search.specs.Answers.{IsRight};
ghost use Rattle.lin_search.specs.steps.Checked.{IsSound};

use crate::answer::Search;
use crate::at_hand::refuted_at_hand;
use crate::points::meets_all;
use lin_proof::{Derivation, Facts, Row, first_fault_among, line_count};
use lin_stages::{Proposal, propose};
use std::alloc::Global;
use viz_base::{List, Mem};

/// Looks for a derivation that refutes the facts, rows at least 0 over whole numbers, or for values of the variables
/// that meet them all, and gives up after about `limit` cases and combined pairs of rows.
pub fn refute(alloc: Global, facts: &[Row], variables: u32, limit: u64) -> Result<Search, Mem>
    ensures { IfOk result (IsRight facts.now variables limit) }
{
    let proposed = propose(alloc, facts, variables, limit)?;
    match checked(alloc, facts, variables, proposed)? {
        Search::GaveUp if reaches_pairs(facts.len(), limit) => {
            let found = refuted_at_hand(alloc, facts)?;
            match found {
                Some(derivation) => Ok(Search::Found(derivation)),
                None => Ok(Search::GaveUp),
            }
        }
        answer => Ok(answer),
    }
}

/// Whether a limit reaches the square of the number of facts.
fn reaches_pairs(count: usize, limit: u64) -> bool
    ensures { IsTrue result ↔ (count * count ≤ limit) }
{
    match (count as u64).checked_mul(count as u64) {
        Some(square) => square <= limit,
        None => false,
    }
}

/// What was proposed, if it is right; else that the search gave up.
fn checked(alloc: Global, facts: &[Row], variables: u32, proposed: Proposal) -> Result<Search, Mem>
    ensures { IfOk result (IsSound facts.now variables) }
{
    match proposed {
        Proposal::Found(derivation) => checked_derivation(alloc, facts, variables, derivation),
        Proposal::Point(values) => Ok(checked_point(facts, variables, values)),
        Proposal::GaveUp => Ok(Search::GaveUp),
    }
}

/// A derivation, if it refutes the facts.
fn checked_derivation(
    alloc: Global,
    facts: &[Row],
    variables: u32,
    derivation: Derivation,
) -> Result<Search, Mem>
    ensures { IfOk result (IsSound facts.now variables) }
{
    if is_refutation(alloc, facts, variables, &derivation)? {
        Ok(Search::Found(derivation))
    } else {
        Ok(Search::GaveUp)
    }
}

/// Values of the variables, if they are one for each and meet the facts.
fn checked_point(facts: &[Row], variables: u32, values: List<i128>) -> Search
    ensures { IsSound facts.now variables result }
{
    if values.len() == variables as usize && meets_all(facts, values.as_slice()) {
        Search::Point(values)
    } else {
        Search::GaveUp
    }
}

/// Whether a derivation refutes the facts. False also where its lines are too many to be counted.
fn is_refutation(
    alloc: Global,
    facts: &[Row],
    variables: u32,
    derivation: &Derivation,
) -> Result<bool, Mem>
    ensures { IfOk result (λ yes. IsTrue yes → Refutes facts.now variables derivation.now) }
{
    if line_count(derivation).is_none() {
        return Ok(false);
    }
    let facts = Facts {
        first: &[],
        later: facts,
    };
    let fault = first_fault_among(alloc, facts, variables, derivation)?;
    Ok(fault.is_none())
}
