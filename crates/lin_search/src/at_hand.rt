ghost use Rattle.std.specs.Prelude.{◌≡◌, ◌<◌, ◌^◌, ℕ, false, length, List as Seq, [], ◌∷◌, Some, IfOk, MatchOption};
ghost use Rattle.lin_proof.specs.Derivations.{Refutes, is_contradiction};
ghost use Rattle.lin_search.specs.Answers.{NoneAtHand};
ghost use Rattle.lin_proof.specs.Form.{Form};
ghost use Rattle.lin_search.specs.steps.Pairs.{HasPartner, IsAlone, IsPair, NoPartner, NoneAlone, NonePaired};

use lin_proof::{Derivation, Ending, Multiples, Row, Step, closing, is_contradiction};
use std::alloc::Global;
use viz_base::{List, Mem};

/// Two facts, by their numbers, and positive multiples of them whose sum is a contradiction.
#[derive(Clone, Copy)]
pub struct Pair {
    /// The first fact's number.
    pub first: u32,
    /// The second fact's number.
    pub second: u32,
    /// The multiples.
    pub multiples: Multiples,
}

/// A derivation from one fact or from two, where a contradiction is at hand.
pub fn refuted_at_hand(alloc: Global, facts: &[Row]) -> Result<Option<Derivation>, Mem>
    requires { length facts.now < 2 ^ 32 }
    ensures { IfOk result (λ found. MatchOption found (NoneAtHand facts.now)
        (λ d. (variables : ℕ) → Refutes facts.now variables d)) }
{
    if let Some(number) = contradiction(facts) {
        return Ok(Some(refuted_by_one(alloc, number)?));
    }
    match closing_pair(alloc, facts)? {
        Some(pair) => Ok(Some(refuted_by_two(alloc, pair)?)),
        None => Ok(None),
    }
}

/// The first fact that is a contradiction.
fn contradiction(facts: &[Row]) -> Option<u32>
    requires { length facts.now < 2 ^ 32 }
    ensures { MatchOption result (NoneAlone facts.now) (IsAlone facts.now) }
{
    for (at, fact) in facts.iter().enumerate() {
        if is_contradiction(fact) {
            return Some(at as u32);
        }
    }
    None
}

/// Two facts and multiples whose sum is a contradiction, where no fact is one itself.
fn closing_pair(alloc: Global, facts: &[Row]) -> Result<Option<Pair>, Mem>
    requires few { length facts.now < 2 ^ 32 }
    requires open { NoneAlone facts.now }
    ensures { IfOk result (λ pair. MatchOption pair (NonePaired facts.now) (IsPair facts.now)) }
{
    for (at, fact) in facts.iter().enumerate() {
        if let Some((second, multiples)) = partner(alloc, fact, facts)? {
            return Ok(Some(Pair {
                first: at as u32,
                second,
                multiples,
            }));
        }
    }
    Ok(None)
}

/// A fact, with multiples, that makes a contradiction together with this one.
fn partner(alloc: Global, fact: &Row, facts: &[Row]) -> Result<Option<(u32, Multiples)>, Mem>
    requires few { length facts.now < 2 ^ 32 }
    requires fact_open { is_contradiction (Some fact.now) ≡ false }
    requires open { NoneAlone facts.now }
    ensures { IfOk result (λ found. MatchOption found (NoPartner fact.now facts.now)
        (λ p. HasPartner fact.now facts.now p.0 p.1)) }
{
    for (at, other) in facts.iter().enumerate() {
        if let Some(multiples) = closing(alloc, fact, other)? {
            return Ok(Some((at as u32, multiples)));
        }
    }
    Ok(None)
}

/// The derivation from a fact that is a contradiction.
fn refuted_by_one(alloc: Global, number: u32) -> Result<Derivation, Mem>
    ensures { IfOk result (λ d. (facts : Seq Form) (variables : ℕ) → IsAlone facts number
        → Refutes facts variables d) }
{
    let mut steps = List::new(alloc);
    steps.push(Step::Fact(number))?;
    Ok(Derivation {
        steps,
        last: Ending::Closed,
    })
}

/// The derivation from two facts of which multiples have a contradiction as their sum.
fn refuted_by_two(alloc: Global, pair: Pair) -> Result<Derivation, Mem>
    ensures { IfOk result (λ d. (facts : Seq Form) (variables : ℕ) → IsPair facts pair
        → Refutes facts variables d) }
{
    let mut steps = List::new(alloc);
    steps.push(Step::Fact(pair.first))?;
    steps.push(Step::Fact(pair.second))?;
    steps.push(Step::Sum(parts_of(alloc, pair.multiples)?))?;
    Ok(Derivation {
        steps,
        last: Ending::Closed,
    })
}

/// The parts of a sum of the first two rows.
fn parts_of(alloc: Global, multiples: Multiples) -> Result<List<(i128, u32)>, Mem>
    ensures { IfOk result (λ parts. parts ≡ (multiples.first, 0) ∷ (multiples.second, 1) ∷ []) }
{
    let mut parts = List::new(alloc);
    parts.push((multiples.first, 0))?;
    parts.push((multiples.second, 1))?;
    Ok(parts)
}
