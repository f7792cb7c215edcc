use crate::cases::{Cases, Outcome, by_cases, closed};
use crate::outline::Outline;
use crate::proposal::Proposal;
use crate::sources::{Source, View};
use crate::sums::Sums;
use lin_proof::{Derivation, Row};
use std::alloc::{AllocError, Global};
use viz_base::{List, Mem};

/// How deep cases go: each halves a range.
const DEPTH: u32 = 64;

/// What elimination, pairs and cases come to, the last fact being the one that is to be refuted.
pub fn propose(alloc: Global, facts: &[Row], variables: u32, limit: u64) -> Result<Proposal, Mem> {
    let outline = Outline::read(alloc, facts)?;
    match quickly(alloc, &outline)? {
        Some(derivation) => Ok(Proposal::Found(derivation)),
        None => slowly(alloc, &outline, variables, limit),
    }
}

/// A derivation by elimination from the last fact, or from it and one split.
fn quickly(alloc: Global, outline: &Outline<'_>) -> Result<Option<Derivation>, Mem> {
    let view = View {
        facts: outline.facts,
        known: &[],
        variables: &outline.variables,
        bounds: &outline.bounds,
        ranges: &[],
    };
    let mut sums = Sums::new(alloc, view);
    let end = quick_end(&mut sums, outline);
    match sums.steps_to(end)? {
        Some(steps) => Ok(Some(closed(steps))),
        None => Ok(None),
    }
}

/// A contradiction from the last fact, or from it and one split.
fn quick_end(sums: &mut Sums<'_>, outline: &Outline<'_>) -> Option<Source> {
    let last = sums.view.last_fact()?;
    match sums.closed_by(last) {
        Some(end) => Some(end),
        None => sums.paired(last, &outline.splits, outline.base),
    }
}

/// What cases come to.
fn slowly(
    alloc: Global,
    outline: &Outline<'_>,
    variables: u32,
    limit: u64,
) -> Result<Proposal, Mem> {
    let mut cases = Cases::new(alloc, outline, limit)?;
    match by_cases(&mut cases, DEPTH) {
        _ if cases.is_out_of_memory => Err(Mem),
        Outcome::Closed => Ok(found(cases.found.pop())),
        Outcome::Met => {
            let values = spread(alloc, &outline.variables, &cases.point, variables)?;
            Ok(Proposal::Point(values))
        }
        Outcome::Stuck => Ok(Proposal::GaveUp),
    }
}

fn found(derivation: Option<Derivation>) -> Proposal {
    match derivation {
        Some(derivation) => Proposal::Found(derivation),
        None => Proposal::GaveUp,
    }
}

/// A value for each variable: those found at the places of some, 0 for the others.
fn spread(
    alloc: Global,
    places: &[u32],
    values: &[i128],
    variables: u32,
) -> Result<List<i128>, AllocError> {
    let mut all = vec![in alloc; 0; variables as usize]?;
    set_all(&mut all, places, values);
    Ok(List::from(all))
}

fn set_all(all: &mut [i128], places: &[u32], values: &[i128]) {
    for (variable, value) in places.iter().zip(values) {
        if let Some(here) = all.get_mut(*variable as usize) {
            *here = *value;
        }
    }
}
