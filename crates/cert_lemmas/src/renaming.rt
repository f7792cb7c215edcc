use lin_proof::{Branch, Derivation, Ending, Step};
use std::alloc::Global;
use viz_base::{Boxed, List, Mem};

/// How facts are numbered anew where lemmas stand among them.
#[derive(Clone, Copy)]
pub struct Renaming<'a> {
    /// The new numbers of the path's facts.
    pub facts: &'a [u32],
    /// By how much the facts behind them move.
    pub shift: u32,
    /// What is denied, and its new number, where that is another.
    pub denied: Option<(u32, u32)>,
}

impl Renaming<'_> {
    /// The new number of a fact.
    pub fn of_fact(self, number: u32) -> u32 {
        match self.denied {
            Some((denied, new)) if denied == number => new,
            _ => match self.facts.get(number as usize) {
                Some(new) => *new,
                None => number.saturating_add(self.shift),
            },
        }
    }
}

/// A copy of a derivation over facts that are numbered anew.
#[cycle(copies)]
pub fn copied(alloc: Global, why: &Derivation, names: Renaming<'_>) -> Result<Derivation, Mem> {
    Ok(Derivation {
        last: copied_ending(alloc, &why.last, names)?,
        steps: copied_steps(alloc, why.steps.as_slice(), names)?,
    })
}

#[cycle(copies)]
fn copied_ending(alloc: Global, end: &Ending, names: Renaming<'_>) -> Result<Ending, Mem> {
    match end {
        Ending::Closed => Ok(Ending::Closed),
        Ending::Cases(branch) => copied_cases(alloc, branch.get(), names),
    }
}

#[cycle(copies)]
fn copied_cases(alloc: Global, branch: &Branch, names: Renaming<'_>) -> Result<Ending, Mem> {
    let branch = Branch {
        row: branch.row.clone()?,
        first: copied(alloc, &branch.first, names)?,
        second: copied(alloc, &branch.second, names)?,
    };
    Ok(Ending::Cases(Boxed::new(alloc, branch)?))
}

fn copied_steps(alloc: Global, steps: &[Step], names: Renaming<'_>) -> Result<List<Step>, Mem> {
    let mut copies = List::new(alloc);
    for step in steps {
        copies.push(copied_step(alloc, step, names)?)?;
    }
    Ok(copies)
}

fn copied_step(alloc: Global, step: &Step, names: Renaming<'_>) -> Result<Step, Mem> {
    Ok(match step {
        Step::Fact(number) => Step::Fact(names.of_fact(*number)),
        Step::Sum(parts) => Step::Sum(List::from_slice(alloc, parts.as_slice())?),
        Step::Cut(divisor, number) => Step::Cut(*divisor, *number),
    })
}
