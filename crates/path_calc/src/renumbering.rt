//! Copies of an answer and its derivation, with facts and variables numbered as they are where it stands again.
use crate::cones::plus;
use crate::trail::{Found, Spot};
use lin_proof::{Answer, Branch, Derivation, Ending, Row, RowFault, Step};
use std::alloc::Global;
use viz_base::{Boxed, List, Mem};

/// How the facts and variables of an answer are numbered anew where it stands. Those of the path where it was found
/// keep their numbers; behind them stand the two facts of each floor of a cone, and then the contrary of the answer.
#[derive(Drop)]
pub struct Numbering<'a> {
    /// The answer.
    pub found: &'a Found,
    /// The floors here, by their ranks.
    pub spots: &'a [Spot],
    /// The number of the first of the two facts of each floor that the path names here.
    pub named: &'a [u32],
    /// How many facts the path has here.
    pub path: u32,
    /// How many axes the first variables stand for.
    pub axes: u32,
    /// The number of the first variable behind those of the path here.
    pub base: u32,
    /// The number of the contrary here.
    pub contrary: u32,
}

impl Numbering<'_> {
    /// Where the floor at a place of the cone stands here.
    fn spot(&self, at: usize) -> Option<Spot> {
        let rank = *self.found.cone.ranks.get(at)?;
        self.spots.get(rank as usize).copied()
    }

    /// The new number of a fact.
    fn of_fact(&self, number: u32) -> u32 {
        let Some(behind) = number.checked_sub(self.found.path) else {
            return number;
        };
        match self.first_fact(behind / 2) {
            Some(first) => first.saturating_add(behind % 2),
            None => self.contrary,
        }
    }

    /// The number of the first fact of the floor at a place of the cone.
    fn first_fact(&self, at: u32) -> Option<u32> {
        match self.spot(at as usize)? {
            Spot::Named(place) => self.named.get(place).copied(),
            Spot::New(place) => Some(self.path.saturating_add(place.saturating_mul(2))),
        }
    }

    /// The new number of a variable.
    fn of_variable(&self, variable: u32) -> u32 {
        let Some(place) = variable.checked_sub(self.found.base) else {
            return variable;
        };
        let (Ok(at) | Err(at)) = self.found.cone.places.as_slice().binary_search(&place);
        match self.spot(at) {
            Some(Spot::Named(place)) => u32::try_from(place)
                .unwrap_or(u32::MAX)
                .saturating_add(self.axes),
            Some(Spot::New(place)) => self.base.saturating_add(place),
            None => variable,
        }
    }

    /// A row over variables that are numbered anew.
    fn of_row(&self, alloc: Global, row: &Row) -> Result<Row, RowFault> {
        let mut sum = Row::constant(alloc, row.k);
        for term in row.terms.as_slice() {
            sum = plus(alloc, &sum, self.of_variable(term.0), term.1)?;
        }
        Ok(sum)
    }
}

/// The answer on a row.
pub fn answer_by(alloc: Global, row: &Row, numbers: &Numbering<'_>) -> Result<Answer, Mem> {
    Ok(Answer {
        yes: numbers.found.yes,
        row: row.clone()?,
        why: copied(alloc, &numbers.found.why, numbers)?,
    })
}

/// A copy of a derivation over facts that are numbered anew.
#[cycle(copies)]
fn copied(alloc: Global, d: &Derivation, numbers: &Numbering<'_>) -> Result<Derivation, Mem> {
    Ok(Derivation {
        last: copied_ending(alloc, &d.last, numbers)?,
        steps: copied_steps(alloc, d.steps.as_slice(), numbers)?,
    })
}

fn copied_steps(alloc: Global, steps: &[Step], numbers: &Numbering<'_>) -> Result<List<Step>, Mem> {
    let mut copies = List::new(alloc);
    for step in steps {
        copies.push(copied_step(alloc, step, numbers)?)?;
    }
    Ok(copies)
}

#[cycle(copies)]
fn copied_ending(alloc: Global, end: &Ending, numbers: &Numbering<'_>) -> Result<Ending, Mem> {
    match end {
        Ending::Closed => Ok(Ending::Closed),
        Ending::Cases(branch) => copied_cases(alloc, branch.get(), numbers),
    }
}

#[cycle(copies)]
fn copied_cases(alloc: Global, branch: &Branch, numbers: &Numbering<'_>) -> Result<Ending, Mem> {
    let branch = Branch {
        row: copied_row(alloc, &branch.row, numbers)?,
        first: copied(alloc, &branch.first, numbers)?,
        second: copied(alloc, &branch.second, numbers)?,
    };
    Ok(Ending::Cases(Boxed::new(alloc, branch)?))
}

/// A row over variables that are numbered anew; the same where a number of that is outside `i128`.
fn copied_row(alloc: Global, row: &Row, numbers: &Numbering<'_>) -> Result<Row, Mem> {
    match numbers.of_row(alloc, row) {
        Ok(row) => Ok(row),
        Err(RowFault::Coeff) => Ok(row.clone()?),
        Err(RowFault::Mem) => Err(Mem),
    }
}

fn copied_step(alloc: Global, step: &Step, numbers: &Numbering<'_>) -> Result<Step, Mem> {
    Ok(match step {
        Step::Fact(number) => Step::Fact(numbers.of_fact(*number)),
        Step::Sum(parts) => Step::Sum(List::from_slice(alloc, parts.as_slice())?),
        Step::Cut(divisor, number) => Step::Cut(*divisor, *number),
    })
}
