use crate::sources::{Bounds, Source, floor_by, top_term};
use lin_proof::Row;
use std::alloc::{AllocError, Global};

/// What facts say, read once: which of them bound a variable, and which do not.
#[derive(Drop)]
pub struct Outline<'a> {
    /// The facts.
    pub facts: &'a [Row],
    /// The variables, ascending.
    pub variables: Vec<u32>,
    /// What bounds each of them.
    pub bounds: Vec<Bounds>,
    /// The facts that bound none, without the last fact.
    pub splits: Vec<u32>,
    /// How many of the variables, the lowest ones, are bounded by themselves alone.
    pub base: u32,
    /// Which variables the last fact is about, with what bounds them, and the splits that share one with it.
    pub concerned: Vec<bool>,
}

impl<'a> Outline<'a> {
    /// Reads a list of facts.
    pub fn read(alloc: Global, facts: &'a [Row]) -> Result<Outline<'a>, AllocError> {
        let mut outline = Outline::new(alloc, facts)?;
        outline.read_to()?;
        outline.base = outline.alone_count();
        outline.mark_concerned();
        Ok(outline)
    }

    /// The variables of facts that are not read yet.
    fn new(alloc: Global, facts: &'a [Row]) -> Result<Outline<'a>, AllocError> {
        let variables = variables_of(alloc, facts)?;
        let none = Bounds {
            low: None,
            high: None,
        };
        Ok(Outline {
            facts,
            bounds: vec![in alloc; none; variables.len()]?,
            splits: Vec::new(alloc),
            base: 0,
            concerned: vec![in alloc; false; variables.len()]?,
            variables,
        })
    }

    fn read_to(&mut self) -> Result<(), AllocError> {
        let facts = self.facts;
        for (number, fact) in facts.iter().enumerate() {
            let Ok(number) = u32::try_from(number) else {
                break;
            };
            let is_bound = self.note(number, fact);
            if !is_bound && number as usize + 1 < facts.len() {
                self.splits.push(number)?;
            }
        }
        Ok(())
    }

    /// Marks the variables that the last fact is about, with what bounds them, and the splits that share one with it.
    fn mark_concerned(&mut self) {
        let facts = self.facts;
        if let Some(last) = facts.last() {
            self.mark(last);
        }
        self.mark_bounds();
        self.mark_splits();
        self.mark_bounds();
    }

    /// Marks the variables of the splits that have a marked one.
    fn mark_splits(&mut self) {
        for at in 0..self.splits.len() {
            if let Some(fact) = self.split_at(at) {
                if self.is_touched(fact) {
                    self.mark(fact);
                }
            }
        }
    }

    /// The split at a place.
    fn split_at(&self, at: usize) -> Option<&'a Row> {
        let number = *self.splits.get(at)?;
        self.facts.get(number as usize)
    }

    /// Marks the variables of a row.
    fn mark(&mut self, row: &Row) {
        for term in row.terms.as_slice() {
            if let Ok(place) = self.variables.binary_search(&term.0) {
                if let Some(here) = self.concerned.get_mut(place) {
                    *here = true;
                }
            }
        }
    }

    /// Marks what bounds the marked variables, from the highest down.
    fn mark_bounds(&mut self) {
        for place in (0..self.bounds.len()).rev() {
            if self.is_concerned(place) {
                self.mark_bounds_at(place);
            }
        }
    }

    /// Marks what bounds the variable at a place.
    fn mark_bounds_at(&mut self, place: usize) {
        if let Some(here) = self.bounds.get(place).copied() {
            self.mark_bound(here.low);
            self.mark_bound(here.high);
        }
    }

    fn mark_bound(&mut self, bound: Option<Source>) {
        if let Some(row) = self.row_of(bound) {
            self.mark(row);
        }
    }

    /// The row of a bound, if there is one.
    fn row_of(&self, bound: Option<Source>) -> Option<&'a Row> {
        match bound {
            Some(Source::Fact(number)) => self.facts.get(number as usize),
            _ => None,
        }
    }

    /// Whether a variable of the row is marked.
    fn is_touched(&self, row: &Row) -> bool {
        for term in row.terms.as_slice() {
            if let Ok(place) = self.variables.binary_search(&term.0) {
                if self.is_concerned(place) {
                    return true;
                }
            }
        }
        false
    }

    /// Whether the variable at a place is marked.
    pub fn is_concerned(&self, place: usize) -> bool {
        self.concerned.get(place).copied() == Some(true)
    }

    /// Takes a fact as a bound of its highest variable, if it is the first on that side, or bounds it by itself
    /// more tightly. Whether the fact says no more than a bound does.
    fn note(&mut self, number: u32, fact: &Row) -> bool {
        match top_term(fact) {
            Some((variable, coefficient)) => match self.variables.binary_search(&variable) {
                // A row bounds its highest variable: from below where the coefficient is positive, else from above.
                Ok(place) => self.note_at(place, coefficient > 0, number, fact),
                Err(_) => false,
            },
            None => true,
        }
    }

    /// The same where the highest variable stands at a place.
    fn note_at(&mut self, place: usize, is_low: bool, number: u32, fact: &Row) -> bool {
        let (is_bound, is_tighter) = compared(self.row_of(self.bound_at(place, is_low)), fact);
        if is_tighter {
            self.set_bound(place, is_low, Source::Fact(number));
        }
        is_bound
    }

    /// What bounds the variable at a place on a side.
    fn bound_at(&self, place: usize, is_low: bool) -> Option<Source> {
        let here = self.bounds.get(place)?;
        if is_low { here.low } else { here.high }
    }

    fn set_bound(&mut self, place: usize, is_low: bool, bound: Source) {
        if let Some(here) = self.bounds.get_mut(place) {
            if is_low {
                here.low = Some(bound);
            } else {
                here.high = Some(bound);
            }
        }
    }

    /// How many variables, from the lowest, are bounded by rows without other variables.
    fn alone_count(&self) -> u32 {
        let mut base: u32 = 0;
        for here in &self.bounds {
            if !(self.is_alone(here.low) && self.is_alone(here.high)) {
                break;
            }
            base = base.saturating_add(1);
        }
        base
    }

    fn is_alone(&self, bound: Option<Source>) -> bool {
        match self.row_of(bound) {
            Some(row) => row.terms.len() == 1,
            None => true,
        }
    }
}

/// The variables of the facts, each once, ascending.
fn variables_of(alloc: Global, facts: &[Row]) -> Result<Vec<u32>, AllocError> {
    let mut variables = Vec::new(alloc);
    for fact in facts {
        for term in fact.terms.as_slice() {
            variables.push(term.0)?;
        }
    }
    variables.sort_unstable();
    variables.dedup();
    Ok(variables)
}

/// Whether a fact bounds its highest variable beside the fact that does so far, and whether it is to take its place.
fn compared(so_far: Option<&Row>, fact: &Row) -> (bool, bool) {
    match so_far {
        None => (true, true),
        Some(other) if fact.terms.len() == 1 && other.terms.len() == 1 => {
            (true, bound_by_itself(fact) < bound_by_itself(other))
        }
        // Two bounds of one side can't be compared where they have other variables: the later one is a split.
        Some(_) => (false, false),
    }
}

/// The constant of a row of one variable, divided by the coefficient's size.
fn bound_by_itself(row: &Row) -> Option<i128> {
    let (_, coefficient) = top_term(row)?;
    floor_by(row.k, coefficient)
}
