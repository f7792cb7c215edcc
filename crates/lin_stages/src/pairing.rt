use crate::sources::Source;
use crate::sums::{Manner, Part, Sums};
use lin_proof::Row;

impl Sums<'_> {
    /// A contradiction from the row of `start` and one of the splits, a variable of both being taken away first.
    pub fn paired(&mut self, start: Source, splits: &[u32], base: u32) -> Option<Source> {
        if splits.is_empty() {
            return None;
        }
        // Made once for all splits: the last fact over the variables that are bounded by themselves.
        let low = self.eliminate(start, base, Manner::Exact);
        for split in splits {
            let end = self.paired_with(start, low, Source::Fact(*split), base);
            if end.is_some() {
                return end;
            }
        }
        None
    }

    /// A contradiction from the row of `start`, or from what elimination down to `base` makes of it, and a split.
    fn paired_with(
        &mut self,
        start: Source,
        low: Option<Source>,
        split: Source,
        base: u32,
    ) -> Option<Source> {
        match self.joined(start, split) {
            Some(end) => Some(end),
            None => self.joined_below(low?, split, base),
        }
    }

    /// A contradiction from a row and from what elimination down to `base` makes of a split.
    fn joined_below(&mut self, low: Source, split: Source, base: u32) -> Option<Source> {
        let other = self.eliminate(split, base, Manner::Exact)?;
        self.joined(low, other)
    }

    /// A contradiction from two rows, each variable that both have with opposite signs being tried.
    fn joined(&mut self, first: Source, second: Source) -> Option<Source> {
        for at in 0..self.term_count(first) {
            let end = self.joined_at(first, second, at);
            if end.is_some() {
                return end;
            }
        }
        None
    }

    /// A contradiction from two rows, the variable of the term at a place of the first being taken away first, if the
    /// second has it with the opposite sign.
    fn joined_at(&mut self, first: Source, second: Source, at: usize) -> Option<Source> {
        let term = *self.row_of(first)?.terms.as_slice().get(at)?;
        let other = coefficient_in(self.row_of(second)?, term.0)?;
        if (term.1 < 0) == (other < 0) {
            return None;
        }
        let first = Part {
            times: term.1,
            of: first,
        };
        let second = Part {
            times: other,
            of: second,
        };
        self.closed_by_both(first, second)
    }

    /// How many terms the row of a source has.
    fn term_count(&self, source: Source) -> usize {
        match self.row_of(source) {
            Some(row) => row.terms.len(),
            None => 0,
        }
    }
}

fn coefficient_in(row: &Row, variable: u32) -> Option<i128> {
    for term in row.terms.as_slice() {
        if term.0 == variable {
            return Some(term.1);
        }
    }
    None
}
