use crate::sources::{Bounds, Source, View, end_of};
use crate::sums::{Part, Sum, Sums};
use lin_proof::{Row, Step};
use std::alloc::Global;
use viz_base::{List, Mem};

/// What is known of a row that steps may make.
#[derive(Clone, Copy)]
enum Mark {
    /// It is not needed, so far.
    Idle,
    /// It is needed.
    Wanted,
    /// It is written, and has this number.
    Written(u32),
}

/// Steps that are being written. None of its methods ends early: what is missing, or memory that does not do, is kept
/// and told at the end, and until then the number of a row that is missing is 0.
#[derive(Drop)]
struct Draft<'a> {
    view: View<'a>,
    sums: &'a [Sum],
    steps: List<Step>,
    /// The number of the next row.
    next: u32,
    /// The low ends of the variables' ranges.
    lows: Vec<Mark>,
    /// The high ends.
    highs: Vec<Mark>,
    /// The sums.
    marks: Vec<Mark>,
    is_missing: bool,
    is_out_of_memory: bool,
}

/// The steps that make the row of a source. None where there are too many rows, or something is missing.
pub fn written(sums: &Sums<'_>, target: Source) -> Result<Option<List<Step>>, Mem> {
    let mut draft = Draft::new(sums)?;
    draft.want(target);
    draft.want_parts();
    draft.want_further();
    draft.write_ranges();
    draft.write_sums();
    draft.number_of(target);
    draft.finished()
}

impl<'a> Draft<'a> {
    /// No steps yet.
    fn new(sums: &'a Sums<'_>) -> Result<Draft<'a>, Mem> {
        let alloc = sums.alloc;
        let variables = sums.view.variables.len();
        Ok(Draft {
            view: sums.view,
            sums: sums.list.as_slice(),
            steps: List::new(alloc),
            next: u32::try_from(sums.view.known.len()).unwrap_or(u32::MAX),
            lows: vec![in alloc; Mark::Idle; variables]?,
            highs: vec![in alloc; Mark::Idle; variables]?,
            marks: vec![in alloc; Mark::Idle; sums.list.len()]?,
            is_missing: false,
            is_out_of_memory: false,
        })
    }

    fn alloc(&self) -> Global {
        self.steps.allocator()
    }

    /// The steps, if nothing is missing.
    fn finished(self) -> Result<Option<List<Step>>, Mem> {
        let Draft {
            steps,
            is_missing,
            is_out_of_memory,
            ..
        } = self;
        match (is_out_of_memory, is_missing) {
            (true, _) => Err(Mem),
            (false, true) => Ok(None),
            (false, false) => Ok(Some(steps)),
        }
    }

    /// Needs the row of a source.
    fn want(&mut self, source: Source) {
        match source {
            Source::Sum(number) => set(&mut self.marks, number as usize, Mark::Wanted),
            Source::Low(place) => set(&mut self.lows, place as usize, Mark::Wanted),
            Source::High(place) => set(&mut self.highs, place as usize, Mark::Wanted),
            Source::Fact(_) | Source::Known(_) => {}
        }
    }

    /// Needs what the needed sums are made of, from the last one down.
    fn want_parts(&mut self) {
        let sums = self.sums;
        // A sum is made of earlier ones alone, so one pass downwards marks all that are needed.
        for (number, sum) in sums.iter().enumerate().rev() {
            if is_wanted(&self.marks, number) {
                self.want(sum.first.of);
                self.want(sum.second.of);
            }
        }
    }

    /// Needs what the needed ends are made of, from the highest variable down.
    fn want_further(&mut self) {
        let bounds = self.view.bounds;
        for (place, here) in bounds.iter().enumerate().rev() {
            self.want_below(place, here);
        }
    }

    /// Needs what the needed ends of the range of the variable at a place are made of.
    fn want_below(&mut self, place: usize, bounds: &Bounds) {
        if is_wanted(&self.lows, place) {
            self.want_ends(place, bounds.low);
        }
        if is_wanted(&self.highs, place) {
            self.want_ends(place, bounds.high);
        }
    }

    /// Needs the ends of the other variables in a bound of the variable at a place.
    fn want_ends(&mut self, place: usize, bound: Option<Source>) {
        if let Some(row) = self.bound_row(bound) {
            for term in row.terms.as_slice() {
                if let Some(other) = self.view.place_of(term.0) {
                    if other as usize != place {
                        self.want(end_of(other, term.1));
                    }
                }
            }
        }
    }

    fn bound_row(&self, bound: Option<Source>) -> Option<&'a Row> {
        self.view.given(bound?)
    }

    /// Writes a step, and gives its row's number.
    fn put(&mut self, step: Step) -> u32 {
        let number = self.next;
        self.next = number.saturating_add(1);
        if number == u32::MAX {
            self.is_missing = true;
        }
        if self.steps.push(step).is_err() {
            self.is_out_of_memory = true;
        }
        number
    }

    /// The number of the row of a source; that of a fact is written.
    fn number_of(&mut self, source: Source) -> u32 {
        match source {
            Source::Fact(number) => self.put(Step::Fact(number)),
            Source::Known(number) => number,
            _ => {
                let mark = self.mark_of(source);
                self.entry(mark)
            }
        }
    }

    /// What is known of the row of a sum or of an end of a range.
    fn mark_of(&self, source: Source) -> Option<Mark> {
        match source {
            Source::Sum(number) => self.marks.get(number as usize).copied(),
            Source::Low(place) => self.lows.get(place as usize).copied(),
            Source::High(place) => self.highs.get(place as usize).copied(),
            Source::Fact(_) | Source::Known(_) => None,
        }
    }

    fn entry(&mut self, mark: Option<Mark>) -> u32 {
        match mark {
            Some(Mark::Written(number)) => number,
            _ => {
                self.is_missing = true;
                0
            }
        }
    }

    /// Writes the ends of ranges that are needed, from the lowest variable up.
    fn write_ranges(&mut self) {
        let bounds = self.view.bounds;
        for (place, here) in bounds.iter().enumerate() {
            self.write_ends(place, here);
        }
    }

    fn write_ends(&mut self, place: usize, bounds: &Bounds) {
        if is_wanted(&self.lows, place) {
            let number = self.write_end(place, bounds.low);
            set(&mut self.lows, place, Mark::Written(number));
        }
        if is_wanted(&self.highs, place) {
            let number = self.write_end(place, bounds.high);
            set(&mut self.highs, place, Mark::Written(number));
        }
    }

    /// Writes that a bound leaves no more than an end of the range: the bound, with ends of the other variables added,
    /// is divided by the coefficient.
    fn write_end(&mut self, place: usize, bound: Option<Source>) -> u32 {
        match (bound, self.bound_row(bound)) {
            (Some(source), Some(row)) => self.write_cut(place, source, row),
            _ => self.entry(None),
        }
    }

    /// Writes that a bound, of this row, leaves no more than an end of the range.
    fn write_cut(&mut self, place: usize, bound: Source, row: &Row) -> u32 {
        let number = self.number_of(bound);
        let mut parts = List::new(self.alloc());
        self.push(&mut parts, (1, number));
        let own = self.add_ends(place, row, &mut parts);
        let sum = self.put_sum(number, parts);
        if own > 1 {
            self.put(Step::Cut(own, sum))
        } else {
            sum
        }
    }

    /// Adds the ends of the other variables in a bound of the variable at a place; gives the size of its coefficient.
    fn add_ends(&mut self, place: usize, row: &Row, parts: &mut List<(i128, u32)>) -> i128 {
        let mut own = 1;
        for term in row.terms.as_slice() {
            match (self.view.place_of(term.0), term.1.checked_abs()) {
                (Some(other), Some(size)) if other as usize == place => own = size,
                (Some(other), Some(times)) => {
                    let of = end_of(other, term.1);
                    self.add_part(parts, Part { times, of });
                }
                _ => self.is_missing = true,
            }
        }
        own
    }

    /// Writes the sum of the parts, of which the row of this number is the first.
    fn put_sum(&mut self, number: u32, parts: List<(i128, u32)>) -> u32 {
        if parts.len() > 1 {
            self.put(Step::Sum(parts))
        } else {
            number
        }
    }

    /// Writes the needed sums. Sums that go on from the one before without multiplying it are written as one.
    fn write_sums(&mut self) {
        let mut parts = List::new(self.alloc());
        let last = self.write_closed(&mut parts);
        self.close(parts, last);
    }

    /// Writes the needed sums but the parts of the last one, and gives its number.
    fn write_closed(&mut self, parts: &mut List<(i128, u32)>) -> usize {
        let mut last = 0;
        let sums = self.sums;
        for (number, sum) in sums.iter().enumerate() {
            if is_wanted(&self.marks, number) {
                self.add_sum(parts, last, sum);
                last = number;
            }
        }
        last
    }

    /// Adds a sum to the parts that go up to the sum of this number, or writes those and begins anew.
    fn add_sum(&mut self, parts: &mut List<(i128, u32)>, last: usize, sum: &Sum) {
        if parts.is_empty() || !goes_on(sum.first, last) {
            let before = std::mem::replace(parts, List::new(self.alloc()));
            self.close(before, last);
            self.add_part(parts, sum.first);
        }
        self.add_part(parts, sum.second);
    }

    fn add_part(&mut self, parts: &mut List<(i128, u32)>, part: Part) {
        let number = self.number_of(part.of);
        self.push(parts, (part.times, number));
    }

    fn push(&mut self, parts: &mut List<(i128, u32)>, part: (i128, u32)) {
        if parts.push(part).is_err() {
            self.is_out_of_memory = true;
        }
    }

    /// Writes the sum of the parts, if there are any, as that of this number.
    fn close(&mut self, parts: List<(i128, u32)>, number: usize) {
        if !parts.is_empty() {
            let row = self.put(Step::Sum(parts));
            set(&mut self.marks, number, Mark::Written(row));
        }
    }
}

fn is_wanted(marks: &[Mark], at: usize) -> bool {
    matches!(marks.get(at), Some(Mark::Wanted))
}

fn set(marks: &mut [Mark], at: usize, mark: Mark) {
    if let Some(here) = marks.get_mut(at) {
        *here = mark;
    }
}

/// Whether a part is the sum of this number once.
fn goes_on(part: Part, number: usize) -> bool {
    match part.of {
        Source::Sum(of) => of as usize == number && part.times == 1,
        _ => false,
    }
}
