use crate::sources::{Source, Top, View, end_of, top_term};
use crate::writing::written;
use lin_proof::{Row, Step, added, is_contradiction, least_multiples, multiple};
use std::alloc::{AllocError, Global};
use viz_base::{List, Mem};

/// By how much the last fact is multiplied where bounds are taken as often as they fit.
const FINE: i128 = 0x1000_0000_0000_0000;

/// A multiple of a row.
#[derive(Clone, Copy)]
pub struct Part {
    /// The multiple, above 0.
    pub times: i128,
    /// The row.
    pub of: Source,
}

/// The sum of two multiples of rows.
#[derive(Drop)]
pub struct Sum {
    /// The sum.
    pub row: Row,
    /// What it begins with.
    pub first: Part,
    /// What is added.
    pub second: Part,
}

/// How multiples of bounds are chosen.
#[derive(Clone, Copy)]
pub enum Manner {
    /// The sum so far is multiplied as needed, so that a bound takes a variable away at once.
    Exact,
    /// The sum so far stays as it is: a bound is taken as often as it fits, and what is left goes to the range.
    Rounded,
}

/// The sums that are made on the way to a contradiction. Where memory does not do for one, this is kept and told at the
/// end, and until then that sum is missing.
#[derive(Drop)]
pub struct Sums<'a> {
    /// Where they take memory.
    pub alloc: Global,
    /// What they are made of.
    pub view: View<'a>,
    /// The sums.
    pub list: Vec<Sum>,
    is_out_of_memory: bool,
}

impl<'a> Sums<'a> {
    /// No sums.
    pub fn new(alloc: Global, view: View<'a>) -> Sums<'a> {
        Sums {
            alloc,
            view,
            list: Vec::new(alloc),
            is_out_of_memory: false,
        }
    }

    /// The steps to a contradiction, if there is one. None also where there are too many steps.
    pub fn steps_to(&self, end: Option<Source>) -> Result<Option<List<Step>>, Mem> {
        match end {
            _ if self.is_out_of_memory => Err(Mem),
            Some(end) => written(self, end),
            None => Ok(None),
        }
    }

    /// The row of a source that is no end of a range.
    pub fn row_of(&self, source: Source) -> Option<&Row> {
        match source {
            Source::Sum(number) => match self.list.get(number as usize) {
                Some(sum) => Some(&sum.row),
                None => None,
            },
            _ => self.view.given(source),
        }
    }

    /// Adds multiples of two sources, if each number on the way is in `i128`.
    pub fn add(&mut self, first: Part, second: Part) -> Option<Source> {
        let number = u32::try_from(self.list.len()).ok()?;
        let sum = self.sum_of(first, second);
        let row = self.made(sum)?;
        self.keep(Sum { row, first, second });
        Some(Source::Sum(number))
    }

    /// A row that was made, if memory did for it.
    fn made(&mut self, row: Result<Option<Row>, Mem>) -> Option<Row> {
        match row {
            Ok(row) => row,
            Err(Mem) => {
                self.is_out_of_memory = true;
                None
            }
        }
    }

    fn keep(&mut self, sum: Sum) {
        if self.list.push(sum).is_err() {
            self.is_out_of_memory = true;
        }
    }

    /// The sum of multiples of two sources.
    fn sum_of(&self, first: Part, second: Part) -> Result<Option<Row>, Mem> {
        match self.row_of(first.of) {
            Some(row) => self.with_second(first.times, row, second),
            None => match self.end_row(first.of)? {
                Some(row) => self.with_second(first.times, &row, second),
                None => Ok(None),
            },
        }
    }

    /// `times` a row plus a multiple of a source.
    fn with_second(&self, times: i128, row: &Row, second: Part) -> Result<Option<Row>, Mem> {
        match self.row_of(second.of) {
            Some(other) => combined(times, row, second.times, other),
            None => match self.end_row(second.of)? {
                Some(other) => combined(times, row, second.times, &other),
                None => Ok(None),
            },
        }
    }

    /// The row of an end of a range.
    fn end_row(&self, source: Source) -> Result<Option<Row>, AllocError> {
        match source {
            Source::Low(place) => self.low_row(place),
            Source::High(place) => self.high_row(place),
            _ => Ok(None),
        }
    }

    fn low_row(&self, place: u32) -> Result<Option<Row>, AllocError> {
        match (
            self.view.low_constant(place),
            self.view.variables.get(place as usize),
        ) {
            (Some(k), Some(variable)) => Ok(Some(Row::of_term(self.alloc, k, *variable, 1)?)),
            _ => Ok(None),
        }
    }

    fn high_row(&self, place: u32) -> Result<Option<Row>, AllocError> {
        match (
            self.view.high_constant(place),
            self.view.variables.get(place as usize),
        ) {
            (Some(k), Some(variable)) => Ok(Some(Row::of_term(self.alloc, k, *variable, -1)?)),
            _ => Ok(None),
        }
    }

    /// The highest variable of the row of a source, if there is one.
    fn top_of(&self, source: Source) -> Option<Top> {
        let (variable, coefficient) = top_term(self.row_of(source)?)?;
        Some(Top {
            of: source,
            place: self.view.place_of(variable)?,
            coefficient,
        })
    }

    /// Takes away the variables of a row from the highest down to the place `down_to`, by what bounds them. None where
    /// nothing bounds one of them, or a number leaves `i128`.
    pub fn eliminate(&mut self, start: Source, down_to: u32, manner: Manner) -> Option<Source> {
        let mut at = start;
        // The highest variable goes away at each turn, and only lower ones come.
        for _ in 0..=self.view.variables.len() {
            match self.top_of(at) {
                Some(top) if top.place >= down_to => at = self.take_away(top, manner)?,
                _ => return Some(at),
            }
        }
        None
    }

    /// Takes away all variables of a row. None where no contradiction is left.
    fn contradiction(&mut self, start: Source, manner: Manner) -> Option<Source> {
        let end = self.eliminate(start, 0, manner)?;
        if is_contradiction(self.row_of(end)?) {
            Some(end)
        } else {
            None
        }
    }

    /// A contradiction from one row, by what bounds its variables; else all sums are as they were.
    pub fn closed_by(&mut self, start: Source) -> Option<Source> {
        let count = self.list.len();
        let end = self.contradiction(start, Manner::Exact);
        if end.is_none() {
            self.list.truncate(count);
        }
        end
    }

    /// A contradiction from a large multiple of one row, with bounds taken as often as they fit; else all sums are as
    /// they were.
    pub fn closed_finely(&mut self, start: Source) -> Option<Source> {
        let count = self.list.len();
        let end = self.fine_end(start);
        if end.is_none() {
            self.list.truncate(count);
        }
        end
    }

    fn fine_end(&mut self, start: Source) -> Option<Source> {
        let most = Part {
            times: FINE - 1,
            of: start,
        };
        let large = self.add(most, once(start))?;
        self.contradiction(large, Manner::Rounded)
    }

    /// A contradiction from two rows, a variable with these coefficients in them being taken away first; else all sums
    /// are as they were.
    pub fn closed_by_both(&mut self, first: Part, second: Part) -> Option<Source> {
        let count = self.list.len();
        let end = self.end_of_both(first, second);
        if end.is_none() {
            self.list.truncate(count);
        }
        end
    }

    fn end_of_both(&mut self, first: Part, second: Part) -> Option<Source> {
        let sum = self.cancel(first, second)?;
        self.contradiction(sum, Manner::Exact)
    }

    /// Takes away the highest variable of a row.
    fn take_away(&mut self, top: Top, manner: Manner) -> Option<Source> {
        // A range of one number is the tightest bound there is, and its rows stay short.
        if self.view.is_settled(top.place) {
            return self.by_range(top);
        }
        let bound = self.top_of(self.view.bound_of(top)?)?;
        match manner {
            Manner::Exact => self.cancel(part_of(top), part_of(bound)),
            Manner::Rounded => self.rounded(top, bound),
        }
    }

    /// Takes a variable away by what bounds it as often as that fits, and what is left of it by its range.
    fn rounded(&mut self, top: Top, bound: Top) -> Option<Source> {
        let taken = self.take_often(top, bound)?;
        match self.top_of(taken) {
            Some(left) if left.place == top.place => self.by_range(left),
            _ => Some(taken),
        }
    }

    /// Adds two rows so that a variable goes away, of which the parts are as often as it stands in them.
    fn cancel(&mut self, first: Part, second: Part) -> Option<Source> {
        if first.times == 0 || second.times == 0 {
            return None;
        }
        let multiples = least_multiples(first.times, second.times)?;
        let first = Part {
            times: multiples.first,
            of: first.of,
        };
        let second = Part {
            times: multiples.second,
            of: second.of,
        };
        self.add(first, second)
    }

    /// Adds an end of the range so that the highest variable of a row goes away.
    fn by_range(&mut self, top: Top) -> Option<Source> {
        let end = Part {
            times: top.coefficient.checked_abs()?,
            of: end_of(top.place, top.coefficient),
        };
        self.add(once(top.of), end)
    }

    /// Adds a bound as often as its coefficient fits into that of the row.
    fn take_often(&mut self, top: Top, bound: Top) -> Option<Source> {
        let size = top.coefficient.checked_abs()?;
        let by = bound.coefficient.checked_abs()?;
        if by == 0 || size < by {
            return Some(top.of);
        }
        let often = Part {
            times: size / by,
            of: bound.of,
        };
        self.add(once(top.of), often)
    }

    /// A contradiction from a range without numbers.
    pub fn empty_range(&mut self) -> Option<Source> {
        let place = u32::try_from(self.first_empty()?).ok()?;
        self.add(once(Source::Low(place)), once(Source::High(place)))
    }

    /// The place of the first variable whose range has no numbers.
    fn first_empty(&self) -> Option<usize> {
        for (place, range) in self.view.ranges.iter().enumerate() {
            if let (Some(least), Some(greatest)) = (range.least, range.greatest) {
                if greatest < least {
                    return Some(place);
                }
            }
        }
        None
    }
}

/// A row, once.
fn once(of: Source) -> Part {
    Part { times: 1, of }
}

/// A row, as often as its highest variable stands in it.
fn part_of(top: Top) -> Part {
    Part {
        times: top.coefficient,
        of: top.of,
    }
}

/// `times` the row plus `more` times the other, if each number on the way is in `i128`.
fn combined(times: i128, row: &Row, more: i128, other: &Row) -> Result<Option<Row>, Mem> {
    if times == 1 {
        return added(row, more, other);
    }
    match multiple(row.terms.allocator(), times, row)? {
        Some(sum) => added(&sum, more, other),
        None => Ok(None),
    }
}
