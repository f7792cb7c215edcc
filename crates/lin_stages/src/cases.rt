use crate::outline::Outline;
use crate::ranges::{first_unmet, ranges_of};
use crate::sources::{Bounds, Range, Source, View};
use crate::sums::Sums;
use lin_proof::{Branch, Derivation, Ending, Row, RowFault, Step};
use std::alloc::{AllocError, Global};
use viz_base::{Boxed, List, Mem};

/// The variable of the size. Floors of the size alone are numbers at one size, so cases of sizes go before pairs,
/// of which each case would try all again.
const SIZE: u32 = 1;

/// What a search comes to where variables are cut to part of their ranges.
#[derive(Clone, Copy)]
pub enum Outcome {
    /// A derivation from the rows known there, which is put behind those that were found.
    Closed,
    /// Values of the variables that meet all facts, which are kept.
    Met,
    /// Neither.
    Stuck,
}

/// Where a search through cases stands, and what it found. Where memory does not do, this is kept, and the search is
/// stuck.
#[derive(Drop)]
pub struct Cases<'a> {
    /// Where it takes memory.
    alloc: Global,
    /// What the facts say.
    outline: &'a Outline<'a>,
    /// What bounds each variable here.
    bounds: Vec<Bounds>,
    /// The rows known here.
    known: Vec<Row>,
    /// How many cases and pairs of rows may still be tried.
    left: u64,
    /// The derivations that were found and are part of no other one yet.
    pub found: Vec<Derivation>,
    /// Values of the variables, by their places, that meet all facts, if they were found.
    pub point: Vec<i128>,
    /// Whether memory did not do.
    pub is_out_of_memory: bool,
}

/// The range that is halved next.
#[derive(Clone, Copy)]
struct Halving {
    place: u32,
    variable: u32,
    middle: i128,
    length: i128,
    is_base: bool,
    is_concerned: bool,
}

/// A range that is halved: the rows of both cases, which bound the variable at a place.
#[derive(Drop)]
struct Halves {
    place: u32,
    whole: Bounds,
    here: Source,
    row: Row,
    other: Row,
}

impl Halves {
    /// The case up to the middle.
    fn first(&self) -> Case<'_> {
        Case {
            place: self.place,
            whole: self.whole,
            bounds: Bounds {
                low: self.whole.low,
                high: Some(self.here),
            },
            row: &self.row,
        }
    }

    /// The case above the middle.
    fn second(&self) -> Case<'_> {
        Case {
            place: self.place,
            whole: self.whole,
            bounds: Bounds {
                low: Some(self.here),
                high: self.whole.high,
            },
            row: &self.other,
        }
    }
}

/// A case: the row that is known in it, by which the variable at a place is bounded.
#[derive(Drop)]
struct Case<'a> {
    place: u32,
    whole: Bounds,
    bounds: Bounds,
    row: &'a Row,
}

/// What comes next where a search stands.
#[derive(Drop)]
enum Next {
    /// A derivation is found.
    Closed(Derivation),
    /// Values of the variables, by their places, meet all facts.
    Met(Vec<i128>),
    /// Nothing.
    Stuck,
    /// A range is halved.
    Halve(Halving),
}

impl<'a> Cases<'a> {
    /// A search that knows nothing but the facts, and may try so many cases and pairs of rows.
    pub fn new(
        alloc: Global,
        outline: &'a Outline<'a>,
        limit: u64,
    ) -> Result<Cases<'a>, AllocError> {
        Ok(Cases {
            alloc,
            outline,
            bounds: outline.bounds.clone()?,
            known: Vec::new(alloc),
            left: limit,
            found: Vec::new(alloc),
            point: Vec::new(alloc),
            is_out_of_memory: false,
        })
    }

    fn out_of_memory(&mut self) -> Outcome {
        self.is_out_of_memory = true;
        Outcome::Stuck
    }

    fn close(&mut self, derivation: Derivation) -> Outcome {
        match self.found.push(derivation) {
            Ok(()) => Outcome::Closed,
            Err(_) => self.out_of_memory(),
        }
    }

    fn meet(&mut self, values: Vec<i128>) -> Outcome {
        self.point = values;
        Outcome::Met
    }

    /// What comes next: the rows known here tell it, or a range is to be halved.
    fn next(&mut self) -> Result<Next, Mem> {
        match self.left.checked_sub(1) {
            Some(left) => {
                self.left = left;
                self.without_cases()
            }
            None => Ok(Next::Stuck),
        }
    }

    /// What the rows known here come to, or the range that is to be halved.
    fn without_cases(&mut self) -> Result<Next, Mem> {
        let ranges = ranges_of(self.alloc, &self.view(&[]))?;
        let mut left = self.left;
        let next = self.next_in(&ranges, &mut left);
        self.left = left;
        next
    }

    /// What comes next where the ranges are known, and how many cases and pairs of rows may still be tried.
    fn next_in(&self, ranges: &[Range], left: &mut u64) -> Result<Next, Mem> {
        let mut sums = Sums::new(self.alloc, self.view(ranges));
        next_of(&mut sums, self.outline, left)
    }

    fn view<'b>(&'b self, ranges: &'b [Range]) -> View<'b> {
        View {
            facts: self.outline.facts,
            known: &self.known,
            variables: &self.outline.variables,
            bounds: &self.bounds,
            ranges,
        }
    }

    /// Takes a row as known, if memory does for it.
    fn knows(&mut self, row: &Row) -> bool {
        let is_known = match row.clone() {
            Ok(row) => self.known.push(row).is_ok(),
            Err(_) => false,
        };
        if !is_known {
            self.is_out_of_memory = true;
        }
        is_known
    }

    fn set_bounds(&mut self, place: u32, new: Bounds) {
        if let Some(here) = self.bounds.get_mut(place as usize) {
            *here = new;
        }
    }

    /// The halves of a range, if their rows have numbers.
    fn halves_of(&self, halving: Halving) -> Result<Option<Halves>, Mem> {
        let row = Row::of_term(self.alloc, halving.middle, halving.variable, -1)?;
        let other = denied(&row)?;
        let whole = self.bounds.get(halving.place as usize).copied();
        match (whole, u32::try_from(self.known.len()), other) {
            (Some(whole), Ok(number), Some(other)) => Ok(Some(Halves {
                place: halving.place,
                whole,
                here: Source::Known(number),
                row,
                other,
            })),
            _ => Ok(None),
        }
    }

    /// Makes one derivation, by cases of a row, of the two that were found last.
    fn join(&mut self, row: &Row) -> Outcome {
        let second = self.found.pop();
        match joined(self.alloc, row, self.found.pop().zip(second)) {
            Ok(Some(derivation)) => self.close(derivation),
            Ok(None) => Outcome::Stuck,
            Err(Mem) => self.out_of_memory(),
        }
    }
}

/// Goes through cases of the variables that are bounded by themselves, down to single values.
#[cycle(cases)]
pub fn by_cases(cases: &mut Cases<'_>, depth: u32) -> Outcome {
    match cases.next() {
        Ok(Next::Closed(derivation)) => cases.close(derivation),
        Ok(Next::Met(values)) => cases.meet(values),
        Ok(Next::Stuck) => Outcome::Stuck,
        Ok(Next::Halve(halving)) => match depth.checked_sub(1) {
            Some(depth) => halved(cases, depth, halving),
            None => Outcome::Stuck,
        },
        Err(Mem) => cases.out_of_memory(),
    }
}

/// Both cases of a range that is halved.
#[cycle(cases)]
fn halved(cases: &mut Cases<'_>, depth: u32, halving: Halving) -> Outcome {
    match cases.halves_of(halving) {
        Ok(Some(halves)) => both_halves(cases, depth, &halves),
        Ok(None) => Outcome::Stuck,
        Err(Mem) => cases.out_of_memory(),
    }
}

/// The first case of a range, and with it both.
#[cycle(cases)]
fn both_halves(cases: &mut Cases<'_>, depth: u32, halves: &Halves) -> Outcome {
    match in_case(cases, depth, &halves.first()) {
        Outcome::Closed => other_half(cases, depth, halves),
        outcome => outcome,
    }
}

/// The other case of a range, and with it both.
#[cycle(cases)]
fn other_half(cases: &mut Cases<'_>, depth: u32, halves: &Halves) -> Outcome {
    match in_case(cases, depth, &halves.second()) {
        Outcome::Closed => cases.join(&halves.row),
        outcome => outcome,
    }
}

/// What a search comes to in a case; it stands where it did after it.
#[cycle(cases)]
fn in_case(cases: &mut Cases<'_>, depth: u32, case: &Case<'_>) -> Outcome {
    let count = cases.known.len();
    cases.set_bounds(case.place, case.bounds);
    let outcome = if cases.knows(case.row) {
        by_cases(cases, depth)
    } else {
        Outcome::Stuck
    };
    cases.set_bounds(case.place, case.whole);
    cases.known.truncate(count);
    outcome
}

/// The derivation by cases of a row.
fn joined(
    alloc: Global,
    row: &Row,
    cases: Option<(Derivation, Derivation)>,
) -> Result<Option<Derivation>, Mem> {
    match cases {
        Some((first, second)) => Ok(Some(by_branch(
            alloc,
            Branch {
                row: row.clone()?,
                first,
                second,
            },
        )?)),
        None => Ok(None),
    }
}

fn by_branch(alloc: Global, branch: Branch) -> Result<Derivation, AllocError> {
    Ok(Derivation {
        steps: List::new(alloc),
        last: Ending::Cases(Boxed::new(alloc, branch)?),
    })
}

/// The row that is at least 0 where this one is below 0, if its numbers are in `i128`.
fn denied(row: &Row) -> Result<Option<Row>, Mem> {
    match row.negate() {
        Ok(other) => Ok(Some(other)),
        Err(RowFault::Coeff) => Ok(None),
        Err(RowFault::Mem) => Err(Mem),
    }
}

/// What comes next where the ranges are known.
fn next_of(sums: &mut Sums<'_>, outline: &Outline<'_>, left: &mut u64) -> Result<Next, Mem> {
    let end = end_here(sums, outline, left);
    match sums.steps_to(end)? {
        Some(steps) => Ok(Next::Closed(closed(steps))),
        None => match next_halving(&sums.view, outline) {
            Some(halving) => Ok(Next::Halve(halving)),
            None => at_one_point(sums),
        },
    }
}

/// A derivation without cases.
pub fn closed(steps: List<Step>) -> Derivation {
    Derivation {
        steps,
        last: Ending::Closed,
    }
}

/// A contradiction without further cases.
fn end_here(sums: &mut Sums<'_>, outline: &Outline<'_>, left: &mut u64) -> Option<Source> {
    let empty = sums.empty_range();
    if empty.is_some() {
        return empty;
    }
    let last = sums.view.last_fact()?;
    match closed_by_facts(sums, outline, last) {
        Some(end) => Some(end),
        None => closed_by_pairs(sums, outline, left, last),
    }
}

/// A contradiction from the last fact or a split alone.
fn closed_by_facts(sums: &mut Sums<'_>, outline: &Outline<'_>, last: Source) -> Option<Source> {
    let end = sums.closed_by(last);
    if end.is_some() {
        return end;
    }
    for split in &outline.splits {
        let end = sums.closed_by(Source::Fact(*split));
        if end.is_some() {
            return end;
        }
    }
    // Last, since numbers are 2^60 times larger on this way; it is for rows whose numbers leave 128 bits else.
    sums.closed_finely(last)
}

/// Whether there is more than one size.
fn has_open_size(view: &View<'_>) -> bool {
    for (variable, range) in view.variables.iter().zip(view.ranges) {
        if *variable == SIZE {
            return length_of(range).is_some();
        }
    }
    false
}

/// A contradiction from the last fact and a split at one size, if so many pairs of rows may still be tried.
fn closed_by_pairs(
    sums: &mut Sums<'_>,
    outline: &Outline<'_>,
    left: &mut u64,
    last: Source,
) -> Option<Source> {
    if has_open_size(&sums.view) {
        return None;
    }
    *left = left.checked_sub(outline.splits.len() as u64)?;
    sums.paired(last, &outline.splits, outline.base)
}

/// Where each range is one number: a derivation from a fact that is not met, or the numbers, if they meet all facts.
fn at_one_point(sums: &mut Sums<'_>) -> Result<Next, Mem> {
    match first_unmet(&sums.view) {
        Some(fact) => closed_from(sums, fact),
        None => Ok(Next::Met(point(sums.alloc, sums.view.ranges)?)),
    }
}

fn closed_from(sums: &mut Sums<'_>, fact: Source) -> Result<Next, Mem> {
    let end = sums.closed_by(fact);
    match sums.steps_to(end)? {
        Some(steps) => Ok(Next::Closed(closed(steps))),
        None => Ok(Next::Stuck),
    }
}

/// A number of each range.
fn point(alloc: Global, ranges: &[Range]) -> Result<Vec<i128>, AllocError> {
    let mut values = Vec::new(alloc);
    for range in ranges {
        values.push(range.least.or(range.greatest).unwrap_or(0))?;
    }
    Ok(values)
}

/// The range that is halved next: the shortest of more than one number, of the variables that are bounded by themselves
/// before the others, and of those that the last fact concerns before those.
fn next_halving(view: &View<'_>, outline: &Outline<'_>) -> Option<Halving> {
    let mut best: Option<Halving> = None;
    for (place, range) in view.ranges.iter().enumerate() {
        if let Some(other) = halving_of(view, outline, place, range) {
            best = match best {
                Some(so_far) if !goes_before(&other, &so_far) => Some(so_far),
                _ => Some(other),
            };
        }
    }
    best
}

/// How the range of the variable at a place is halved, if it is of more than one number.
fn halving_of(
    view: &View<'_>,
    outline: &Outline<'_>,
    place: usize,
    range: &Range,
) -> Option<Halving> {
    let (length, middle) = length_of(range)?;
    let variable = *view.variables.get(place)?;
    let is_concerned = outline.is_concerned(place);
    let place = u32::try_from(place).ok()?;
    Some(Halving {
        place,
        variable,
        middle,
        length,
        is_base: place < outline.base,
        is_concerned,
    })
}

fn goes_before(one: &Halving, other: &Halving) -> bool {
    // To halve a size that matters to no row would write the same steps for each of its values.
    if one.is_base != other.is_base {
        one.is_base
    } else if one.is_concerned != other.is_concerned {
        one.is_concerned
    } else {
        one.length < other.length
    }
}

/// How far the ends of a range of more than one number are apart, and its middle.
fn length_of(range: &Range) -> Option<(i128, i128)> {
    let least = range.least?;
    let length = range.greatest?.checked_sub(least)?;
    if length <= 0 {
        return None;
    }
    Some((length, least.checked_add(length.div_euclid(2))?))
}
