use crate::sources::{Range, Source, View, floor_by, top_term};
use lin_proof::Row;
use std::alloc::{AllocError, Global};

/// The range of each variable by what bounds it, from the lowest variable up.
pub fn ranges_of(alloc: Global, view: &View<'_>) -> Result<Vec<Range>, AllocError> {
    let mut ranges = Vec::new(alloc);
    // From the lowest up: what bounds a variable has only lower ones beside it, whose ranges are known.
    for bounds in view.bounds {
        let least = match bound_of(view, &ranges, bounds.low) {
            Some(most) => most.checked_neg(),
            None => None,
        };
        let greatest = bound_of(view, &ranges, bounds.high);
        ranges.push(Range { least, greatest })?;
    }
    Ok(ranges)
}

/// How far a row lets its highest variable go, by the ranges of the others: the greatest value, or the negative of the
/// least one.
fn bound_of(view: &View<'_>, ranges: &[Range], source: Option<Source>) -> Option<i128> {
    let row = view.given(source?)?;
    let (variable, coefficient) = top_term(row)?;
    floor_by(
        most_without(view, ranges, row, Some(variable))?,
        coefficient,
    )
}

/// The greatest value of a row without one of its variables, that the ranges leave for it.
fn most_without(
    view: &View<'_>,
    ranges: &[Range],
    row: &Row,
    without: Option<u32>,
) -> Option<i128> {
    let mut most = row.k;
    for term in row.terms.as_slice() {
        if without != Some(term.0) {
            most = most.checked_add(most_of_term(view, ranges, *term)?)?;
        }
    }
    Some(most)
}

/// The greatest value of a term.
fn most_of_term(view: &View<'_>, ranges: &[Range], term: (u32, i128)) -> Option<i128> {
    let place = view.place_of(term.0)?;
    let range = ranges.get(place as usize)?;
    let end = if term.1 > 0 {
        range.greatest?
    } else {
        range.least?
    };
    term.1.checked_mul(end)
}

/// The first fact that is not known to be met where each range is one number.
pub fn first_unmet(view: &View<'_>) -> Option<Source> {
    for (number, fact) in view.facts.iter().enumerate() {
        if !is_met(view, fact) {
            return Some(Source::Fact(u32::try_from(number).ok()?));
        }
    }
    None
}

fn is_met(view: &View<'_>, fact: &Row) -> bool {
    match most_without(view, view.ranges, fact, None) {
        Some(most) => most >= 0,
        None => false,
    }
}
