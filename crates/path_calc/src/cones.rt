//! The floors on which a row rests, and rows numbered anew as if there were no others.
use lin_proof::{Row, RowFault};
use std::alloc::{AllocError, Global};
use sym_calc::{Floor, Floors};
use viz_base::Mem;

/// The places of the floors on which a row rests, ascending, where floors are numbered from `base` on as variables.
pub fn cone_of(alloc: Global, floors: &Floors, base: u32, row: &Row) -> Result<Vec<u32>, Mem> {
    if !reaches(row, base) {
        return Ok(Vec::new(alloc));
    }
    let mut marks = vec![in alloc; false; floors.len()]?;
    mark_all(&mut marks, floors, base, row);
    marked(alloc, marks.as_slice())
}

/// Marks the floors on which a row rests.
fn mark_all(marks: &mut [bool], floors: &Floors, base: u32, row: &Row) {
    mark(marks, base, row);
    for place in (0..floors.len()).rev() {
        if marks.get(place).copied() == Some(true) {
            if let Some(floor) = floors.get(place) {
                mark(marks, base, &floor.row);
            }
        }
    }
}

/// The places of the marked ones.
fn marked(alloc: Global, marks: &[bool]) -> Result<Vec<u32>, Mem> {
    let mut cone = Vec::new(alloc);
    for (place, is_marked) in marks.iter().enumerate() {
        if let (true, Ok(place)) = (*is_marked, u32::try_from(place)) {
            cone.push(place)?;
        }
    }
    Ok(cone)
}

/// Whether a row has a variable from `base` on.
fn reaches(row: &Row, base: u32) -> bool {
    match row.terms.as_slice().last() {
        Some(term) => term.0 >= base,
        None => false,
    }
}

/// Marks the floors among a row's variables.
fn mark(marks: &mut [bool], base: u32, row: &Row) {
    for term in row.terms.as_slice() {
        if let Some(place) = term.0.checked_sub(base) {
            if let Some(here) = marks.get_mut(place as usize) {
                *here = true;
            }
        }
    }
}

/// A row whose variables from `base` on are numbered anew: those of a cone in their order, with no gaps.
pub fn renumbered(alloc: Global, row: &Row, base: u32, cone: &[u32]) -> Result<Row, RowFault> {
    let mut sum = Row::constant(alloc, row.k);
    for term in row.terms.as_slice() {
        sum = plus(alloc, &sum, new_number(term.0, base, cone), term.1)?;
    }
    Ok(sum)
}

/// A row with a multiple of a variable added.
pub fn plus(alloc: Global, row: &Row, variable: u32, by: i128) -> Result<Row, RowFault> {
    let unit = Row::of_term(alloc, 0, variable, 1)?;
    row.add_scaled(by, &unit)
}

/// The new number of a variable.
fn new_number(variable: u32, base: u32, cone: &[u32]) -> u32 {
    match variable.checked_sub(base) {
        Some(place) => {
            let (Ok(rank) | Err(rank)) = cone.binary_search(&place);
            base.saturating_add(u32::try_from(rank).unwrap_or(u32::MAX))
        }
        None => variable,
    }
}

/// The floors of a cone, their rows numbered anew.
pub fn renumbered_floors(
    alloc: Global,
    floors: &Floors,
    base: u32,
    cone: &[u32],
) -> Result<Vec<Floor>, RowFault> {
    let mut chosen = Vec::new(alloc);
    for place in cone {
        if let Some(floor) = floors.get(*place as usize) {
            let row = renumbered(alloc, &floor.row, base, cone)?;
            keep(&mut chosen, Floor { row, by: floor.by })?;
        }
    }
    Ok(chosen)
}

fn keep(chosen: &mut Vec<Floor>, floor: Floor) -> Result<(), AllocError> {
    chosen.push(floor)?;
    Ok(())
}
