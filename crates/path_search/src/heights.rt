//! Whether the viewport's height matters to a page: where it doesn't, the search looks at one height for all.
use crate::runs::truth_over;
use crate::seeking::middle_and_ends;
use cert_semantics::{axis_count, axis_of};
use lin_proof::Row;
use path_calc::Digesting;
use std::alloc::{AllocError, Global};
use sym_calc::{Floor, Path};
use viz_base::{Axis, Job, Mem, Rect, World};
use viz_calc::Halt;

/// A digest of what a layout at a world answers. None where a number is too large.
fn digest_at(alloc: Global, job: &Job, world: World) -> Result<Option<u64>, Mem> {
    let mut calc = Digesting::new(world);
    match truth_over(alloc, job, &mut calc) {
        Ok(_) => Ok(Some(calc.digest)),
        Err(Halt::Mem) => Err(Mem),
        Err(Halt::Coeff | Halt::Open) => Ok(None),
    }
}

/// Whether a layout answers alike at the least, a middle and the greatest height of a range.
fn is_alike(alloc: Global, job: &Job, w: u32, s: u32) -> Result<bool, Mem> {
    let range = job.range;
    let first = digest_at(alloc, job, World { w, s, h: range.hl })?;
    for h in middle_and_ends(alloc, range.hl, range.hh)? {
        if digest_at(alloc, job, World { w, s, h })? != first {
            return Ok(false);
        }
    }
    Ok(true)
}

/// Whether layouts answer alike at all heights, as the corners of the range, the middles of its edges and its own show.
pub fn is_flat(alloc: Global, job: &Job) -> Result<bool, Mem> {
    let range = job.range;
    if range.hl == range.hh {
        return Ok(true);
    }
    for w in middle_and_ends(alloc, range.wl, range.wh)? {
        for s in middle_and_ends(alloc, range.sl, range.sh)? {
            if !is_alike(alloc, job, w, s)? {
                return Ok(false);
            }
        }
    }
    Ok(true)
}

/// Whether a row rests on the viewport's height, by itself or by a floor of those that are marked.
fn is_resting(form: u8, row: &Row, marks: &[bool]) -> bool {
    for term in row.terms.as_slice() {
        let is_tall = match term.0.checked_sub(axis_count(form)) {
            Some(place) => marks.get(place as usize).copied() == Some(true),
            None => axis_of(form, term.0) == Some(Axis::Height),
        };
        if is_tall {
            return true;
        }
    }
    false
}

/// Marks the floor of a row, behind others, where it rests on the viewport's height.
fn mark(marks: &mut Vec<bool>, form: u8, row: &Row) -> Result<(), AllocError> {
    let is_tall = is_resting(form, row, marks.as_slice());
    marks.push(is_tall)?;
    Ok(())
}

/// Whether a row rests on the viewport's height, over the variables of a path and then these floors.
pub fn rests_on_height(path: &Path, floors: &[Floor], row: &Row) -> Result<bool, Mem> {
    let form = path.origin.form;
    let mut marks = Vec::new(path.facts.allocator());
    for place in 0..path.floors.len() {
        if let Some(floor) = path.floors.get(place) {
            mark(&mut marks, form, &floor.row)?;
        }
    }
    for floor in floors {
        mark(&mut marks, form, &floor.row)?;
    }
    Ok(is_resting(form, row, marks.as_slice()))
}

/// A rectangle at its least height alone.
pub fn flattened(rect: Rect) -> Rect {
    Rect {
        hh: rect.hl,
        ..rect
    }
}
