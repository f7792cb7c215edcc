//! The worlds of a path size by size, at some heights: the ends of its widths show both signs of nearly each row that
//! has both, since at one size and height a row of text is linear in the width.
use crate::seeking::{Place, Stop, add_floors, meets_facts};
use lin_proof::Row;
use path_calc::{Known, Pool, Slice, value_of};
use std::alloc::{AllocError, Global};
use viz_base::{Rect, World, middle};

/// How many sizes a path is followed at, and how many slices there are where it is at several heights.
const MOST_SIZES: u32 = 64;

/// The slices of a rectangle; none where it has too many sizes.
pub fn slices_of(alloc: Global, rect: Rect) -> Result<Vec<Slice>, AllocError> {
    let mut slices = Vec::new(alloc);
    let sizes = rect.sh.saturating_sub(rect.sl).saturating_add(1);
    if sizes <= MOST_SIZES {
        let heights = heights_of(alloc, rect, MOST_SIZES / sizes.max(1))?;
        for size in rect.sl..rect.sh.saturating_add(1) {
            put_slices(&mut slices, rect, size, heights.as_slice())?;
        }
    }
    Ok(slices)
}

/// Heights of a rectangle, its ends among them, about as many as these and at most two where these are fewer.
fn heights_of(alloc: Global, rect: Rect, most: u32) -> Result<Vec<u32>, AllocError> {
    let mut heights = Vec::new(alloc);
    let span = rect.hh.saturating_sub(rect.hl);
    let steps = span.min(most.saturating_sub(1).max(1));
    for step in 0..steps.saturating_add(1) {
        let offset = u64::from(span).saturating_mul(u64::from(step)) / u64::from(steps.max(1));
        heights.push(rect.hl.saturating_add(u32::try_from(offset).unwrap_or(0)))?;
    }
    Ok(heights)
}

/// Puts the slices of a size at some heights behind others.
fn put_slices(
    slices: &mut Vec<Slice>,
    rect: Rect,
    size: u32,
    heights: &[u32],
) -> Result<(), AllocError> {
    for height in heights {
        slices.push(Slice {
            size,
            height: *height,
            least: rect.wl,
            most: rect.wh,
        })?;
    }
    Ok(())
}

/// The known worlds and the slices under the two children of a split by a row.
pub fn pools_under(place: &Place<'_>, pool: &mut Pool, row: &Row) -> Result<(Pool, Pool), Stop> {
    let slices = parted(place, pool.slices.as_slice(), row)?;
    let (mut first, mut second) = pool.parted(place.alloc, row)?;
    first.slices = slices.0;
    second.slices = slices.1;
    Ok((first, second))
}

/// The slices under the two children of a split by a row.
fn parted(
    place: &Place<'_>,
    slices: &[Slice],
    row: &Row,
) -> Result<(Vec<Slice>, Vec<Slice>), Stop> {
    let mut first = Vec::new(place.alloc);
    let mut second = Vec::new(place.alloc);
    for slice in slices {
        let parts = parts_of(place, *slice, row)?;
        if let Some(part) = parts.first {
            first.push(part)?;
        }
        if let Some(part) = parts.second {
            second.push(part)?;
        }
    }
    Ok((first, second))
}

/// What of a slice is under each child of a split.
#[derive(Clone, Copy)]
struct Parts {
    first: Option<Slice>,
    second: Option<Slice>,
}

/// The parts of a slice at which a row is at least 0, and below 0, where its sign changes at most once along it.
fn parts_of(place: &Place<'_>, slice: Slice, row: &Row) -> Result<Parts, Stop> {
    let begins = is_met(place, row, slice, slice.least)?;
    let ends = is_met(place, row, slice, slice.most)?;
    let (low, high) = if begins == ends {
        (slice, None)
    } else {
        halves(slice, last_alike(place, slice, row, begins)?)
    };
    Ok(if begins {
        Parts {
            first: Some(low),
            second: high,
        }
    } else {
        Parts {
            first: high,
            second: Some(low),
        }
    })
}

/// A slice up to a width, and from the next one on.
fn halves(slice: Slice, last: u32) -> (Slice, Option<Slice>) {
    let low = Slice {
        most: last,
        ..slice
    };
    let high = Slice {
        least: last.saturating_add(1),
        ..slice
    };
    (low, Some(high))
}

/// The last width of a slice up to which a row has the sign that it has at the least, where it has another at the
/// greatest.
fn last_alike(place: &Place<'_>, slice: Slice, row: &Row, sign: bool) -> Result<u32, Stop> {
    let mut alike = slice.least;
    let mut other = slice.most;
    for _ in 0..u32::BITS {
        if other.saturating_sub(alike) <= 1 {
            break;
        }
        let center = middle(alike, other);
        if is_met(place, row, slice, center)? == sign {
            alike = center;
        } else {
            other = center;
        }
    }
    Ok(alike)
}

/// Whether a row is at least 0 at a width of a slice of the path.
fn is_met(place: &Place<'_>, row: &Row, slice: Slice, w: u32) -> Result<bool, Stop> {
    let known = known_at(place, slice, w)?;
    match value_of(row, known.values.as_slice()) {
        Some(value) => Ok(value >= 0),
        None => Err(Stop::GaveUp),
    }
}

/// The world of a width of a slice, with the values of the path's floors.
fn known_at(place: &Place<'_>, slice: Slice, w: u32) -> Result<Known, Stop> {
    let world = World {
        w,
        s: slice.size,
        h: slice.height,
    };
    let mut known = Known::new(place.alloc, place.job.form, world)?;
    add_floors(&place.path, &mut known)?;
    Ok(known)
}

/// Takes the ends of the slices as the known worlds of the path, behind one in its midst, where there are any.
pub fn ends_met(place: &Place<'_>, pool: &mut Pool) -> Result<(), Stop> {
    let mut worlds = Vec::new(place.alloc);
    if let Some(slice) = pool.slices.get(pool.slices.len() / 2) {
        let center = middle(slice.least, slice.most);
        add_world(place, &mut worlds, *slice, center)?;
    }
    for slice in &pool.slices {
        add_world(place, &mut worlds, *slice, slice.least)?;
        if slice.least < slice.most {
            add_world(place, &mut worlds, *slice, slice.most)?;
        }
    }
    if !worlds.is_empty() {
        pool.worlds = worlds;
    }
    Ok(())
}

/// Adds the world of a width of a slice to others where it is on the path.
fn add_world(place: &Place<'_>, worlds: &mut Vec<Known>, slice: Slice, w: u32) -> Result<(), Stop> {
    let known = known_at(place, slice, w)?;
    if meets_facts(&place.path, known.values.as_slice())? {
        worlds.push(known)?;
    }
    Ok(())
}
