//! Where premises change that ask for no box, as those of width queries: there a rectangle is cut first.
ghost use Rattle.std.specs.Prelude.{◌≡◌};

use crate::seeking::{Place, Stop, cut_once, open_premise};
use cert_semantics::cut_of;
use lin_proof::Row;
use path_calc::{Known, Opening, Pool};
use viz_base::{Rect, World};

/// The corners of a rectangle: a row without floors has both signs within it only where it has both at these.
fn corners(place: &Place<'_>, rect: Rect) -> Result<Pool, Stop> {
    let mut pool = Pool::new(place.alloc);
    for w in [rect.wl, rect.wh] {
        for s in [rect.sl, rect.sh] {
            for h in [rect.hl, rect.hh] {
                pool.put(Known::new(place.alloc, place.job.form, World { w, s, h })?)?;
            }
        }
    }
    Ok(pool)
}

/// A row that cuts a rectangle of the path where a premise changes, if there is one.
pub fn edge_within(place: &mut Place<'_>, rect: Rect) -> Result<Option<Row>, Stop>
    ensures { place.new.turns ≡ place.old.turns }
{
    let mut pool = corners(place, rect)?;
    let Some(Opening { floors, row, .. }) = open_premise(place, &mut pool)? else {
        return Ok(None);
    };
    if !floors.is_empty() {
        return Ok(None);
    }
    let row = cut_once(place.alloc, place.job.form, &row)?;
    match cut_of(place.job.form, &row) {
        Some(_) => Ok(Some(row)),
        None => Ok(None),
    }
}
