ghost use Rattle.std.specs.Prelude.{◌≡◌, ◌≤◌, None};
ghost use Rattle.viz_calc.specs.Plain.{plain_state};
ghost use Rattle.lay_float.specs.Agreement.{Agree};

use lay_float::{Floats, PlacedFloat};
use serde_json::Value;
use test_scribe::{Fault, Scribe};
use viz_base::{Band, Clear, Extent, Quad, Side, World};
use viz_calc::Plain;

/// An arithmetic of one world; these cases name none of its lengths.
fn calc() -> Plain {
    Plain::new(World {
        w: 320,
        s: 16,
        h: 600,
    })
}

/// The side at a place of an array.
fn side_at(scribe: &mut Scribe, value: &Value, place: usize) -> Side {
    match scribe.text_at(value, place) {
        "Left" => Side::Left,
        "Right" => Side::Right,
        _ => {
            scribe.fail(Fault::NoCase);
            Side::Left
        }
    }
}

fn clear(scribe: &mut Scribe, case: &Value) -> Clear {
    match scribe.text_at(case, 2) {
        "Nothing" => Clear::Nothing,
        "Left" => Clear::Left,
        "Right" => Clear::Right,
        "Both" => Clear::Both,
        _ => {
            scribe.fail(Fault::NoCase);
            Clear::Nothing
        }
    }
}

/// A float that is placed: its side, and the left, top, right and bottom of its outer box.
fn placed(scribe: &mut Scribe, value: &Value) -> PlacedFloat<i128> {
    PlacedFloat {
        side: side_at(scribe, value, 0),
        outer: Quad {
            left: scribe.units_at(value, 1),
            top: scribe.units_at(value, 2),
            right: scribe.units_at(value, 3),
            bottom: scribe.units_at(value, 4),
        },
    }
}

/// The floats that stand in a list of a case.
fn floats_of(scribe: &mut Scribe, case: &Value) -> Floats<i128>
    ensures { result.ended ≡ None }
{
    let mut floats = Floats::new(scribe.alloc());
    for value in scribe.list_at(case, 1) {
        let placed = placed(scribe, value);
        scribe.put(&mut floats.placed, placed);
    }
    floats
}

/// The size at a place of an array.
fn extent_at(scribe: &mut Scribe, value: &Value, place: usize) -> Extent<i128> {
    let extent = scribe.at(value, place);
    Extent {
        width: scribe.units_at(extent, 0),
        height: scribe.units_at(extent, 1),
    }
}

/// The stretch at a place of an array.
fn stretch_at(scribe: &mut Scribe, value: &Value, place: usize) -> Band<i128> {
    let stretch = scribe.at(value, place);
    Band {
        left: scribe.units_at(stretch, 0),
        right: scribe.units_at(stretch, 1),
    }
}

/// Places one more float: its side, its size, its containing block and its highest top stand at a place of a value and
/// behind it.
fn place_one(
    scribe: &mut Scribe,
    calc: &mut Plain,
    floats: &mut Floats<i128>,
    value: &Value,
    place: usize,
)
    requires few { place ≤ 100 }
    requires agrees { Agree (λ n e. n) (plain_state calc.old.world).is_open floats.old }
    ensures { Agree (λ n e. n) (plain_state calc.new.world).is_open floats.new }
{
    let side = side_at(scribe, value, place);
    let size = extent_at(scribe, value, place + 1);
    let cb = stretch_at(scribe, value, place + 2);
    let top = scribe.units_at(value, place + 3);
    match floats.place(calc, side, &size, &cb, &top) {
        Ok(spot) => scribe.row(&[spot.x, spot.y]),
        Err(halt) => scribe.fail(halt.into()),
    }
}

/// The place of a float among others.
pub fn place(scribe: &mut Scribe, case: &Value) {
    let mut floats = floats_of(scribe, case);
    place_one(scribe, &mut calc(), &mut floats, case, 2);
}

/// The places of floats that come one after another.
pub fn place_all(scribe: &mut Scribe, case: &Value) {
    let mut calc = calc();
    let mut floats = Floats::new(scribe.alloc());
    scribe.open();
    for value in scribe.list_at(case, 1) {
        place_one(scribe, &mut calc, &mut floats, value, 0);
    }
    scribe.close();
}

/// What floats leave of a containing block in a span.
pub fn band(scribe: &mut Scribe, case: &Value) {
    let cb = stretch_at(scribe, case, 2);
    let top = scribe.units_at(case, 3);
    let height = scribe.units_at(case, 4);
    match floats_of(scribe, case).band(&mut calc(), &cb, &top, &height) {
        Ok(band) => scribe.row(&[band.left, band.right]),
        Err(halt) => scribe.fail(halt.into()),
    }
}

/// The lowest bottom of the floats that `clear` looks at, or null.
fn tell_bottom(scribe: &mut Scribe, floats: &Floats<i128>, clear: Clear) {
    match floats.bottom(&mut calc(), clear) {
        Ok(Some(bottom)) => scribe.number(bottom),
        Ok(None) => scribe.null(),
        Err(halt) => scribe.fail(halt.into()),
    }
}

/// The lowest bottom of the floats that `clear` looks at, in a copy of a list, or null.
pub fn bottom(scribe: &mut Scribe, case: &Value) {
    let clear = clear(scribe, case);
    let copy = floats_of(scribe, case).copy(&mut calc());
    if let Some(copy) = scribe.kept(copy) {
        tell_bottom(scribe, &copy, clear);
    }
}
