//! What floats leave between two heights, and the lowest bottom of those that `clear` looks at (CSS 2.1, 9.5, 9.5.2).
ghost use Rattle.std.specs.Prelude.{◌≡◌, ⊤, None, IsTrue, is_some, ◌||◌};
ghost use Rattle.viz_calc.specs.State.{WhereOpen};
ghost use Rattle.std.specs.List.{list_any};
ghost use Rattle.viz_calc.specs.World.{Reading};
ghost use Rattle.viz_calc.specs.Run.{Goes, Blames, Lays};
ghost use Rattle.viz_calc.specs.Renderings.{band_at};
ghost use Rattle.lay_float.specs.Readings.{box_at, boxes_at};
ghost use Rattle.lay_float.specs.steps.Bands.{meets_between, narrowed, room_beside, room_from, is_relevant_side, lower, lowest_from};
ghost use Rattle.lay_float.specs.steps.Lent.{lent_at, room_at};

use crate::extremes::tighter;
use crate::floats::PlacedFloat;
use crate::shelves::facing;
use viz_base::{Band, Clear, Side};
use viz_calc::{Steady, larger, smaller};

/// The stretch between two vertical edges, in units of 1/64 px.
#[derive(Drop)]
pub struct Room<'a, N> {
    /// The edge where it begins.
    pub left: &'a N,
    /// The edge where it ends, which may be left of the other.
    pub right: &'a N,
}

/// Whether a float meets the span between two heights.
pub fn meets_between<S: Steady>(
    calc: &mut S,
    y: &S::Num,
    end: &S::Num,
    f: &PlacedFloat<S::Num>,
) -> bool
    ensures { Lays S.run calc.old calc.new (λ e. result)
        (λ e. meets_between (S.at y.now e) (S.at end.now e) (box_at S.at f.now e)) (λ e. ⊤) }
{
    !calc.le(&f.outer.bottom, y)
        && !calc.le(end, &f.outer.top)
        && !calc.le(&f.outer.bottom, &f.outer.top)
}

/// What is left of a stretch beside a float of a side, with this edge.
fn narrowed<'a, S: Steady>(
    calc: &mut S,
    side: Side,
    edge: &'a S::Num,
    room: Room<'a, S::Num>,
) -> Room<'a, S::Num>
    ensures { Lays S.run calc.old calc.new (room_at S.at result)
        (λ e. narrowed side (S.at edge.now e) (room_at S.at room.entry e)) (λ e. ⊤) }
{
    let Room { left, right } = room;
    match side {
        Side::Left => {
            let left = larger(calc, edge, left);
            Room { left, right }
        }
        Side::Right => {
            let right = smaller(calc, edge, right);
            Room { left, right }
        }
    }
}

/// What is left of a stretch beside a float, where that meets the span between two heights.
#[tactic(auto, unfolding(crate::specs::steps::Bands::room_beside))]
fn room_beside<'a, S: Steady>(
    calc: &mut S,
    y: &S::Num,
    end: &S::Num,
    room: Room<'a, S::Num>,
    f: &'a PlacedFloat<S::Num>,
) -> Room<'a, S::Num>
    ensures { Lays S.run calc.old calc.new (room_at S.at result)
        (λ e. room_beside (S.at y.now e) (S.at end.now e) (room_at S.at room.entry e)
        (box_at S.at f.now e)) (λ e. ⊤) }
{
    if meets_between(calc, y, end, f) {
        narrowed(calc, f.side, facing(f), room)
    } else {
        room
    }
}

/// What floats leave of a containing block in the span between two heights (CSS 2.1, 9.5).
pub fn room_between<'a, S: Steady>(
    calc: &mut S,
    floats: &'a [PlacedFloat<S::Num>],
    cb: &'a Band<S::Num>,
    y: &S::Num,
    end: &S::Num,
) -> Room<'a, S::Num>
    ensures { Lays S.run calc.old calc.new (room_at S.at result)
        (λ e. room_from (S.at y.now e) (S.at end.now e) (boxes_at S.at floats.now e)
        (band_at S.at cb.now e)) (λ e. ⊤) }
{
    let mut room = Room {
        left: &cb.left,
        right: &cb.right,
    };
    for f in floats {
        room = room_beside(calc, y, end, room, f);
    }
    room
}

/// Whether any float meets the span between two heights.
pub fn any_between<S: Steady>(
    calc: &mut S,
    floats: &[PlacedFloat<S::Num>],
    y: &S::Num,
    end: &S::Num,
) -> bool
    ensures { Lays S.run calc.old calc.new (λ e. result)
        (λ e. list_any (meets_between (S.at y.now e) (S.at end.now e)) (boxes_at S.at floats.now e))
        (λ e. ⊤) }
{
    for f in floats {
        if meets_between(calc, y, end, f) {
            return true;
        }
    }
    false
}

/// Whether `clear` looks at floats of a side (CSS 2.1, 9.5.2).
fn is_relevant<N>(clear: Clear, f: &PlacedFloat<N>) -> bool
    ensures { result ≡ is_relevant_side clear f.now.side }
{
    match clear {
        Clear::Nothing => false,
        Clear::Left => matches!(f.side, Side::Left),
        Clear::Right => matches!(f.side, Side::Right),
        Clear::Both => true,
    }
}

/// The lower of a bottom and that of a float, where `clear` looks at it.
#[tactic(auto, unfolding(crate::specs::steps::Bands::lower))]
fn lower<'a, S: Steady>(
    calc: &mut S,
    clear: Clear,
    best: Option<&'a S::Num>,
    f: &'a PlacedFloat<S::Num>,
) -> Option<&'a S::Num>
    ensures goes { Goes (S.run calc.old) (S.run calc.new) }
    ensures value { WhereOpen (S.run calc.new).is_open
        (λ e. lent_at S.at result e ≡ lower clear (lent_at S.at best.entry e)
        (box_at S.at f.now e)) }
    ensures some { is_some result ≡ (is_some best.entry || is_relevant_side clear f.now.side) }
    ensures cause { Blames (S.run calc.old) (S.run calc.new) ⊤ }
{
    if is_relevant(clear, f) {
        tighter(calc, Side::Left, &f.outer.bottom, best)
    } else {
        best
    }
}

/// The lowest outer bottom of the floats that `clear` looks at, where there is one (CSS 2.1, 9.5.2).
pub fn lowest_bottom<'a, S: Steady>(
    calc: &mut S,
    floats: &'a [PlacedFloat<S::Num>],
    clear: Clear,
) -> Option<&'a S::Num>
    ensures goes { Goes (S.run calc.old) (S.run calc.new) }
    ensures value { WhereOpen (S.run calc.new).is_open
        (λ e. lent_at S.at result e ≡ lowest_from clear (boxes_at S.at floats.now e) None) }
    ensures some { is_some result ≡ list_any (λ f. is_relevant_side clear f.side) floats.now }
    ensures cause { Blames (S.run calc.old) (S.run calc.new) ⊤ }
{
    if matches!(clear, Clear::Nothing) {
        return None;
    }
    let mut best = None;
    for f in floats {
        best = lower(calc, clear, best, f);
    }
    best
}
