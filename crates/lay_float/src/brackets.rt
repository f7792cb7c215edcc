//! The highest place of a float among many: a top at which there is no place and a lower one at which there is are
//! brought together. From bottom to bottom a place is looked for only among few, where that asks the least.
ghost use Rattle.std.specs.Prelude.{◌≡◌, ◌≤◌, ⊤, IsTrue, length};
ghost use Rattle.viz_calc.specs.State.{WhereOpen};
ghost use Rattle.viz_calc.specs.World.{Reading};
ghost use Rattle.viz_calc.specs.Run.{Goes, Blames, Lays};
ghost use Rattle.viz_calc.specs.Renderings.{band_at};
ghost use Rattle.lay_float.specs.Readings.{box_at, boxes_at};
ghost use Rattle.lay_float.specs.steps.Lent.{place_at, bracket_at, FitsAnywhere, KeepsBrackets};
ghost use Rattle.lay_float.specs.steps.Shelves.{free_top, place_on};
ghost use Rattle.lay_float.specs.steps.Brackets.{is_settled, tried, visited, visited_all};

use crate::floats::PlacedFloat;
use crate::shelves::{Place, farthest, place_among_few, stand};
use viz_base::{Band, Side};
use viz_calc::Steady;

/// A float that is to stand among earlier ones, in units of 1/64 px.
#[derive(Drop)]
pub struct Wanted<'a, N> {
    /// The earlier floats.
    pub floats: &'a [PlacedFloat<N>],
    /// The side to which it floats.
    pub side: Side,
    /// Its outer width.
    pub width: &'a N,
    /// The edges of its containing block.
    pub cb: &'a Band<N>,
}

/// Between which tops the highest place is.
#[derive(Drop)]
pub struct Bracket<'a, N> {
    /// A top at which there is no place, nor above it.
    pub taken: &'a N,
    /// A place below that top, the highest that was found.
    pub found: Option<Place<'a, N>>,
}

/// Whether a bottom is not between the two tops, so that nothing is to be learnt there.
fn is_settled<S: Steady>(calc: &mut S, bracket: &Bracket<'_, S::Num>, bottom: &S::Num) -> bool
    ensures { Lays S.run calc.old calc.new (λ e. result)
        (λ e. is_settled (bracket_at S.at bracket.now e) (S.at bottom.now e)) (λ e. ⊤) }
{
    if calc.le(bottom, bracket.taken) {
        return true;
    }
    match &bracket.found {
        Some(place) => calc.le(place.top, bottom),
        None => false,
    }
}

/// A closer bracket, by a bottom between its two tops.
fn tried<'a, S: Steady>(
    calc: &mut S,
    wanted: &Wanted<'a, S::Num>,
    bracket: Bracket<'a, S::Num>,
    bottom: &'a S::Num,
) -> Bracket<'a, S::Num>
    ensures goes { Goes (S.run calc.old) (S.run calc.new) }
    ensures value { WhereOpen (S.run calc.new).is_open
        (λ e. bracket_at S.at result e
        ≡ tried (boxes_at S.at wanted.now.floats.now e) wanted.now.side
        (S.at wanted.now.width.now e) (band_at S.at wanted.now.cb.now e)
        (bracket_at S.at bracket.entry e) (S.at bottom.now e)) }
    ensures cause { Blames (S.run calc.old) (S.run calc.new) (FitsAnywhere (S.run calc.old) S.at wanted.now.floats.now
        wanted.now.side wanted.now.cb.now wanted.now.width.now) }
{
    let Bracket { taken, found } = bracket;
    match stand(
        calc,
        wanted.floats,
        wanted.side,
        wanted.width,
        wanted.cb,
        bottom,
    ) {
        Some(edge) => Bracket {
            taken,
            found: Some(Place { top: bottom, edge }),
        },
        None => Bracket {
            taken: bottom,
            found,
        },
    }
}

/// A closer bracket, by the bottom of a float, if that is between its two tops.
#[tactic(auto, unfolding(crate::specs::steps::Brackets::visited))]
fn visited<'a, S: Steady>(
    calc: &mut S,
    wanted: &Wanted<'a, S::Num>,
    bracket: Bracket<'a, S::Num>,
    f: &'a PlacedFloat<S::Num>,
) -> Bracket<'a, S::Num>
    ensures goes { Goes (S.run calc.old) (S.run calc.new) }
    ensures value { WhereOpen (S.run calc.new).is_open
        (λ e. bracket_at S.at result e
        ≡ visited (boxes_at S.at wanted.now.floats.now e) wanted.now.side
        (S.at wanted.now.width.now e) (band_at S.at wanted.now.cb.now e)
        (bracket_at S.at bracket.entry e) (box_at S.at f.now e)) }
    ensures cause { Blames (S.run calc.old) (S.run calc.new) (FitsAnywhere (S.run calc.old) S.at wanted.now.floats.now
        wanted.now.side wanted.now.cb.now wanted.now.width.now) }
{
    if is_settled(calc, &bracket, &f.outer.bottom) {
        bracket
    } else {
        tried(calc, wanted, bracket, &f.outer.bottom)
    }
}

/// A closer bracket, by the float with this number, if there is one.
fn visited_at<'a, S: Steady>(
    calc: &mut S,
    wanted: &Wanted<'a, S::Num>,
    bracket: Bracket<'a, S::Num>,
    index: usize,
) -> Bracket<'a, S::Num>
    ensures goes { Goes (S.run calc.old) (S.run calc.new) }
    ensures value { WhereOpen (S.run calc.new).is_open
        (λ e. KeepsBrackets S.at wanted.now e (bracket_at S.at bracket.entry e)
        (bracket_at S.at result e)) }
    ensures cause { Blames (S.run calc.old) (S.run calc.new) (FitsAnywhere (S.run calc.old) S.at wanted.now.floats.now
        wanted.now.side wanted.now.cb.now wanted.now.width.now) }
{
    match wanted.floats.get(index) {
        Some(f) => visited(calc, wanted, bracket, f),
        None => bracket,
    }
}

/// The number of the next sample of so many floats, and how far apart samples are: they come closer whenever the
/// end is reached, so that those of an ordered list halve what is left of it.
fn next_sample(count: usize, index: usize, apart: usize) -> (usize, usize)
    ensures closer { result.1 ≤ apart }
{
    let next = index.saturating_add(apart);
    if next < count {
        (next, apart)
    } else {
        (apart / 2, apart / 2)
    }
}

/// A closer bracket, by samples of the floats.
fn sampled<'a, S: Steady>(
    calc: &mut S,
    wanted: &Wanted<'a, S::Num>,
    bracket: Bracket<'a, S::Num>,
) -> Bracket<'a, S::Num>
    ensures goes { Goes (S.run calc.old) (S.run calc.new) }
    ensures value { WhereOpen (S.run calc.new).is_open
        (λ e. KeepsBrackets S.at wanted.now e (bracket_at S.at bracket.entry e)
        (bracket_at S.at result e)) }
    ensures cause { Blames (S.run calc.old) (S.run calc.new) (FitsAnywhere (S.run calc.old) S.at wanted.now.floats.now
        wanted.now.side wanted.now.cb.now wanted.now.width.now) }
{
    let count = wanted.floats.len();
    let mut closer = bracket;
    let mut sample = (0, count / 2);
    for passed in 0..count {
        closer = visited_at(calc, wanted, closer, sample.0);
        sample = next_sample(count, sample.0, sample.1);
    }
    closer
}

/// The closest bracket: no float's bottom is between its two tops.
fn closed<'a, S: Steady>(
    calc: &mut S,
    wanted: &Wanted<'a, S::Num>,
    bracket: Bracket<'a, S::Num>,
) -> Bracket<'a, S::Num>
    ensures goes { Goes (S.run calc.old) (S.run calc.new) }
    ensures value { WhereOpen (S.run calc.new).is_open
        (λ e. bracket_at S.at result e
        ≡ visited_all (boxes_at S.at wanted.now.floats.now e) wanted.now.side
        (S.at wanted.now.width.now e) (band_at S.at wanted.now.cb.now e)
        (boxes_at S.at wanted.now.floats.now e) (bracket_at S.at bracket.entry e)) }
    ensures cause { Blames (S.run calc.old) (S.run calc.new) (FitsAnywhere (S.run calc.old) S.at wanted.now.floats.now
        wanted.now.side wanted.now.cb.now wanted.now.width.now) }
{
    let mut closer = bracket;
    for f in wanted.floats {
        closer = visited(calc, wanted, closer, f);
    }
    closer
}

/// The highest place from a top downwards among many floats; no float's top is below that top.
fn place_among_many<'a, S: Steady>(
    calc: &mut S,
    wanted: &Wanted<'a, S::Num>,
    high: &'a S::Num,
) -> Place<'a, S::Num>
    ensures goes { Goes (S.run calc.old) (S.run calc.new) }
    ensures value { WhereOpen (S.run calc.new).is_open
        (λ e. place_at S.at result e ≡ place_on
        (boxes_at S.at wanted.now.floats.now e) wanted.now.side (band_at S.at wanted.now.cb.now e)
        (free_top (length wanted.now.floats.now)
        (boxes_at S.at wanted.now.floats.now e) wanted.now.side (S.at wanted.now.width.now e)
        (band_at S.at wanted.now.cb.now e) (S.at high.now e))) }
    ensures cause { Blames (S.run calc.old) (S.run calc.new) (FitsAnywhere (S.run calc.old) S.at wanted.now.floats.now
        wanted.now.side wanted.now.cb.now wanted.now.width.now) }
{
    let Wanted {
        floats,
        side,
        width,
        cb,
    } = *wanted;
    if let Some(edge) = stand(calc, floats, side, width, cb, high) {
        return Place { top: high, edge };
    }
    let first = Bracket {
        taken: high,
        found: None,
    };
    let sampled = sampled(calc, wanted, first);
    let Bracket { taken, found } = closed(calc, wanted, sampled);
    match found {
        Some(place) => place,
        None => farthest(calc, floats, side, cb, taken),
    }
}

/// As many floats as these are walked from bottom to bottom.
const FEW: usize = 16;

/// The highest place from a top downwards; no float's top is below that top.
pub fn free_place<'a, S: Steady>(
    calc: &mut S,
    floats: &'a [PlacedFloat<S::Num>],
    side: Side,
    width: &'a S::Num,
    cb: &'a Band<S::Num>,
    high: &'a S::Num,
) -> Place<'a, S::Num>
    ensures goes { Goes (S.run calc.old) (S.run calc.new) }
    ensures value { WhereOpen (S.run calc.new).is_open
        (λ e. place_at S.at result e ≡ place_on (boxes_at S.at floats.now e) side
        (band_at S.at cb.now e) (free_top (length floats.now) (boxes_at S.at floats.now e) side
        (S.at width.now e) (band_at S.at cb.now e) (S.at high.now e))) }
    ensures cause { Blames (S.run calc.old) (S.run calc.new)
        (FitsAnywhere (S.run calc.old) S.at floats.now side cb.now width.now) }
{
    if floats.len() <= FEW {
        return place_among_few(calc, floats, side, width, cb, high);
    }
    let wanted = Wanted {
        floats,
        side,
        width,
        cb,
    };
    place_among_many(calc, &wanted, high)
}
