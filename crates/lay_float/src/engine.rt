//! Floats over arithmetic that goes on after a halt, for crates whose own work is over such arithmetic too.
ghost use Rattle.std.specs.Prelude.{◌≡◌, ◌-◌, ◌≤◌, ℕ, ◌+ℤ◌, ◌∷◌, [], ◌++◌, ⊤, Some, None, IsTrue, IfSome, is_some, length, drop, slice_get};
ghost use Rattle.std.specs.List.{list_any};
ghost use Rattle.std.specs.Option.{option_to_list};
ghost use Rattle.viz_calc.specs.World.{Reading};
ghost use Rattle.viz_calc.specs.State.{AllSmall, WhereOpen};
ghost use Rattle.viz_calc.specs.Run.{Goes, Blames, BlamesButMem, Lays, LaysButMem};
ghost use Rattle.viz_calc.specs.Renderings.{spot_at, band_at as stretch_at};
ghost use Rattle.layout_semantics.specs.Extremes.{greatest_from};
ghost use Rattle.layout_semantics.specs.Floats.{placed_float, highest_top, float_at, float_top, meets, band_at, is_relevant, lowest_bottom};
ghost use Rattle.lay_float.specs.Agreement.{Agree, IsLevel};
ghost use Rattle.lay_float.specs.Limits.{AreHalf};
ghost use Rattle.lay_float.specs.Places.{IsHighest};
ghost use Rattle.lay_float.specs.Readings.{box_at, boxes_at, floats_at, extent_at, option_at};
ghost use Rattle.lay_float.specs.steps.Lent.{lent_at, place_at, ahead_at};
ghost use Rattle.lay_float.specs.steps.Shelves.{spot_on, ahead_of};

use crate::bands::{any_between, room_between};
use crate::brackets::free_place;
use crate::floats::{Floats, PlacedFloat};
use crate::shelves::{Place, open_from};
use std::alloc::Global;
use viz_base::{Band, Clear, Extent, List, Quad, Side, Spot};
use viz_calc::{Steady, larger};

/// The highest top that the order of floats allows (CSS 2.1, 9.5.1, rules 4 to 6).
fn highest_top<'a, S: Steady>(
    calc: &mut S,
    floats: &'a [PlacedFloat<S::Num>],
    top: &'a S::Num,
) -> &'a S::Num
    ensures { Lays S.run calc.old calc.new (S.at result.now)
        (λ e. highest_top (boxes_at S.at floats.now e) (S.at top.now e)) (λ e. ⊤) }
{
    let mut best = top;
    for f in floats {
        best = larger(calc, &f.outer.top, best);
    }
    best
}

/// The floats behind so many.
fn behind<N>(floats: &[PlacedFloat<N>], count: usize) -> &[PlacedFloat<N>]
    ensures { result.now ≡ drop count floats.now }
{
    match floats.split_at_checked(count) {
        Some((_, rest)) => rest,
        None => &[],
    }
}

/// What a float finds that is placed behind others.
#[derive(Drop)]
pub struct Ahead<'a, N> {
    /// The highest top that it may have.
    pub high: &'a N,
    /// The floats from the first one on that ends below that top.
    pub rest: &'a [PlacedFloat<N>],
}

/// The last of these floats, and those behind the first ones that have ended, where that is known.
fn known<N>(floats: &Floats<N>) -> Option<(&PlacedFloat<N>, &[PlacedFloat<N>])>
    ensures { IfSome result (λ k. (slice_get floats.now.placed (length floats.now.placed - 1)
        ≡ Some k.0.now) × (ended : ℕ) × (floats.now.ended ≡ Some ended)
        × (k.1.now ≡ drop ended floats.now.placed)) }
{
    let all = floats.placed.as_slice();
    match (all.last(), floats.ended) {
        (Some(last), Some(ended)) => Some((last, behind(all, ended))),
        _ => None,
    }
}

/// What a float finds behind floats.
fn ahead_of<'a, S: Steady>(
    calc: &mut S,
    floats: &'a Floats<S::Num>,
    top: &'a S::Num,
) -> Ahead<'a, S::Num>
    requires { Agree S.at (S.run calc.old).is_open floats.now }
    ensures { Lays S.run calc.old calc.new (ahead_at S.at result)
        (λ e. ahead_of (floats_at S.at floats.now e) (S.at top.now e)) (λ e. ⊤) }
{
    match known(floats) {
        Some((last, others)) => {
            // Tops only go down, so those that ended above the last one's top aren't looked at again.
            let high = larger(calc, &last.outer.top, top);
            let rest = open_from(calc, others, high);
            Ahead { high, rest }
        }
        None => {
            let all = floats.placed.as_slice();
            let high = highest_top(calc, all, top);
            let rest = open_from(calc, all, high);
            Ahead { high, rest }
        }
    }
}

/// The outer left upper corner of a float of this width that stands at a place.
fn spot_on<S: Steady>(
    calc: &mut S,
    side: Side,
    width: &S::Num,
    place: &Place<'_, S::Num>,
) -> Spot<S::Num>
    ensures { Lays S.run calc.old calc.new (spot_at S.at result)
        (λ e. spot_on side (S.at width.now e) (place_at S.at place.now e))
        (λ e. AllSmall ((spot_on side (S.at width.now e) (place_at S.at place.now e)).x
        ∷ S.at place.now.top.now e ∷ [])) }
{
    let x = match side {
        Side::Left => calc.copy(place.edge),
        Side::Right => calc.sub(place.edge, width),
    };
    let y = calc.copy(place.top);
    Spot { x, y }
}

/// The place of a float among earlier ones: the highest that the rules allow with its top not above `top`, and
/// then the farthest to its side (CSS 2.1, 9.5.1).
pub fn float_at<S: Steady>(
    calc: &mut S,
    floats: &[PlacedFloat<S::Num>],
    side: Side,
    size: &Extent<S::Num>,
    cb: &Band<S::Num>,
    top: &S::Num,
) -> Spot<S::Num>
    ensures { Lays S.run calc.old calc.new (spot_at S.at result)
        (λ e. float_at (boxes_at S.at floats.now e) side (extent_at S.at size.now e)
        (stretch_at S.at cb.now e) (S.at top.now e))
        (λ e. AreHalf (boxes_at S.at floats.now e)
        (S.at size.now.width e ∷ S.at cb.now.left e ∷ S.at cb.now.right e ∷ S.at top.now e ∷ [])) }
{
    let high = highest_top(calc, floats, top);
    // Tops only go down: what ends above the first top that is tried meets none of them.
    let rest = open_from(calc, floats, high);
    let place = free_place(calc, rest, side, &size.width, cb, high);
    spot_on(calc, side, &size.width, &place)
}

/// Where a float stands that is placed behind others.
#[derive(Drop)]
pub struct Found<N> {
    /// The upper left corner of its outer box, in units of 1/64 px.
    pub spot: Spot<N>,
    /// How many of the first floats end above its top.
    pub ended: usize,
}

/// The place of a float behind floats: the highest that the rules allow with its top not above `top`, and then the
/// farthest to its side (CSS 2.1, 9.5.1).
fn spot_behind<S: Steady>(
    calc: &mut S,
    floats: &Floats<S::Num>,
    side: Side,
    size: &Extent<S::Num>,
    cb: &Band<S::Num>,
    top: &S::Num,
) -> Found<S::Num>
    requires { Agree S.at (S.run calc.old).is_open floats.now }
    ensures goes { Goes (S.run calc.old) (S.run calc.new) }
    ensures value { WhereOpen (S.run calc.new).is_open
        (λ e. spot_at S.at result.spot e
        ≡ float_at (floats_at S.at floats.now e) side (extent_at S.at size.now e)
        (stretch_at S.at cb.now e) (S.at top.now e)) }
    ensures level { WhereOpen (S.run calc.new).is_open
        (λ e. IsLevel (floats_at S.at floats.now e) result.ended (S.at result.spot.y e)) }
    ensures within { result.ended ≤ length floats.now.placed }
    ensures cause { Blames (S.run calc.old) (S.run calc.new) (WhereOpen (S.run calc.old).is_open
        (λ e. AreHalf (floats_at S.at floats.now e)
        (S.at size.now.width e ∷ S.at cb.now.left e ∷ S.at cb.now.right e ∷ S.at top.now e ∷ []))) }
{
    let Ahead { high, rest } = ahead_of(calc, floats, top);
    let place = free_place(calc, rest, side, &size.width, cb, high);
    let spot = spot_on(calc, side, &size.width, &place);
    Found {
        spot,
        ended: floats.placed.len().saturating_sub(rest.len()),
    }
}

/// The outer box of a float that stands at a place.
fn outer_box<S: Steady>(
    calc: &mut S,
    side: Side,
    size: &Extent<S::Num>,
    spot: &Spot<S::Num>,
) -> PlacedFloat<S::Num>
    ensures { Lays S.run calc.old calc.new (box_at S.at result)
        (λ e. placed_float side (extent_at S.at size.now e) (spot_at S.at spot.now e))
        (λ e. AllSmall
        (S.at spot.now.x e ∷ S.at spot.now.y e ∷ (S.at spot.now.x e +ℤ S.at size.now.width e)
        ∷ (S.at spot.now.y e +ℤ S.at size.now.height e) ∷ [])) }
{
    let left = calc.copy(&spot.x);
    let top = calc.copy(&spot.y);
    let right = calc.add(&spot.x, &size.width);
    let bottom = calc.add(&spot.y, &size.height);
    PlacedFloat {
        side,
        outer: Quad {
            left,
            top,
            right,
            bottom,
        },
    }
}

/// Puts a float after those that were placed before, and tells how many of these have ended; after a halt the list is
/// as it was.
fn append<S: Steady>(
    calc: &mut S,
    floats: &mut Floats<S::Num>,
    placed: PlacedFloat<S::Num>,
    ended: Option<usize>,
)
    ensures goes { Goes (S.run calc.old) (S.run calc.new) }
    ensures value { WhereOpen (S.run calc.new).is_open
        (λ e. floats.new.placed ≡ floats.old.placed ++ placed ∷ []) }
    ensures ended { WhereOpen (S.run calc.new).is_open (λ e. floats.new.ended ≡ ended) }
    ensures halted { IsTrue (is_some (S.run calc.new).halt) → floats.new ≡ floats.old }
    ensures cause { BlamesButMem (S.run calc.old) (S.run calc.new) ⊤ }
{
    if calc.is_halted() {
        // nothing stands for anything any more, as `stop` says
        calc.stop();
        return;
    }
    match floats.placed.push(placed) {
        Ok(()) => floats.ended = ended,
        Err(_) => calc.stop(),
    }
}

/// Places a float after those that were placed before, and gives its place: the highest that the rules allow
/// with its top not above `top`, and then the farthest to its side (CSS 2.1, 9.5.1). After a halt the list is
/// as it was.
pub fn place<S: Steady>(
    calc: &mut S,
    floats: &mut Floats<S::Num>,
    side: Side,
    size: &Extent<S::Num>,
    cb: &Band<S::Num>,
    top: &S::Num,
) -> Spot<S::Num>
    requires { Agree S.at (S.run calc.old).is_open floats.old }
    ensures goes { Goes (S.run calc.old) (S.run calc.new) }
    ensures value { WhereOpen (S.run calc.new).is_open
        (λ e. spot_at S.at result e ≡ float_at (floats_at S.at floats.old e) side
        (extent_at S.at size.now e) (stretch_at S.at cb.now e) (S.at top.now e)) }
    ensures highest { WhereOpen (S.run calc.new).is_open
        (λ e. IsHighest (floats_at S.at floats.old e) side (S.at size.now.width e)
        (stretch_at S.at cb.now e) (S.at top.now e) (spot_at S.at result e)) }
    ensures appended { WhereOpen (S.run calc.new).is_open
        (λ e. floats_at S.at floats.new e
        ≡ floats_at S.at floats.old e ++ placed_float side (extent_at S.at size.now e)
        (spot_at S.at result e) ∷ []) }
    ensures halted { IsTrue (is_some (S.run calc.new).halt) → floats.new ≡ floats.old }
    ensures cause { BlamesButMem (S.run calc.old) (S.run calc.new)
        (WhereOpen (S.run calc.old).is_open
        (λ e. AreHalf (floats_at S.at floats.old e)
        (S.at size.now.width e ∷ S.at size.now.height e ∷ S.at cb.now.left e ∷ S.at cb.now.right e
        ∷ S.at top.now e ∷ []))) }
    ensures agrees { Agree S.at (S.run calc.new).is_open floats.new }
{
    let Found { spot, ended } = spot_behind(calc, floats, side, size, cb, top);
    let placed = outer_box(calc, side, size, &spot);
    append(calc, floats, placed, Some(ended));
    spot
}

/// What floats leave of a containing block in the span of height `h` from `y` on; it may end before it begins
/// (CSS 2.1, 9.5).
pub fn band<S: Steady>(
    calc: &mut S,
    floats: &[PlacedFloat<S::Num>],
    cb: &Band<S::Num>,
    y: &S::Num,
    h: &S::Num,
) -> Band<S::Num>
    ensures { Lays S.run calc.old calc.new (stretch_at S.at result)
        (λ e. band_at (boxes_at S.at floats.now e) (stretch_at S.at cb.now e) (S.at y.now e)
        (S.at h.now e)) (λ e. AreHalf (boxes_at S.at floats.now e)
        (S.at cb.now.left e ∷ S.at cb.now.right e ∷ S.at y.now e ∷ S.at h.now e ∷ [])) }
{
    let end = calc.add(y, h);
    let room = room_between(calc, floats, cb, y, &end);
    let left = calc.copy(room.left);
    let right = calc.copy(room.right);
    Band { left, right }
}

/// Whether any float meets the span of height `h` from `y` on. It is to be asked before whether a stretch fits
/// beside floats.
pub fn meets_any<S: Steady>(
    calc: &mut S,
    floats: &[PlacedFloat<S::Num>],
    y: &S::Num,
    h: &S::Num,
) -> bool
    ensures { Lays S.run calc.old calc.new (λ e. result)
        (λ e. list_any (meets (S.at y.now e) (S.at h.now e)) (boxes_at S.at floats.now e))
        (λ e. AllSmall ((S.at y.now e +ℤ S.at h.now e) ∷ [])) }
{
    let end = calc.add(y, h);
    any_between(calc, floats, y, &end)
}

/// The lowest outer bottom of the floats that `clear` looks at; none exactly where it looks at none (CSS 2.1,
/// 9.5.2).
pub fn bottom<S: Steady>(
    calc: &mut S,
    floats: &[PlacedFloat<S::Num>],
    clear: Clear,
) -> Option<S::Num>
    ensures goes { Goes (S.run calc.old) (S.run calc.new) }
    ensures value { WhereOpen (S.run calc.new).is_open
        (λ e. option_at S.at result e ≡ lowest_bottom clear (boxes_at S.at floats.now e)) }
    ensures some { (e : Reading) → is_some result
        ≡ list_any (is_relevant clear) (boxes_at S.at floats.now e) }
    ensures cause { Blames (S.run calc.old) (S.run calc.new) (WhereOpen (S.run calc.old).is_open
        (λ e. AreHalf (boxes_at S.at floats.now e) [])) }
{
    match crate::bands::lowest_bottom(calc, floats, clear) {
        Some(bottom) => Some(calc.copy(bottom)),
        None => None,
    }
}

/// The lowest of y and the outer bottoms of the floats that `clear` looks at (CSS 2.1, 9.5.2).
fn lowest_or<'a, S: Steady>(
    calc: &mut S,
    floats: &'a [PlacedFloat<S::Num>],
    clear: Clear,
    y: &'a S::Num,
) -> &'a S::Num
    ensures { Lays S.run calc.old calc.new (S.at result.now)
        (λ e. greatest_from (S.at y.now e)
        (option_to_list (lowest_bottom clear (boxes_at S.at floats.now e)))) (λ e. ⊤) }
{
    match crate::bands::lowest_bottom(calc, floats, clear) {
        Some(below) => larger(calc, below, y),
        None => y,
    }
}

/// The highest top that a float with this `clear` may have that comes at y: not above `least`, if there is one, nor
/// above the outer bottoms of the earlier floats that `clear` looks at (CSS 2.1, 9.5.1, rules 5 and 6; 9.5.2).
pub fn float_top<S: Steady>(
    calc: &mut S,
    floats: &[PlacedFloat<S::Num>],
    clear: Clear,
    least: Option<&S::Num>,
    y: &S::Num,
) -> S::Num
    ensures { Lays S.run calc.old calc.new (S.at result)
        (λ e. float_top clear (boxes_at S.at floats.now e) (lent_at S.at least.entry e)
        (S.at y.now e)) (λ e. AreHalf (boxes_at S.at floats.now e)
        (S.at y.now e ∷ option_to_list (lent_at S.at least.entry e))) }
{
    // Lines and blocks ask here alike, so that `clear` on a float means one thing.
    let lowest = lowest_or(calc, floats, clear, y);
    match least {
        Some(least) => {
            let top = larger(calc, least, lowest);
            calc.copy(top)
        }
        None => calc.copy(lowest),
    }
}

/// A copy of a float.
fn copy_float<S: Steady>(calc: &mut S, f: &PlacedFloat<S::Num>) -> PlacedFloat<S::Num>
    ensures { Lays S.run calc.old calc.new (box_at S.at result) (box_at S.at f.now)
        (λ e. AllSmall (S.at f.now.outer.left e ∷ S.at f.now.outer.top e ∷ S.at f.now.outer.right e
        ∷ S.at f.now.outer.bottom e ∷ [])) }
{
    let left = calc.copy(&f.outer.left);
    let top = calc.copy(&f.outer.top);
    let right = calc.copy(&f.outer.right);
    let bottom = calc.copy(&f.outer.bottom);
    PlacedFloat {
        side: f.side,
        outer: Quad {
            left,
            top,
            right,
            bottom,
        },
    }
}

/// A copy of floats, which doesn't tell how many of them have ended.
pub fn copy<S: Steady>(
    alloc: Global,
    calc: &mut S,
    floats: &[PlacedFloat<S::Num>],
) -> Floats<S::Num>
    ensures goes { Goes (S.run calc.old) (S.run calc.new) }
    ensures value { WhereOpen (S.run calc.new).is_open
        (λ e. floats_at S.at result e ≡ boxes_at S.at floats.now e) }
    ensures cause { BlamesButMem (S.run calc.old) (S.run calc.new)
        (WhereOpen (S.run calc.old).is_open (λ e. AreHalf (boxes_at S.at floats.now e) [])) }
    ensures ended { result.ended ≡ None }
{
    let mut out = Floats::new(alloc);
    for f in floats {
        let copied = copy_float(calc, f);
        append(calc, &mut out, copied, None);
    }
    out.ended = None;
    out
}
