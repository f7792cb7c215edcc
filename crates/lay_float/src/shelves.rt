//! What floats leave at a top for one more, and the highest place for it, from bottom to bottom (CSS 2.1, 9.5.1).
ghost use Rattle.std.specs.Prelude.{◌≡◌, ⊤, ◌∷◌, [], None, IsTrue, length};
ghost use Rattle.viz_calc.specs.World.{Reading};
ghost use Rattle.viz_calc.specs.State.{AllSmall, WhereOpen};
ghost use Rattle.viz_calc.specs.Run.{Goes, Blames, Lays};
ghost use Rattle.viz_calc.specs.Renderings.{band_at};
ghost use Rattle.lay_float.specs.Readings.{box_at, boxes_at};
ghost use Rattle.lay_float.specs.steps.Lent.{lent_at, shelf_at, place_at, FitsAnywhere};
ghost use Rattle.lay_float.specs.steps.Shelves.{opposite, facing, side_edge, is_same_side, set_beside, with_float, shelf_on, limit_of, far_edge, reaches_to, stays_within, is_free, sooner, soonest, next_top, stand, place_on, free_top, open_from};

use crate::extremes::{innermost, tighter};
use crate::floats::PlacedFloat;
use viz_base::{Band, Side};
use viz_calc::Steady;

/// What floats leave at a top for a float of one side.
#[derive(Drop)]
pub struct Shelf<'a, N> {
    /// The edge at which the float would stand.
    pub edge: &'a N,
    /// The edge that it may not pass because of floats of the other side.
    pub limit: Option<&'a N>,
    /// Whether it is next to a float of its own side, and so may not pass its containing block's other edge.
    pub is_bounded: bool,
}

/// The place of a float that is looked for.
#[derive(Drop)]
pub struct Place<'a, N> {
    /// Its top.
    pub top: &'a N,
    /// The edge at which it stands: on the left of a left float, on the right of a right one.
    pub edge: &'a N,
}

/// The other side.
fn opposite(side: Side) -> Side
    ensures { result ≡ opposite side }
{
    match side {
        Side::Left => Side::Right,
        Side::Right => Side::Left,
    }
}

/// Whether two sides are the same.
fn is_same_side(a: Side, b: Side) -> bool
    ensures { result ≡ is_same_side a b }
{
    matches!(
        (a, b),
        (Side::Left, Side::Left) | (Side::Right, Side::Right)
    )
}

/// The edge of a float that faces the content.
pub fn facing<N>(f: &PlacedFloat<N>) -> &N
    ensures { result.now ≡ facing f.now.side f.now.outer }
{
    match f.side {
        Side::Left => &f.outer.right,
        Side::Right => &f.outer.left,
    }
}

/// An edge of a containing block.
pub fn side_edge<N>(cb: &Band<N>, side: Side) -> &N
    ensures { result.now ≡ side_edge side cb.now }
{
    match side {
        Side::Left => &cb.left,
        Side::Right => &cb.right,
    }
}

/// A shelf with one float more on it.
fn set_beside<'a, S: Steady>(
    calc: &mut S,
    side: Side,
    shelf: Shelf<'a, S::Num>,
    f: &'a PlacedFloat<S::Num>,
) -> Shelf<'a, S::Num>
    ensures { Lays S.run calc.old calc.new (shelf_at S.at result)
        (λ e. set_beside side (shelf_at S.at shelf.entry e) (box_at S.at f.now e)) (λ e. ⊤) }
{
    let inner = facing(f);
    let Shelf {
        edge,
        limit,
        is_bounded,
    } = shelf;
    if is_same_side(f.side, side) {
        // Rule 2: next to an earlier float of its own side. Rule 7 then keeps it within the containing block.
        let edge = innermost(calc, side, inner, edge);
        Shelf {
            edge,
            limit,
            is_bounded: true,
        }
    } else {
        // Rule 3: it may not pass the edge of a float of the other side.
        let limit = tighter(calc, f.side, inner, limit);
        Shelf {
            edge,
            limit,
            is_bounded,
        }
    }
}

/// A shelf with one float more, where that ends below the top.
#[tactic(auto, unfolding(crate::specs::steps::Shelves::with_float))]
fn with_float<'a, S: Steady>(
    calc: &mut S,
    side: Side,
    y: &S::Num,
    shelf: Shelf<'a, S::Num>,
    f: &'a PlacedFloat<S::Num>,
) -> Shelf<'a, S::Num>
    ensures { Lays S.run calc.old calc.new (shelf_at S.at result)
        (λ e. with_float side (S.at y.now e) (shelf_at S.at shelf.entry e) (box_at S.at f.now e))
        (λ e. ⊤) }
{
    // The bottom alone is asked: no top is below the height that is tried.
    if calc.le(&f.outer.bottom, y) {
        shelf
    } else {
        set_beside(calc, side, shelf, f)
    }
}

/// What floats leave at a top for a float of this side; their tops are not below it.
fn shelf_on<'a, S: Steady>(
    calc: &mut S,
    floats: &'a [PlacedFloat<S::Num>],
    side: Side,
    cb: &'a Band<S::Num>,
    y: &S::Num,
) -> Shelf<'a, S::Num>
    ensures { Lays S.run calc.old calc.new (shelf_at S.at result)
        (λ e. shelf_on (boxes_at S.at floats.now e) side (band_at S.at cb.now e) (S.at y.now e))
        (λ e. ⊤) }
{
    let mut shelf = Shelf {
        edge: side_edge(cb, side),
        limit: None,
        is_bounded: false,
    };
    for f in floats {
        shelf = with_float(calc, side, y, shelf, f);
    }
    shelf
}

/// The edge that a float on a shelf may not pass, if any.
fn limit_of<'a, S: Steady>(
    calc: &mut S,
    side: Side,
    cb: &'a Band<S::Num>,
    limit: Option<&'a S::Num>,
    is_bounded: bool,
) -> Option<&'a S::Num>
    ensures { Lays S.run calc.old calc.new (lent_at S.at result)
        (λ e. limit_of side (band_at S.at cb.now e) is_bounded (lent_at S.at limit.entry e))
        (λ e. ⊤) }
{
    // Rule 7 binds only a float with another of its side before it: a wide one alone may stick out.
    if is_bounded {
        let other = opposite(side);
        tighter(calc, other, side_edge(cb, other), limit)
    } else {
        limit
    }
}

/// The other edge of a float that stands at an edge.
fn far_edge<S: Steady>(calc: &mut S, side: Side, edge: &S::Num, width: &S::Num) -> S::Num
    ensures { Lays S.run calc.old calc.new (S.at result)
        (λ e. far_edge side (S.at edge.now e) (S.at width.now e))
        (λ e. AllSmall (far_edge side (S.at edge.now e) (S.at width.now e) ∷ [])) }
{
    match side {
        Side::Left => calc.add(edge, width),
        Side::Right => calc.sub(edge, width),
    }
}

/// Whether an edge does not pass a limit.
fn reaches_to<S: Steady>(calc: &mut S, side: Side, edge: &S::Num, limit: &S::Num) -> bool
    ensures { Lays S.run calc.old calc.new (λ e. result)
        (λ e. reaches_to side (S.at edge.now e) (S.at limit.now e)) (λ e. ⊤) }
{
    match side {
        Side::Left => calc.le(edge, limit),
        Side::Right => calc.le(limit, edge),
    }
}

/// Whether a float at an edge stays within a limit, if any.
fn stays_within<S: Steady>(
    calc: &mut S,
    side: Side,
    width: &S::Num,
    edge: &S::Num,
    limit: Option<&S::Num>,
) -> bool
    ensures { Lays S.run calc.old calc.new (λ e. result)
        (λ e. stays_within side (far_edge side (S.at edge.now e) (S.at width.now e))
        (lent_at S.at limit.entry e)) (λ e. AllSmall
        (far_edge side (S.at edge.now e) (S.at width.now e) ∷ [])) }
{
    match limit {
        None => true,
        Some(limit) => {
            // One comparison, with the innermost edge that it may not pass, however many floats there are.
            let far = far_edge(calc, side, edge, width);
            reaches_to(calc, side, &far, limit)
        }
    }
}

/// Whether a float of this width stands on a shelf.
fn is_free<'a, S: Steady>(
    calc: &mut S,
    side: Side,
    width: &S::Num,
    cb: &'a Band<S::Num>,
    shelf: &Shelf<'a, S::Num>,
) -> bool
    ensures { Lays S.run calc.old calc.new (λ e. result)
        (λ e. is_free side (S.at width.now e) (band_at S.at cb.now e) (shelf_at S.at shelf.now e))
        (λ e. AllSmall (far_edge side (S.at shelf.now.edge.now e) (S.at width.now e) ∷ [])) }
{
    let limit = limit_of(calc, side, cb, shelf.limit, shelf.is_bounded);
    stays_within(calc, side, width, shelf.edge, limit)
}

/// The higher of a bottom and a float's bottom, where that is below the top.
#[tactic(auto, unfolding(crate::specs::steps::Shelves::sooner))]
fn sooner<'a, S: Steady>(
    calc: &mut S,
    y: &S::Num,
    best: Option<&'a S::Num>,
    f: &'a PlacedFloat<S::Num>,
) -> Option<&'a S::Num>
    ensures { Lays S.run calc.old calc.new (lent_at S.at result)
        (λ e. sooner (S.at y.now e) (lent_at S.at best.entry e) (box_at S.at f.now e)) (λ e. ⊤) }
{
    if calc.le(&f.outer.bottom, y) {
        best
    } else {
        tighter(calc, Side::Right, &f.outer.bottom, best)
    }
}

/// The highest bottom below a top, where there is one.
pub fn soonest<'a, S: Steady>(
    calc: &mut S,
    floats: &'a [PlacedFloat<S::Num>],
    y: &S::Num,
) -> Option<&'a S::Num>
    ensures { Lays S.run calc.old calc.new (lent_at S.at result)
        (λ e. soonest (S.at y.now e) (boxes_at S.at floats.now e) None) (λ e. ⊤) }
{
    let mut best = None;
    for f in floats {
        best = sooner(calc, y, best, f);
    }
    best
}

/// The highest bottom below a top, else the top.
fn next_top<'a, S: Steady>(
    calc: &mut S,
    floats: &'a [PlacedFloat<S::Num>],
    y: &'a S::Num,
) -> &'a S::Num
    ensures { Lays S.run calc.old calc.new (S.at result.now)
        (λ e. next_top (boxes_at S.at floats.now e) (S.at y.now e)) (λ e. ⊤) }
{
    match soonest(calc, floats, y) {
        Some(next) => next,
        None => y,
    }
}

/// The edge at which a float of this width stands with its top at a height, where there is place.
pub fn stand<'a, S: Steady>(
    calc: &mut S,
    floats: &'a [PlacedFloat<S::Num>],
    side: Side,
    width: &S::Num,
    cb: &'a Band<S::Num>,
    y: &S::Num,
) -> Option<&'a S::Num>
    ensures goes { Goes (S.run calc.old) (S.run calc.new) }
    ensures value { WhereOpen (S.run calc.new).is_open
        (λ e. lent_at S.at result e ≡ stand (boxes_at S.at floats.now e) side (S.at width.now e)
        (band_at S.at cb.now e) (S.at y.now e)) }
    ensures cause { Blames (S.run calc.old) (S.run calc.new)
        (FitsAnywhere (S.run calc.old) S.at floats.now side cb.now width.now) }
{
    let shelf = shelf_on(calc, floats, side, cb, y);
    if is_free(calc, side, width, cb, &shelf) {
        Some(shelf.edge)
    } else {
        None
    }
}

/// The place with its top at a height, farthest to its side.
pub fn farthest<'a, S: Steady>(
    calc: &mut S,
    floats: &'a [PlacedFloat<S::Num>],
    side: Side,
    cb: &'a Band<S::Num>,
    y: &'a S::Num,
) -> Place<'a, S::Num>
    ensures { Lays S.run calc.old calc.new (place_at S.at result)
        (λ e. place_on (boxes_at S.at floats.now e) side (band_at S.at cb.now e) (S.at y.now e))
        (λ e. ⊤) }
{
    let shelf = shelf_on(calc, floats, side, cb, y);
    Place {
        top: y,
        edge: shelf.edge,
    }
}

/// The floats from the first one on that ends below a top: those before it need not be looked at again.
pub fn open_from<'a, S: Steady>(
    calc: &mut S,
    floats: &'a [PlacedFloat<S::Num>],
    y: &S::Num,
) -> &'a [PlacedFloat<S::Num>]
    ensures { Lays S.run calc.old calc.new (boxes_at S.at result.now)
        (λ e. open_from (S.at y.now e) (boxes_at S.at floats.now e)) (λ e. ⊤) }
{
    let mut rest = floats;
    while let Some((first, others)) = rest.split_first() {
        // It stops at the first that may still matter, and asks nothing of those behind it.
        if !calc.le(&first.outer.bottom, y) {
            return rest;
        }
        rest = others;
    }
    rest
}

/// The highest place from a top downwards, from bottom to bottom; no float's top is below that top.
pub fn place_among_few<'a, S: Steady>(
    calc: &mut S,
    floats: &'a [PlacedFloat<S::Num>],
    side: Side,
    width: &S::Num,
    cb: &'a Band<S::Num>,
    high: &'a S::Num,
) -> Place<'a, S::Num>
    ensures goes { Goes (S.run calc.old) (S.run calc.new) }
    ensures value { WhereOpen (S.run calc.new).is_open
        (λ e. place_at S.at result e ≡ place_on (boxes_at S.at floats.now e) side
        (band_at S.at cb.now e) (free_top (length floats.now) (boxes_at S.at floats.now e) side
        (S.at width.now e) (band_at S.at cb.now e) (S.at high.now e))) }
    ensures cause { Blames (S.run calc.old) (S.run calc.new)
        (FitsAnywhere (S.run calc.old) S.at floats.now side cb.now width.now) }
{
    let mut y = high;
    for passed in 0..floats.len() {
        if let Some(edge) = stand(calc, floats, side, width, cb, y) {
            return Place { top: y, edge };
        }
        y = next_top(calc, floats, y);
    }
    farthest(calc, floats, side, cb, y)
}
