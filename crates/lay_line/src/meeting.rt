//! Floats that a line meets (CSS 2.1, 9.5).
ghost use Rattle.std.specs.Prelude.{◌≡◌, ◌++◌, ◌∷◌, [], IsTrue, IfOk, ⊤};
ghost use Rattle.std.specs.Ordering.{int_eq};
ghost use Rattle.viz_calc.specs.World.{Reading};
ghost use Rattle.viz_calc.specs.State.{AllSmall, WhereOpen};
ghost use Rattle.viz_calc.specs.Run.{Goes, BlamesButMem, Lays, LaysButMem};
ghost use Rattle.viz_calc.specs.Renderings.{spot_at};
ghost use Rattle.layout_semantics.specs.InlineContent.{float_boxes};
ghost use Rattle.layout_semantics.specs.LineFilling.{fits as fits_in};
ghost use Rattle.lay_float.specs.Readings.{boxes_at, floats_at, extent_at};
ghost use Rattle.lay_line.specs.Contexts.{context_at};
ghost use Rattle.lay_line.specs.Items.{item_of, bare_of};
ghost use Rattle.lay_line.specs.Readings.{met_at, slot_at, spots_at};
ghost use Rattle.lay_line.specs.steps.Meeting.{float_in, leaves, placed_next, placed_all, met_next, met_all};
ghost use Rattle.lay_line.specs.steps.Words.{size_in, spot_in, floats_with, room_in};
ghost use Rattle.lay_float.specs.Limits.{IsHalf};
ghost use Rattle.lay_line.specs.Limits.{PlacesFit, RoomFits};

use crate::containers::{Container, inner_of};
use crate::floating::place_float;
use crate::held::Piece;
use crate::items::Item;
use crate::sizes::band_width;
use lay_float::engine::band;
use lay_float::{Floats, PlacedFloat};
use lay_length::lengths::zero;
use std::alloc::{AllocError, Global};
use viz_base::{Extent, Spot};
use viz_calc::Steady;

/// Floats that were placed, in their order, with the list that they then stand in, and those that wait for the line's
/// bottom.
#[derive(Drop)]
pub struct Met<N> {
    /// The places of their boxes in the tree, and where they stand, in units of 1/64 px.
    pub spots: Vec<(u32, Spot<N>)>,
    /// The floats of the block formatting context.
    pub floats: Floats<N>,
    /// The places in the tree of those that wait.
    pub waiting: Vec<u32>,
}

/// Where a line is, in units of 1/64 px.
#[derive(Drop)]
pub struct Slot<N> {
    /// Its top.
    pub top: N,
    /// The height of the tallest line of its container.
    pub tall: N,
    /// The highest top that its floats may have.
    pub least: N,
}

/// The outer size of a float.
fn float_size<S: Steady>(calc: &mut S, container: &Container<'_, S::Num>, at: u32) -> Extent<S::Num>
    ensures { Lays S.run calc.old calc.new (extent_at S.at result)
        (λ e. size_in (context_at S.at container.now e) at)
        (λ e. AllSmall
        ((size_in (context_at S.at container.now e) at).width
        ∷ (size_in (context_at S.at container.now e) at).height ∷ [])) }
{
    match inner_of(container, at) {
        Some(inner) => {
            let width = calc.copy(&inner.width);
            // A float has no baseline; the table keeps what is above and below for atomic boxes too.
            let height = calc.add(&inner.above, &inner.below);
            Extent { width, height }
        }
        None => {
            let width = zero(calc);
            let height = zero(calc);
            Extent { width, height }
        }
    }
}

/// Places a float of a line that comes at y.
fn place_of_line<S: Steady>(
    calc: &mut S,
    container: &Container<'_, S::Num>,
    floats: &mut Floats<S::Num>,
    at: u32,
    least: &S::Num,
    y: &S::Num,
) -> Spot<S::Num>
    ensures goes { Goes (S.run calc.old) (S.run calc.new) }
    ensures value { WhereOpen (S.run calc.new).is_open
        (λ e. spot_at S.at result e ≡ spot_in (context_at S.at container.now e)
        (floats_at S.at floats.old e) (S.at least.now e) (S.at y.now e) at) }
    ensures appended { WhereOpen (S.run calc.new).is_open
        (λ e. floats_at S.at floats.new e
        ≡ floats_with (context_at S.at container.now e) (floats_at S.at floats.old e) at
        (spot_at S.at result e)) }
    ensures cause { BlamesButMem (S.run calc.old) (S.run calc.new)
        (WhereOpen (S.run calc.old).is_open
        (λ e. PlacesFit (context_at S.at container.now e) (floats_at S.at floats.old e)
        (S.at least.now e) (S.at y.now e) (at ∷ []))) }
{
    let size = float_size(calc, container, at);
    // A line may take floats back, so nothing is known of them.
    floats.ended = None;
    place_float(
        calc,
        container.tree,
        floats,
        at,
        &size,
        container.cb,
        Some(least),
        y,
    )
}

/// A float more that stands.
fn add_spot<S: Steady>(
    calc: &mut S,
    spots: &mut Vec<(u32, Spot<S::Num>)>,
    at: u32,
    spot: Spot<S::Num>,
)
    ensures { LaysButMem S.run calc.old calc.new (spots_at S.at spots.new.items)
        (λ e. spots_at S.at spots.old.items e ++ (at, spot_at S.at spot e) ∷ []) (λ e. ⊤) }
{
    if spots.push((at, spot)).is_err() {
        calc.stop();
    }
}

/// A float more that waits.
fn add_waiting<S: Steady>(calc: &mut S, waiting: &mut Vec<u32>, at: u32)
    ensures { LaysButMem S.run calc.old calc.new (λ e. waiting.new.items)
        (λ e. waiting.old.items ++ at ∷ []) (λ e. ⊤) }
{
    if waiting.push(at).is_err() {
        calc.stop();
    }
}

#[tactic(auto, unfolding(crate::specs::steps::Meeting::placed_next))]
/// Places a float that comes at y.
fn place_next<S: Steady>(
    calc: &mut S,
    container: &Container<'_, S::Num>,
    least: &S::Num,
    y: &S::Num,
    met: &mut Met<S::Num>,
    at: u32,
)
    ensures { LaysButMem S.run calc.old calc.new (met_at S.at met.new)
        (λ e. placed_next (context_at S.at container.now e) (S.at least.now e) (S.at y.now e)
        (met_at S.at met.old e) at) (λ e. PlacesFit (context_at S.at container.now e)
        (floats_at S.at met.old.floats e) (S.at least.now e) (S.at y.now e) (at ∷ [])) }
{
    let spot = place_of_line(calc, container, &mut met.floats, at, least, y);
    add_spot(calc, &mut met.spots, at, spot);
}

/// Places floats one after another, each from y on.
pub fn place_each<S: Steady>(
    calc: &mut S,
    container: &Container<'_, S::Num>,
    least: &S::Num,
    y: &S::Num,
    met: &mut Met<S::Num>,
    boxes: &[u32],
)
    ensures { LaysButMem S.run calc.old calc.new (met_at S.at met.new)
        (λ e. placed_all (context_at S.at container.now e) (S.at least.now e) (S.at y.now e)
        (met_at S.at met.old e) boxes.now)
        (λ e. PlacesFit (context_at S.at container.now e) (floats_at S.at met.old.floats e)
        (S.at least.now e) (S.at y.now e) boxes.now) }
{
    for at in boxes {
        place_next(calc, container, least, y, met, *at);
    }
}

#[tactic(auto, unfolding(crate::specs::Contexts::context_at, crate::specs::steps::Words::room_in))]
/// Whether so wide a segment fits beside floats, in the span of height `tall` from `top` on.
pub fn fits<S: Steady>(
    calc: &mut S,
    container: &Container<'_, S::Num>,
    floats: &[PlacedFloat<S::Num>],
    top: &S::Num,
    tall: &S::Num,
    width: &S::Num,
) -> bool
    ensures { Lays S.run calc.old calc.new (λ e. result)
        (λ e. fits_in (S.at width.now e)
        (room_in (context_at S.at container.now e) (boxes_at S.at floats.now e) (S.at top.now e)
        (S.at tall.now e))) (λ e. RoomFits (context_at S.at container.now e)
        (boxes_at S.at floats.now e) (S.at top.now e) (S.at tall.now e)) }
{
    let room = band(calc, floats, container.cb, top, tall);
    let inline_size = band_width(calc, &room);
    calc.le(width, &inline_size)
}

/// Whether two numbers are the same.
fn same<S: Steady>(calc: &mut S, a: &S::Num, b: &S::Num) -> bool
    ensures { Lays S.run calc.old calc.new (λ e. result) (λ e. int_eq (S.at a.now e) (S.at b.now e))
        (λ e. ⊤) }
{
    // A calc has one comparison; equality is two of them.
    calc.le(a, b) && calc.le(b, a)
}

/// Whether a float stands at the top of a line that holds so much, and leaves it room.
fn leaves_room<S: Steady>(
    calc: &mut S,
    container: &Container<'_, S::Num>,
    slot: &Slot<S::Num>,
    held: &S::Num,
    floats: &[PlacedFloat<S::Num>],
    y: &S::Num,
) -> bool
    ensures { Lays S.run calc.old calc.new (λ e. result)
        (λ e. leaves (context_at S.at container.now e) (slot_at S.at slot.now e) (S.at held.now e)
        (boxes_at S.at floats.now e) (S.at y.now e))
        (λ e. RoomFits (context_at S.at container.now e) (boxes_at S.at floats.now e)
        (S.at slot.now.top e) (S.at slot.now.tall e)) }
{
    same(calc, y, &slot.top) && fits(calc, container, floats, &slot.top, &slot.tall, held)
}

#[tactic(auto, unfolding(crate::specs::steps::Meeting::met_next))]
/// A float that is met: it stands at once, or it waits; none overtakes one that waits.
fn meet<S: Steady>(
    calc: &mut S,
    container: &Container<'_, S::Num>,
    slot: &Slot<S::Num>,
    held: &S::Num,
    met: &mut Met<S::Num>,
    at: u32,
)
    ensures { LaysButMem S.run calc.old calc.new (met_at S.at met.new)
        (λ e. met_next (context_at S.at container.now e) (slot_at S.at slot.now e) (S.at held.now e)
        (met_at S.at met.old e) at)
        (λ e. PlacesFit (context_at S.at container.now e) (floats_at S.at met.old.floats e)
        (S.at slot.now.least e) (S.at slot.now.top e) (at ∷ []) × IsHalf (S.at slot.now.tall e)) }
{
    // Rule 5 of 9.5.1: none stands above one that came before it.
    if !met.waiting.is_empty() {
        add_waiting(calc, &mut met.waiting, at);
        return;
    }
    let before = met.floats.placed.len();
    let spot = place_of_line(calc, container, &mut met.floats, at, &slot.least, &slot.top);
    if leaves_room(
        calc,
        container,
        slot,
        held,
        met.floats.placed.as_slice(),
        &spot.y,
    ) {
        add_spot(calc, &mut met.spots, at, spot);
        return;
    }
    // It was placed on trial. It waits for the line's bottom, and its place is looked for anew there.
    met.floats.placed.truncate(before);
    add_waiting(calc, &mut met.waiting, at);
}

/// Floats that are met one after another.
pub fn meet_each<S: Steady>(
    calc: &mut S,
    container: &Container<'_, S::Num>,
    slot: &Slot<S::Num>,
    held: &S::Num,
    met: &mut Met<S::Num>,
    boxes: &[u32],
)
    ensures { LaysButMem S.run calc.old calc.new (met_at S.at met.new)
        (λ e. met_all (context_at S.at container.now e) (slot_at S.at slot.now e) (S.at held.now e)
        (met_at S.at met.old e) boxes.now)
        (λ e. PlacesFit (context_at S.at container.now e) (floats_at S.at met.old.floats e)
        (S.at slot.now.least e) (S.at slot.now.top e) boxes.now × IsHalf (S.at slot.now.tall e)) }
{
    for at in boxes {
        meet(calc, container, slot, held, met, *at);
    }
}

/// The float that an item is.
fn float_of(item: &Item) -> Option<u32>
    ensures { result ≡ float_in (item_of item.now) }
{
    match item {
        Item::Float(at) => Some(*at),
        _ => None,
    }
}

/// The floats of pieces.
fn collect_floats<N>(alloc: Global, pieces: &[Piece<N>]) -> Result<Vec<u32>, AllocError>
    ensures { IfOk result (λ floats. floats.items ≡ float_boxes (bare_of pieces.now)) }
{
    let mut floats = Vec::new(alloc);
    for piece in pieces {
        if let Some(at) = float_of(&piece.item) {
            floats.push(at)?;
        }
    }
    Ok(floats)
}

/// The floats of pieces, in order.
pub fn floats_of<S: Steady>(alloc: Global, calc: &mut S, pieces: &[Piece<S::Num>]) -> Vec<u32>
    ensures { LaysButMem S.run calc.old calc.new (λ e. result.items)
        (λ e. float_boxes (bare_of pieces.now)) (λ e. ⊤) }
{
    match collect_floats(alloc, pieces) {
        Ok(floats) => floats,
        Err(_) => {
            calc.stop();
            Vec::new(alloc)
        }
    }
}
