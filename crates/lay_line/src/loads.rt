//! How much a line holds, segment by segment (CSS 2.1, 9.4.2).
ghost use Rattle.std.specs.Prelude.{◌≡◌, ◌≤◌, not, ◌==◌, pos, length, filter, IsTrue, IfOk, ⊤, ◌∷◌, []};
ghost use Rattle.std.specs.List.{list_any};
ghost use Rattle.viz_calc.specs.World.{Reading};
ghost use Rattle.viz_calc.specs.Run.{Lays, LaysButMem};
ghost use Rattle.layout_semantics.specs.LineHeights.{height_of_extent};
ghost use Rattle.layout_semantics.specs.Lines.{opened_after};
ghost use Rattle.layout_semantics.specs.Segments.{is_forced as is_forced_of};
ghost use Rattle.lay_line.specs.Contexts.{context_at};
ghost use Rattle.lay_line.specs.Items.{item_of, bare_of};
ghost use Rattle.lay_line.specs.Readings.{held_at, line_extent_at, load_at, loaded_at, pieces_at, parts_at, slot_at};
ghost use Rattle.lay_line.specs.steps.Leaping.{AreWide};
ghost use Rattle.lay_line.specs.steps.Loading.{ahead_by, extending, with_reach as reach_with, with_reach_of, reaching, reaching_boxes, tallest_by, opened_by, loaded, takes_more as takes_in, loading};
ghost use Rattle.lay_line.specs.steps.Words.{makes, strut_in};
ghost use Rattle.viz_calc.specs.State.{AllSmall, WhereOpen};
ghost use Rattle.layout_semantics.specs.Blocks.{node_of};
ghost use Rattle.lay_float.specs.Limits.{IsHalf};
ghost use Rattle.lay_float.specs.Readings.{floats_at};
ghost use Rattle.lay_line.specs.Fits.{InlineFits, ReachFits};
ghost use Rattle.lay_line.specs.Limits.{BoxesReach, PlacesFit, RoomFits, FillFits};

use crate::containers::Container;
use crate::existence::makes_line;
use crate::extents::{LineExtent, height, with_extent};
use crate::held::{Held, Piece, with_pieces};
use crate::items::{Item, is_forced};
use crate::leaps::{Guess, leap_on};
use crate::meeting::{Met, Slot, fits, floats_of, meet_each};
use crate::segments::Segments;
use crate::shifts::{reach, strut};
use std::alloc::{AllocError, Global};
use viz_base::BoxTree;
use viz_calc::{Steady, greater};

#[tactic(auto, unfolding(crate::specs::steps::Loading::with_reach))]
/// As far as a box more reaches.
fn with_reach<S: Steady>(
    calc: &mut S,
    container: &Container<'_, S::Num>,
    extent: LineExtent<S::Num>,
    at: u32,
) -> LineExtent<S::Num>
    ensures { Lays S.run calc.old calc.new (line_extent_at S.at result)
        (λ e. reach_with (context_at S.at container.now e) (line_extent_at S.at extent e) at)
        (λ e. ReachFits (context_at S.at container.now e) at) }
{
    let more = reach(calc, container, at);
    with_extent(calc, extent, more)
}

/// The box that an item extends a line by.
fn extending_box(item: &Item) -> Option<u32>
    ensures { result ≡ extending (item_of item.now) }
{
    match item {
        Item::Start(at) | Item::Atomic(at) => Some(*at),
        _ => None,
    }
}

/// As far as an item more reaches.
fn with_item<S: Steady>(
    calc: &mut S,
    container: &Container<'_, S::Num>,
    extent: LineExtent<S::Num>,
    item: &Item,
) -> LineExtent<S::Num>
    ensures { Lays S.run calc.old calc.new (line_extent_at S.at result)
        (λ e. with_reach_of (context_at S.at container.now e) (line_extent_at S.at extent e)
        (extending (item_of item.now))) (λ e. BoxesReach (context_at S.at container.now e)) }
{
    match extending_box(item) {
        Some(at) => with_reach(calc, container, extent, at),
        None => extent,
    }
}

/// As far as pieces reach too.
fn extended<S: Steady>(
    calc: &mut S,
    container: &Container<'_, S::Num>,
    start: LineExtent<S::Num>,
    pieces: &[Piece<S::Num>],
) -> LineExtent<S::Num>
    ensures { Lays S.run calc.old calc.new (line_extent_at S.at result)
        (λ e. reaching (context_at S.at container.now e) (line_extent_at S.at start e)
        (bare_of pieces.now)) (λ e. BoxesReach (context_at S.at container.now e)) }
{
    let mut extent = start;
    for piece in pieces {
        extent = with_item(calc, container, extent, &piece.item);
    }
    extent
}

/// How far a line reaches that begins with these inline boxes open.
pub fn extent_at_start<S: Steady>(
    calc: &mut S,
    container: &Container<'_, S::Num>,
    start: LineExtent<S::Num>,
    opened: &[u32],
) -> LineExtent<S::Num>
    ensures { Lays S.run calc.old calc.new (line_extent_at S.at result)
        (λ e. reaching_boxes (context_at S.at container.now e)
        (line_extent_at S.at start e) opened.now)
        (λ e. BoxesReach (context_at S.at container.now e)) }
{
    let mut extent = start;
    for at in opened {
        extent = with_reach(calc, container, extent, *at);
    }
    extent
}

#[tactic(auto, unfolding(crate::specs::steps::Loading::tallest_by))]
/// The height of the tallest line that the pieces could make, at least 1/64 px.
pub fn tallest<S: Steady>(
    calc: &mut S,
    container: &Container<'_, S::Num>,
    pieces: &[Piece<S::Num>],
) -> S::Num
    ensures { Lays S.run calc.old calc.new (S.at result)
        (λ e. tallest_by (context_at S.at container.now e) (bare_of pieces.now))
        (λ e. InlineFits container.now.tree.now e.world
        (node_of container.now.tree.now container.now.at)
        × (BoxesReach (context_at S.at container.now e)
        × AllSmall (height_of_extent (reaching (context_at S.at container.now e)
        (strut_in (context_at S.at container.now e)) (bare_of pieces.now)) ∷ pos 1 ∷ []))) }
{
    let start = strut(calc, container);
    let extent = extended(calc, container, start, pieces);
    let whole = height(calc, &extent);
    let least = unit(calc);
    greater(calc, least, whole)
}

/// The number 1, in 1/64 px.
fn unit<S: Steady>(calc: &mut S) -> S::Num
    ensures { Lays S.run calc.old calc.new (S.at result) (λ e. pos 1) (λ e. AllSmall (pos 1 ∷ [])) }
{
    calc.lit(1)
}

/// Boxes other than one.
fn others(alloc: Global, boxes: Vec<u32>, at: u32) -> Result<Vec<u32>, AllocError>
    ensures { IfOk result (λ kept. kept.items ≡ filter (λ other. not (other == at)) boxes.items) }
{
    let mut kept = Vec::new(alloc);
    for other in boxes.as_slice() {
        if *other != at {
            kept.push(*other)?;
        }
    }
    Ok(kept)
}

/// The inline boxes that are open after one item more.
fn opened_next(alloc: Global, opened: Vec<u32>, item: &Item) -> Result<Vec<u32>, AllocError>
    ensures { IfOk result (λ next. next.items ≡ opened_after opened.items (item_of item.now)) }
{
    match item {
        Item::Start(at) => {
            let mut opened = opened;
            opened.push(*at)?;
            Ok(opened)
        }
        Item::Finish(at) => others(alloc, opened, *at),
        _ => Ok(opened),
    }
}

/// The inline boxes that are open after pieces.
fn opened_past<N>(
    alloc: Global,
    opened: Vec<u32>,
    pieces: &[Piece<N>],
) -> Result<Vec<u32>, AllocError>
    ensures { IfOk result (λ after. after.items ≡ opened_by opened.items (bare_of pieces.now)) }
{
    let mut open = opened;
    for piece in pieces {
        open = opened_next(alloc, open, &piece.item)?;
    }
    Ok(open)
}

/// The inline boxes that are open after pieces, outermost first.
fn opened_behind<S: Steady>(
    alloc: Global,
    calc: &mut S,
    opened: Vec<u32>,
    pieces: &[Piece<S::Num>],
) -> Vec<u32>
    ensures { LaysButMem S.run calc.old calc.new (λ e. result.items)
        (λ e. opened_by opened.items (bare_of pieces.now)) (λ e. ⊤) }
{
    match opened_past(alloc, opened, pieces) {
        Ok(opened) => opened,
        Err(_) => {
            calc.stop();
            Vec::new(alloc)
        }
    }
}

/// Whether a forced break is among pieces.
fn has_forced<N>(pieces: &[Piece<N>]) -> bool
    ensures { result ≡ list_any is_forced_of (bare_of pieces.now) }
{
    for piece in pieces {
        if is_forced(&piece.item) {
            return true;
        }
    }
    false
}

/// Whether something among pieces makes the line exist.
fn has_maker<N>(tree: &BoxTree, pieces: &[Piece<N>]) -> bool
    ensures { result ≡ list_any (makes tree.now) (bare_of pieces.now) }
{
    for piece in pieces {
        if makes_line(tree, &piece.item) {
            return true;
        }
    }
    false
}

/// How many pieces stand before the first that makes the line exist.
pub fn ahead<N>(tree: &BoxTree, pieces: &[Piece<N>]) -> usize
    ensures value { result ≡ ahead_by (makes tree.now) (bare_of pieces.now) }
    ensures within { result ≤ length pieces.now }
{
    let mut count = 0;
    for piece in pieces {
        if makes_line(tree, &piece.item) {
            return count;
        }
        count += 1;
    }
    count
}

/// What a line holds so far, in units of 1/64 px.
#[derive(Drop)]
pub struct Load<N> {
    /// Its width, and that of the spaces at its end.
    pub held: Held<N>,
    /// Whether a forced break is among it.
    pub is_ended: bool,
    /// Whether something makes the line exist.
    pub is_line: bool,
    /// The floats met.
    pub met: Met<N>,
    /// How far it reaches.
    pub extent: LineExtent<N>,
    /// The inline boxes that are open behind it.
    pub opened: Vec<u32>,
    /// How much text it may take.
    pub guess: Guess,
}

/// A segment that a line takes.
#[derive(Drop)]
pub struct Taken<'p, 'a, N> {
    /// Its pieces.
    pub part: &'p [Piece<'a, N>],
    /// The floats that are met at its end.
    pub floats: &'p [u32],
    /// What the line then holds.
    pub held: Held<N>,
}

#[tactic(auto, unfolding(crate::specs::Contexts::context_at, crate::specs::steps::Loading::loaded))]
/// What a line holds with one segment more.
pub fn with_segment<S: Steady>(
    calc: &mut S,
    container: &Container<'_, S::Num>,
    slot: &Slot<S::Num>,
    load: Load<S::Num>,
    taken: Taken<'_, '_, S::Num>,
) -> Load<S::Num>
    ensures { LaysButMem S.run calc.old calc.new (load_at S.at result)
        (λ e. loaded (context_at S.at container.now e) (slot_at S.at slot.now e)
        (load_at S.at load e) (bare_of taken.entry.part.now) taken.entry.floats.now
        (held_at S.at taken.entry.held e))
        (λ e. (PlacesFit (context_at S.at container.now e) (floats_at S.at load.met.floats e)
        (S.at slot.now.least e) (S.at slot.now.top e) taken.entry.floats.now
        × IsHalf (S.at slot.now.tall e)) × BoxesReach (context_at S.at container.now e)) }
{
    let mut met = load.met;
    meet_each(
        calc,
        container,
        slot,
        &taken.held.width,
        &mut met,
        taken.floats,
    );
    let extent = extended(calc, container, load.extent, taken.part);
    let opened = opened_behind(
        container.tree.boxes.allocator(),
        calc,
        load.opened,
        taken.part,
    );
    Load {
        held: taken.held,
        is_ended: load.is_ended || has_forced(taken.part),
        is_line: load.is_line || has_maker(container.tree, taken.part),
        met,
        extent,
        opened,
        guess: load.guess,
    }
}

/// A copy of what a line holds.
fn copy_held<S: Steady>(calc: &mut S, held: &Held<S::Num>) -> Held<S::Num>
    ensures { Lays S.run calc.old calc.new (held_at S.at result) (held_at S.at held.now)
        (λ e. AllSmall (S.at held.now.width e ∷ S.at held.now.spaces e ∷ [])) }
{
    let width = calc.copy(&held.width);
    let spaces = calc.copy(&held.spaces);
    Held {
        width,
        spaces,
        begun: held.begun,
    }
}

#[tactic(auto, unfolding(crate::specs::steps::Loading::takes_more))]
/// Whether a later segment stands on the line, which then holds so much.
fn takes_more<S: Steady>(
    calc: &mut S,
    container: &Container<'_, S::Num>,
    slot: &Slot<S::Num>,
    load: &Load<S::Num>,
    held: &Held<S::Num>,
) -> bool
    ensures { Lays S.run calc.old calc.new (λ e. result)
        (λ e. takes_in (context_at S.at container.now e) (slot_at S.at slot.now e)
        (load_at S.at load.now e) (held_at S.at held.now e))
        (λ e. RoomFits (context_at S.at container.now e) (floats_at S.at load.now.met.floats e)
        (S.at slot.now.top e) (S.at slot.now.tall e)) }
{
    // A forced break ends the line whatever room is left, so nothing is compared behind it.
    !load.is_ended
        && fits(
            calc,
            container,
            load.met.floats.placed.as_slice(),
            &slot.top,
            &slot.tall,
            &held.width,
        )
}

/// A line that is full, and the segments that are left.
#[derive(Drop)]
pub struct Loaded<'p, 'a, N> {
    /// What the line holds.
    pub load: Load<N>,
    /// The segments behind it.
    pub rest: Segments<'p, 'a, N>,
}

/// Takes segments as long as they fit. Where several are words and spaces they are taken at once if the last of them
/// fits: no word and no space is narrower than 0.
pub(crate) fn fill<'p, 'a, S: Steady>(
    calc: &mut S,
    container: &Container<'_, S::Num>,
    slot: &Slot<S::Num>,
    start: Load<S::Num>,
    segments: Segments<'p, 'a, S::Num>,
) -> Loaded<'p, 'a, S::Num>
    requires { WhereOpen (S.run calc.old).is_open
        (λ e. AreWide (pieces_at S.at segments.pieces.now e)) }
    ensures { LaysButMem S.run calc.old calc.new (loaded_at S.at result)
        (λ e. loading (context_at S.at container.now e) (slot_at S.at slot.now e)
        (load_at S.at start e) (parts_at S.at segments.entry e))
        (λ e. FillFits (context_at S.at container.now e) (slot_at S.at slot.now e)
        (load_at S.at start e) (pieces_at S.at segments.entry.pieces.now e)) }
{
    let mut load = start;
    let mut rest = segments;
    // How many segments are taken at once: fewer after each refusal.
    let mut most = rest.pieces.len();
    while let Some(next) = leap_on(load.guess, &rest, most) {
        // A copy: where the segments don't fit the line keeps what it held.
        let before = copy_held(calc, &load.held);
        let held = with_pieces(calc, before, next.first);
        if !takes_more(calc, container, slot, &load, &held) {
            load.guess = load.guess.refused(next.size);
            if next.count < 2 {
                return Loaded { load, rest };
            }
            most = next.count - 1;
            continue;
        }
        // Floats inside a segment are met at its end, when it is known to stand on this line.
        let floats = floats_of(container.tree.boxes.allocator(), calc, next.first);
        let taken = Taken {
            part: next.first,
            floats: floats.as_slice(),
            held,
        };
        load = with_segment(calc, container, slot, load, taken);
        load.guess = load.guess.taken(next.size);
        rest = next.rest;
    }
    Loaded { load, rest }
}
