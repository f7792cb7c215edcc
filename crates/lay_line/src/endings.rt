//! The end of a line: what it adds, and where the next one begins (CSS 2.1, 9.4.2, 9.5, 10.8).
ghost use Rattle.std.specs.Prelude.{◌≡◌, ◌+ℤ◌, ◌++◌, ◌∷◌, [], List as Seq, length, IsTrue};
ghost use Rattle.std.specs.Int.{int_max};
ghost use Rattle.viz_calc.specs.World.{Reading};
ghost use Rattle.viz_calc.specs.Renderings.{band_at};
ghost use Rattle.viz_calc.specs.Run.{Stands, Goes, Blames, BlamesButMem, LaysButMem};
ghost use Rattle.viz_calc.specs.State.{AllSmall, WhereOpen};
ghost use Rattle.layout_semantics.specs.Floats.{FloatBox};
ghost use Rattle.layout_semantics.specs.LineHeights.{height_of_extent};
ghost use Rattle.lay_float.specs.Readings.{boxes_at};
ghost use Rattle.lay_line.specs.Contexts.{context_at};
ghost use Rattle.lay_line.specs.Limits.{RoomFits};
ghost use Rattle.lay_line.specs.LineFits.{OnLine};
ghost use Rattle.lay_line.specs.LinesFit.{EndFits};
ghost use Rattle.lay_line.specs.Lining.{so_far_at, begun_at, start_at};
ghost use Rattle.lay_line.specs.Readings.{line_extent_at, load_at, slot_at, pieces_at, entries_at};
ghost use Rattle.lay_line.specs.steps.Lining.{left_in, box_in, full_line, empty_line, ended_line};
ghost use Rattle.lay_line.specs.steps.Words.{room_in};

use crate::containers::Container;
use crate::entries::{add_entry, add_floats};
use crate::extents::{LineExtent, height};
use crate::held::Piece;
use crate::leaps::Guess;
use crate::line_content::{Content, add_content, content_left, line_box, place_waiting};
use crate::loads::Load;
use crate::meeting::{Met, Slot, floats_of, place_each};
use lay_float::engine::band;
use lay_float::{Floats, PlacedFloat};
use viz_base::{Band, Entry, List, Spot};
use viz_calc::{Steady, greater};

/// What lines leave to the next one, in units of 1/64 px.
#[derive(Drop)]
pub struct SoFar<N> {
    /// Where it begins.
    pub y: N,
    /// The highest top that its floats may have.
    pub least: N,
    /// The floats of the block formatting context.
    pub floats: Floats<N>,
    /// The inline boxes that are open, outermost first.
    pub opened: Vec<u32>,
    /// The last line's baseline.
    pub baseline: Option<N>,
    /// How much text they took.
    pub guess: Guess,
}

/// What lines leave to the next one, with the number of floats in place of the floats, in units of 1/64 px.
#[derive(Drop)]
pub struct Begun<N> {
    /// Where it begins.
    pub y: N,
    /// The highest top that its floats may have.
    pub least: N,
    /// How many floats the block formatting context has.
    pub floats: usize,
    /// The inline boxes that are open, outermost first.
    pub opened: Vec<u32>,
    /// The last line's baseline.
    pub baseline: Option<N>,
}

/// A line that is full, in units of 1/64 px.
#[derive(Drop)]
pub struct FullLine<'p, 'a, N> {
    /// Where it is.
    pub slot: Slot<N>,
    /// What it holds.
    pub load: Load<N>,
    /// All that is on it.
    pub pieces: &'p [Piece<'a, N>],
}

/// What is around a line that exists, in units of 1/64 px.
#[derive(Drop)]
struct Edges<N> {
    /// Its bottom.
    bottom: N,
    /// What the floats beside it leave.
    room: Band<N>,
    /// The highest top that floats behind it may have.
    least: N,
}

#[tactic(auto, unfolding(crate::specs::Contexts::context_at, crate::specs::steps::Words::room_in))]
/// What is around a line that reaches so far, beside these floats.
fn edges_of<S: Steady>(
    calc: &mut S,
    container: &Container<'_, S::Num>,
    slot: &Slot<S::Num>,
    extent: &LineExtent<S::Num>,
    floats: &[PlacedFloat<S::Num>],
    least: S::Num,
) -> Edges<S::Num>
    ensures goes { Goes (S.run calc.old) (S.run calc.new) }
    ensures bottom { Stands (S.run calc.new) (S.at result.bottom)
        (λ e. S.at slot.now.top e +ℤ height_of_extent (line_extent_at S.at extent.now e)) }
    ensures room { WhereOpen (S.run calc.new).is_open
        (λ e. band_at S.at result.room e
        ≡ room_in (context_at S.at container.now e) (boxes_at S.at floats.now e)
        (S.at slot.now.top e) (S.at slot.now.tall e)) }
    ensures least { Stands (S.run calc.new) (S.at result.least)
        (λ e. int_max (S.at least e) (S.at slot.now.top e)) }
    ensures cause { Blames (S.run calc.old) (S.run calc.new) (WhereOpen (S.run calc.old).is_open
        (λ e. AllSmall (height_of_extent (line_extent_at S.at extent.now e)
        ∷ (S.at slot.now.top e +ℤ height_of_extent (line_extent_at S.at extent.now e))
        ∷ S.at slot.now.top e ∷ []) × RoomFits (context_at S.at container.now e)
        (boxes_at S.at floats.now e) (S.at slot.now.top e) (S.at slot.now.tall e))) }
{
    let whole = height(calc, extent);
    let bottom = calc.add(&slot.top, &whole);
    let room = band(calc, floats, container.cb, &slot.top, &slot.tall);
    let top = calc.copy(&slot.top);
    // Rule 6 of 9.5.1: floats behind this line stand no higher than its top.
    let least = greater(calc, least, top);
    Edges {
        bottom,
        room,
        least,
    }
}

/// Adds a line box, from edge to edge of what the floats leave.
fn add_box<S: Steady>(
    calc: &mut S,
    container: &Container<'_, S::Num>,
    room: &Band<S::Num>,
    top: &S::Num,
    bottom: &S::Num,
    entries: &mut List<Entry<S::Num>>,
)
    ensures { LaysButMem S.run calc.old calc.new (entries_at S.at entries.new)
        (λ e. entries_at S.at entries.old e
        ++ box_in (context_at S.at container.now e) (band_at S.at room.now e) (S.at top.now e)
        (S.at bottom.now e) ∷ []) (λ e. AllSmall
        (S.at room.now.left e ∷ S.at top.now e ∷ S.at room.now.right e ∷ S.at bottom.now e ∷ [])) }
{
    let entry = line_box(calc, container, room, top, bottom);
    add_entry(calc, entries, entry);
}

/// The content of a line that is so wide, on this baseline.
fn content_of<S: Steady>(
    calc: &mut S,
    container: &Container<'_, S::Num>,
    room: &Band<S::Num>,
    baseline: &S::Num,
    width: S::Num,
    spots: Vec<(u32, Spot<S::Num>)>,
) -> Content<S::Num>
    ensures goes { Goes (S.run calc.old) (S.run calc.new) }
    ensures baseline { Stands (S.run calc.new) (S.at result.baseline) (S.at baseline.now) }
    ensures left { Stands (S.run calc.new) (S.at result.left)
        (λ e. left_in (context_at S.at container.now e) (band_at S.at room.now e) (S.at width e)) }
    ensures width { result.width ≡ width }
    ensures spots { result.spots.items ≡ spots.items }
    ensures cause { Blames (S.run calc.old) (S.run calc.new) (WhereOpen (S.run calc.old).is_open
        (λ e. OnLine (S.at room.now.left e ∷ S.at room.now.right e ∷ S.at width e ∷ [])
        × AllSmall (S.at baseline.now e ∷ []))) }
{
    let left = content_left(calc, container, room, &width);
    let baseline = calc.copy(baseline);
    Content {
        baseline,
        left,
        width,
        spots,
    }
}

/// Adds a line that exists, where its floats stand, and gives where the next one begins.
fn end_full<S: Steady>(
    calc: &mut S,
    container: &Container<'_, S::Num>,
    begun: Begun<S::Num>,
    line: FullLine<'_, '_, S::Num>,
    entries: &mut List<Entry<S::Num>>,
) -> SoFar<S::Num>
    ensures goes { Goes (S.run calc.old) (S.run calc.new) }
    ensures after { WhereOpen (S.run calc.new).is_open (λ e. (floats : Seq FloatBox)
        → length floats ≡ begun.floats
        → so_far_at S.at result e ≡ (full_line (context_at S.at container.now e)
        (begun_at S.at begun floats e) (slot_at S.at line.entry.slot e)
        (load_at S.at line.entry.load e) (pieces_at S.at line.entry.pieces.now e)).after) }
    ensures added { WhereOpen (S.run calc.new).is_open (λ e. (floats : Seq FloatBox)
        → length floats ≡ begun.floats
        → entries_at S.at entries.new e
        ≡ entries_at S.at entries.old e
        ++ (full_line (context_at S.at container.now e) (begun_at S.at begun floats e)
        (slot_at S.at line.entry.slot e) (load_at S.at line.entry.load e)
        (pieces_at S.at line.entry.pieces.now e)).entries) }
    ensures cause { BlamesButMem (S.run calc.old) (S.run calc.new)
        (WhereOpen (S.run calc.old).is_open
        (λ e. EndFits (context_at S.at container.now e) (start_at S.at begun e)
        (slot_at S.at line.entry.slot e) (load_at S.at line.entry.load e)
        (pieces_at S.at line.entry.pieces.now e))) }
{
    let FullLine { slot, load, pieces } = line;
    let held = load.held;
    let extent = load.extent;
    let edges = edges_of(
        calc,
        container,
        &slot,
        &extent,
        load.met.floats.placed.as_slice(),
        begun.least,
    );
    let late = place_waiting(calc, container, &edges.least, &edges.bottom, load.met);
    add_box(
        calc,
        container,
        &edges.room,
        &slot.top,
        &edges.bottom,
        entries,
    );
    let baseline = calc.add(&slot.top, &extent.above);
    let content = content_of(
        calc,
        container,
        &edges.room,
        &baseline,
        held.width,
        late.spots,
    );
    add_content(
        calc,
        container,
        content,
        pieces,
        begun.opened.as_slice(),
        entries,
    );
    SoFar {
        y: edges.bottom,
        least: edges.least,
        floats: late.floats,
        opened: load.opened,
        baseline: Some(baseline),
        guess: load.guess,
    }
}

/// Adds the floats of a line that doesn't exist, and gives where the next one begins: where this one would have.
fn end_empty<S: Steady>(
    calc: &mut S,
    container: &Container<'_, S::Num>,
    begun: Begun<S::Num>,
    line: FullLine<'_, '_, S::Num>,
    entries: &mut List<Entry<S::Num>>,
) -> SoFar<S::Num>
    ensures goes { Goes (S.run calc.old) (S.run calc.new) }
    ensures after { WhereOpen (S.run calc.new).is_open (λ e. (floats : Seq FloatBox)
        → length floats ≡ begun.floats
        → so_far_at S.at result e ≡ (empty_line (context_at S.at container.now e)
        (begun_at S.at begun floats e) (load_at S.at line.entry.load e)
        (pieces_at S.at line.entry.pieces.now e)).after) }
    ensures added { WhereOpen (S.run calc.new).is_open (λ e. (floats : Seq FloatBox)
        → length floats ≡ begun.floats
        → entries_at S.at entries.new e
        ≡ entries_at S.at entries.old e
        ++ (empty_line (context_at S.at container.now e) (begun_at S.at begun floats e)
        (load_at S.at line.entry.load e) (pieces_at S.at line.entry.pieces.now e)).entries) }
    ensures cause { BlamesButMem (S.run calc.old) (S.run calc.new)
        (WhereOpen (S.run calc.old).is_open
        (λ e. EndFits (context_at S.at container.now e) (start_at S.at begun e)
        (slot_at S.at line.entry.slot e) (load_at S.at line.entry.load e)
        (pieces_at S.at line.entry.pieces.now e))) }
{
    let alloc = container.tree.boxes.allocator();
    let load = line.load;
    let before = load.met;
    let mut floats = before.floats;
    floats.placed.truncate(begun.floats);
    let boxes = floats_of(alloc, calc, line.pieces);
    let mut met = Met {
        spots: Vec::new(alloc),
        floats,
        waiting: Vec::new(alloc),
    };
    place_each(
        calc,
        container,
        &begun.least,
        &begun.y,
        &mut met,
        boxes.as_slice(),
    );
    add_floats(calc, met.spots.as_slice(), entries);
    SoFar {
        y: begun.y,
        least: begun.least,
        floats: met.floats,
        opened: load.opened,
        baseline: begun.baseline,
        guess: load.guess,
    }
}

/// Adds a line that is full.
pub fn end_line<S: Steady>(
    calc: &mut S,
    container: &Container<'_, S::Num>,
    begun: Begun<S::Num>,
    line: FullLine<'_, '_, S::Num>,
    entries: &mut List<Entry<S::Num>>,
) -> SoFar<S::Num>
    ensures goes { Goes (S.run calc.old) (S.run calc.new) }
    ensures after { WhereOpen (S.run calc.new).is_open (λ e. (floats : Seq FloatBox)
        → length floats ≡ begun.floats
        → so_far_at S.at result e ≡ (ended_line (context_at S.at container.now e)
        (begun_at S.at begun floats e) (slot_at S.at line.entry.slot e)
        (load_at S.at line.entry.load e) (pieces_at S.at line.entry.pieces.now e)).after) }
    ensures added { WhereOpen (S.run calc.new).is_open (λ e. (floats : Seq FloatBox)
        → length floats ≡ begun.floats
        → entries_at S.at entries.new e
        ≡ entries_at S.at entries.old e
        ++ (ended_line (context_at S.at container.now e) (begun_at S.at begun floats e)
        (slot_at S.at line.entry.slot e) (load_at S.at line.entry.load e)
        (pieces_at S.at line.entry.pieces.now e)).entries) }
    ensures cause { BlamesButMem (S.run calc.old) (S.run calc.new)
        (WhereOpen (S.run calc.old).is_open
        (λ e. EndFits (context_at S.at container.now e) (start_at S.at begun e)
        (slot_at S.at line.entry.slot e) (load_at S.at line.entry.load e)
        (pieces_at S.at line.entry.pieces.now e))) }
{
    if line.load.is_line {
        end_full(calc, container, begun, line, entries)
    } else {
        end_empty(calc, container, begun, line, entries)
    }
}
