//! Where the content of a line begins, and what the line adds (CSS 2.1, 9.4.2, 9.5, 16.2).
ghost use Rattle.std.specs.Prelude.{◌≡◌, ◌-ℤ◌, pos, ◌++◌, ◌∷◌, [], IsTrue};
ghost use Rattle.std.specs.Int.{int_max};
ghost use Rattle.viz_calc.specs.State.{AllSmall};
ghost use Rattle.viz_calc.specs.Run.{Lays, LaysButMem};
ghost use Rattle.viz_calc.specs.Renderings.{band_at};
ghost use Rattle.layout_semantics.specs.LineFilling.{band_width as width_of};
ghost use Rattle.layout_semantics.specs.Lines.{aligned};
ghost use Rattle.lay_float.specs.Readings.{floats_at};
ghost use Rattle.lay_line.specs.Contexts.{context_at};
ghost use Rattle.lay_line.specs.Items.{bare_of};
ghost use Rattle.lay_line.specs.Limits.{PlacesFit, StandFits};
ghost use Rattle.lay_line.specs.LineFits.{BoxesFit, OnLine, ContentFits};
ghost use Rattle.lay_line.specs.Readings.{met_at, pieces_at, places_at, spots_at, entry_at, entries_at};
ghost use Rattle.lay_line.specs.Lining.{set_by, late_in};
ghost use Rattle.lay_line.specs.steps.Lining.{left_in, places_of, box_in, entries_in};
ghost use Rattle.lay_line.specs.steps.Staying.{no_items, spanned};

use crate::containers::Container;
use crate::entries::add_line_entries;
use crate::fragments::{SetLine, plain_box};
use crate::held::Piece;
use crate::inline_extents::half;
use crate::items::is_solid;
use crate::meeting::{Met, place_each};
use crate::places::{ItemPlace, stand};
use crate::sizes::band_width;
use lay_length::lengths::zero;
use lay_tree::boxes::node;
use lay_tree::styles::text_align;
use std::alloc::Global;
use viz_base::{Align, Band, Entry, Kind, List, Quad, Spot};
use viz_calc::Steady;

/// How far the free room of a line reaches: none where its content is as wide as what the floats leave.
fn spare<S: Steady>(calc: &mut S, room: &Band<S::Num>, held: &S::Num) -> S::Num
    ensures { Lays S.run calc.old calc.new (S.at result)
        (λ e. int_max (pos 0) (width_of (band_at S.at room.now e) -ℤ S.at held.now e))
        (λ e. OnLine (S.at room.now.left e ∷ S.at room.now.right e ∷ S.at held.now e ∷ [])) }
{
    let inline_size = band_width(calc, room);
    if calc.le(held, &inline_size) {
        calc.sub(&inline_size, held)
    } else {
        zero(calc)
    }
}

/// How far content is moved to the right.
fn moved<S: Steady>(calc: &mut S, align: Align, room: &Band<S::Num>, held: &S::Num) -> S::Num
    ensures { Lays S.run calc.old calc.new (S.at result)
        (λ e. aligned align (width_of (band_at S.at room.now e) -ℤ S.at held.now e))
        (λ e. OnLine (S.at room.now.left e ∷ S.at room.now.right e ∷ S.at held.now e ∷ [])) }
{
    match align {
        Align::Left => zero(calc),
        Align::Right => spare(calc, room, held),
        Align::Center => {
            let spare = spare(calc, room, held);
            half(calc, &spare)
        }
    }
}

#[tactic(auto, unfolding(crate::specs::Contexts::context_at, crate::specs::steps::Lining::left_in))]
/// Where the content of a line begins.
pub fn content_left<S: Steady>(
    calc: &mut S,
    container: &Container<'_, S::Num>,
    room: &Band<S::Num>,
    held: &S::Num,
) -> S::Num
    ensures { Lays S.run calc.old calc.new (S.at result)
        (λ e. left_in (context_at S.at container.now e) (band_at S.at room.now e) (S.at held.now e))
        (λ e. OnLine (S.at room.now.left e ∷ S.at room.now.right e ∷ S.at held.now e ∷ [])) }
{
    let align = text_align(container.tree, container.at);
    let by = moved(calc, align, room, held);
    calc.add(&room.left, &by)
}

#[tactic(auto, unfolding(crate::specs::Contexts::context_at, crate::specs::steps::Lining::box_in))]
/// A line box, from edge to edge of what the floats leave.
pub fn line_box<S: Steady>(
    calc: &mut S,
    container: &Container<'_, S::Num>,
    room: &Band<S::Num>,
    top: &S::Num,
    bottom: &S::Num,
) -> Entry<S::Num>
    ensures { Lays S.run calc.old calc.new (entry_at S.at result)
        (λ e. box_in (context_at S.at container.now e) (band_at S.at room.now e) (S.at top.now e)
        (S.at bottom.now e)) (λ e. AllSmall
        (S.at room.now.left e ∷ S.at top.now e ∷ S.at room.now.right e ∷ S.at bottom.now e ∷ [])) }
{
    let left = calc.copy(&room.left);
    let top = calc.copy(top);
    let right = calc.copy(&room.right);
    let bottom = calc.copy(bottom);
    let node = node(container.tree, container.at);
    let area = Quad {
        left,
        top,
        right,
        bottom,
    };
    Entry::Here(plain_box(calc, Kind::Line, node, area))
}

/// How many pieces there are up to the last word or atomic box.
fn solid_len<N>(pieces: &[Piece<N>]) -> usize
    ensures { result ≡ (spanned no_items (bare_of pieces.now)).solid }
{
    let mut count = 0;
    let mut solid = 0;
    for piece in pieces {
        count += 1;
        if is_solid(&piece.item) {
            solid = count;
        }
    }
    solid
}

#[tactic(auto, unfolding(crate::specs::steps::Lining::places_of))]
/// Where the items of a line stand, from x on.
fn places<'a, S: Steady>(
    alloc: Global,
    calc: &mut S,
    x: &S::Num,
    pieces: &[Piece<'a, S::Num>],
) -> Vec<ItemPlace<'a, S::Num>>
    ensures { LaysButMem S.run calc.old calc.new (places_at S.at result.items)
        (λ e. places_of (S.at x.now e) (pieces_at S.at pieces.now e))
        (λ e. StandFits (S.at x.now e) (pieces_at S.at pieces.now e)) }
{
    let from = calc.copy(x);
    stand(alloc, calc, from, solid_len(pieces), pieces)
}

/// The content of a line, in units of 1/64 px.
#[derive(Drop)]
pub struct Content<N> {
    /// The line's baseline.
    pub baseline: N,
    /// Its left edge.
    pub left: N,
    /// Its width.
    pub width: N,
    /// Where the line's floats stand.
    pub spots: Vec<(u32, Spot<N>)>,
}

/// Adds what the content of a line adds.
pub fn add_content<S: Steady>(
    calc: &mut S,
    container: &Container<'_, S::Num>,
    content: Content<S::Num>,
    pieces: &[Piece<S::Num>],
    opened: &[u32],
    entries: &mut List<Entry<S::Num>>,
)
    ensures { LaysButMem S.run calc.old calc.new (entries_at S.at entries.new)
        (λ e. entries_at S.at entries.old e
        ++ entries_in (context_at S.at container.now e)
        (set_by S.at content pieces.now e) opened.now)
        (λ e. BoxesFit (context_at S.at container.now e)
        × ContentFits (S.at content.baseline e) (S.at content.left e) (S.at content.width e)
        (spots_at S.at content.spots.items e) (pieces_at S.at pieces.now e)) }
{
    let right = calc.add(&content.left, &content.width);
    let set = places(
        container.tree.boxes.allocator(),
        calc,
        &content.left,
        pieces,
    );
    let line = SetLine {
        baseline: content.baseline,
        left: content.left,
        right,
        places: set.as_slice(),
        spots: content.spots.as_slice(),
    };
    add_line_entries(calc, container, &line, opened, entries);
}

/// The floats that waited, placed from the line's bottom on.
pub fn place_waiting<S: Steady>(
    calc: &mut S,
    container: &Container<'_, S::Num>,
    least: &S::Num,
    bottom: &S::Num,
    met: Met<S::Num>,
) -> Met<S::Num>
    ensures { LaysButMem S.run calc.old calc.new (met_at S.at result)
        (λ e. late_in (context_at S.at container.now e) (S.at least.now e) (S.at bottom.now e)
        (met_at S.at met e)) (λ e. PlacesFit (context_at S.at container.now e)
        (floats_at S.at met.floats e) (S.at least.now e) (S.at bottom.now e) met.waiting.items) }
{
    let Met {
        spots,
        floats,
        waiting,
    } = met;
    let mut late = Met {
        spots,
        floats,
        waiting: Vec::new(container.tree.boxes.allocator()),
    };
    place_each(
        calc,
        container,
        least,
        bottom,
        &mut late,
        waiting.as_slice(),
    );
    late
}
