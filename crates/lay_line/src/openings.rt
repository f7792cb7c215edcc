//! The beginning of a line: the floats before it, and its first segment (CSS 2.1, 9.4.2, 9.5).
ghost use Rattle.std.specs.Prelude.{◌≡◌, IsTrue, ⊤};
ghost use Rattle.viz_calc.specs.Run.{LaysButMem};
ghost use Rattle.layout_semantics.specs.InlineContent.{float_boxes};
ghost use Rattle.lay_float.specs.Readings.{floats_at};
ghost use Rattle.lay_line.specs.Contexts.{context_at};
ghost use Rattle.lay_line.specs.Limits.{PlacesFit};
ghost use Rattle.lay_line.specs.LinesFit.{FirstFits};
ghost use Rattle.lay_line.specs.Lining.{begun_at};
ghost use Rattle.lay_line.specs.Readings.{held_at, load_at, met_at, slot_at, pieces_at};
ghost use Rattle.lay_line.specs.steps.Lining.{met_before, first_load};
ghost use Rattle.lay_line.specs.steps.Loading.{bare};

use crate::containers::Container;
use crate::endings::Begun;
use crate::held::{Held, Piece, nothing};
use crate::leaps::{Guess, text_in};
use crate::loads::{Load, Taken, ahead, extent_at_start, with_segment};
use crate::meeting::{Met, Slot, floats_of, place_each};
use crate::shifts::strut;
use lay_float::Floats;
use std::alloc::Global;
use viz_calc::Steady;

/// What a line begins with.
#[derive(Drop)]
pub struct Opening<'p, 'a, N> {
    /// The floats before it.
    pub met: Met<N>,
    /// The inline boxes that are open.
    pub opened: &'p [u32],
    /// Its first segment.
    pub first: &'p [Piece<'a, N>],
    /// What that takes.
    pub held: Held<N>,
    /// How much text earlier lines took.
    pub guess: Guess,
}

/// Boxes again.
fn copy_boxes<S: Steady>(alloc: Global, calc: &mut S, boxes: &[u32]) -> Vec<u32>
    ensures { LaysButMem S.run calc.old calc.new (λ e. result.items) (λ e. boxes.now) (λ e. ⊤) }
{
    match Vec::from_slice(alloc, boxes) {
        Ok(boxes) => boxes,
        Err(_) => {
            calc.stop();
            Vec::new(alloc)
        }
    }
}

#[tactic(auto, unfolding(crate::specs::steps::Loading::ahead, crate::specs::steps::Lining::met_before))]
/// The floats that stand before anything on a line.
pub fn meet_before<S: Steady>(
    calc: &mut S,
    container: &Container<'_, S::Num>,
    begun: &Begun<S::Num>,
    floats: Floats<S::Num>,
    first: &[Piece<S::Num>],
) -> Met<S::Num>
    ensures { LaysButMem S.run calc.old calc.new (met_at S.at result)
        (λ e. met_before (context_at S.at container.now e)
        (begun_at S.at begun.now (floats_at S.at floats e) e) (pieces_at S.at first.now e))
        (λ e. PlacesFit (context_at S.at container.now e) (floats_at S.at floats e)
        (S.at begun.now.least e) (S.at begun.now.y e)
        (float_boxes (bare (pieces_at S.at first.now e)))) }
{
    let alloc = container.tree.boxes.allocator();
    let (before, _) = first.split_at(ahead(container.tree, first));
    let boxes = floats_of(alloc, calc, before);
    let mut met = Met {
        spots: Vec::new(alloc),
        floats,
        waiting: Vec::new(alloc),
    };
    place_each(
        calc,
        container,
        &begun.least,
        &begun.y,
        &mut met,
        boxes.as_slice(),
    );
    met
}

/// A line with its first segment, which stands on it in any case.
pub fn first_load<S: Steady>(
    calc: &mut S,
    container: &Container<'_, S::Num>,
    slot: &Slot<S::Num>,
    opening: Opening<'_, '_, S::Num>,
) -> Load<S::Num>
    ensures { LaysButMem S.run calc.old calc.new (load_at S.at result)
        (λ e. first_load (context_at S.at container.now e) (slot_at S.at slot.now e)
        (met_at S.at opening.entry.met e) opening.entry.opened.now
        (pieces_at S.at opening.entry.first.now e) (held_at S.at opening.entry.held e))
        (λ e. FirstFits (context_at S.at container.now e) (slot_at S.at slot.now e)
        (met_at S.at opening.entry.met e) (pieces_at S.at opening.entry.first.now e)) }
{
    let alloc = container.tree.boxes.allocator();
    let strut = strut(calc, container);
    let extent = extent_at_start(calc, container, strut, opening.opened);
    let opened = copy_boxes(alloc, calc, opening.opened);
    let empty = nothing(calc);
    let load = Load {
        held: empty,
        is_ended: false,
        is_line: false,
        met: opening.met,
        extent,
        opened,
        guess: Guess {
            line: text_in(opening.first),
            fits: opening.guess.fits,
            over: opening.guess.over,
        },
    };
    let first = opening.first;
    let (_, late) = first.split_at(ahead(container.tree, first));
    let floats = floats_of(alloc, calc, late);
    let taken = Taken {
        part: first,
        floats: floats.as_slice(),
        held: opening.held,
    };
    with_segment(calc, container, slot, load, taken)
}
