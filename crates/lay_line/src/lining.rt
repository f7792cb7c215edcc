//! The lines of a block container, one after another (CSS 2.1, 9.4.2, 9.5, 10.8, 16.2).
ghost use Rattle.std.specs.Prelude.{◌≡◌, ◌<◌, ◌++◌, None, length, IsTrue, ⊤};
ghost use Rattle.viz_calc.specs.State.{WhereOpen};
ghost use Rattle.std.specs.List.{AllByRecursion};
ghost use Rattle.viz_calc.specs.World.{Reading};
ghost use Rattle.viz_calc.specs.Run.{Goes, BlamesButMem, LaysButMem};
ghost use Rattle.layout_semantics.specs.InlineContent.{content as content_of};
ghost use Rattle.layout_semantics.specs.Lines.{lines_in};
ghost use Rattle.layout_semantics.specs.Segments.{may_part};
ghost use Rattle.lay_float.specs.Readings.{floats_at};
ghost use Rattle.lay_line.specs.Contexts.{context_at};
ghost use Rattle.lay_line.specs.Items.{items_of, summed_of};
ghost use Rattle.lay_line.specs.LinesFit.{RestFits, LinesFit};
ghost use Rattle.lay_line.specs.Lining.{so_far_at, next_of, laid_at};
ghost use Rattle.lay_line.specs.Readings.{pieces_at, parts_at, entries_at};
ghost use Rattle.lay_line.specs.steps.Content.{IsSum};
ghost use Rattle.lay_line.specs.steps.Leaping.{AreWide};
ghost use Rattle.lay_line.specs.steps.Lining.{laying};
ghost use Rattle.lay_line.specs.steps.Marks.{marks as marks_of};

use crate::breaks::{Parting, marks};
use crate::containers::Container;
use crate::content::content;
use crate::endings::{Begun, FullLine, SoFar, end_line};
use crate::held::{nothing, with_pieces};
use crate::items::Item;
use crate::leaps::Guess;
use crate::loads::{fill, tallest};
use crate::meeting::Slot;
use crate::openings::{Opening, first_load, meet_before};
use crate::segments::{Cut, Segments, cut_first};
use crate::sizes::measure;
use crate::tops::{Wanted, line_top};
use lay_float::Floats;
use viz_base::{BoxTree, Entry, Lines, List};
use viz_calc::Steady;

/// A block container, with the height of the tallest line that it could make.
#[derive(Drop)]
struct Frame<'w, 'a, N> {
    container: &'w Container<'a, N>,
    tall: N,
}

/// Where the next line begins, and the segments that are left.
#[derive(Drop)]
struct Next<'p, 'a, N> {
    now: SoFar<N>,
    rest: Segments<'p, 'a, N>,
}

/// Adds the next line.
fn next_line<'p, 'a, S: Steady>(
    calc: &mut S,
    frame: &Frame<'_, '_, S::Num>,
    now: SoFar<S::Num>,
    cut: Cut<'p, 'a, S::Num>,
    entries: &mut List<Entry<S::Num>>,
) -> Next<'p, 'a, S::Num>
    requires parts { cut.pieces.now ≡ cut.first.now ++ cut.rest.pieces.now }
    requires wide { WhereOpen (S.run calc.old).is_open
        (λ e. AreWide (pieces_at S.at cut.pieces.now e)) }
    ensures goes { Goes (S.run calc.old) (S.run calc.new) }
    ensures after { WhereOpen (S.run calc.new).is_open
        (λ e. so_far_at S.at result.now e ≡ (next_of S.at frame.now now cut.entry e).0.after) }
    ensures added { WhereOpen (S.run calc.new).is_open
        (λ e. entries_at S.at entries.new e
        ≡ entries_at S.at entries.old e ++ (next_of S.at frame.now now cut.entry e).0.entries) }
    ensures rest { WhereOpen (S.run calc.new).is_open
        (λ e. parts_at S.at result.rest e ≡ (next_of S.at frame.now now cut.entry e).1) }
    ensures cause { BlamesButMem (S.run calc.old) (S.run calc.new)
        (WhereOpen (S.run calc.old).is_open
        (λ e. RestFits (context_at S.at frame.now.container.now e) (S.at frame.now.tall e)
        (so_far_at S.at now e) (pieces_at S.at cut.entry.pieces.now e))) }
{
    let first = cut.first;
    let floats = now.floats;
    let begun = Begun {
        y: now.y,
        least: now.least,
        floats: floats.placed.len(),
        opened: now.opened,
        baseline: now.baseline,
    };
    let container = frame.container;
    let start = nothing(calc);
    // The first segment stands on the line in any case; how wide it is decides where the line's top is.
    let held = with_pieces(calc, start, first);
    // Floats before anything else on the line are placed from where it begins, before its top is looked for.
    let met = meet_before(calc, container, &begun, floats, first);
    let top = line_top(
        calc,
        &Wanted {
            container,
            floats: met.floats.placed.as_slice(),
            y: &begun.y,
            tall: &frame.tall,
            width: &held.width,
        },
    );
    let tall = calc.copy(&frame.tall);
    let least = calc.copy(&begun.least);
    let slot = Slot { top, tall, least };
    let opening = Opening {
        met,
        opened: begun.opened.as_slice(),
        first,
        held,
        guess: now.guess,
    };
    let load = first_load(calc, container, &slot, opening);
    let filled = fill(calc, container, &slot, load, cut.rest);
    // What the line took is told by what is left, so that nothing is counted on the way.
    let count = cut.pieces.len().saturating_sub(filled.rest.pieces.len());
    let (pieces, _) = cut.pieces.split_at(count);
    let line = FullLine {
        slot,
        load: filled.load,
        pieces,
    };
    let now = end_line(calc, container, begun, line, entries);
    Next {
        now,
        rest: filled.rest,
    }
}

/// Adds the lines of segments, one after another.
fn lay<S: Steady>(
    calc: &mut S,
    frame: &Frame<'_, '_, S::Num>,
    start: SoFar<S::Num>,
    segments: Segments<'_, '_, S::Num>,
    entries: &mut List<Entry<S::Num>>,
) -> SoFar<S::Num>
    requires { WhereOpen (S.run calc.old).is_open
        (λ e. AreWide (pieces_at S.at segments.pieces.now e)) }
    ensures goes { Goes (S.run calc.old) (S.run calc.new) }
    ensures after { WhereOpen (S.run calc.new).is_open
        (λ e. so_far_at S.at result e ≡
        (laying (length segments.entry.pieces.now) (context_at S.at frame.now.container.now e)
        (S.at frame.now.tall e) (so_far_at S.at start e) (parts_at S.at segments.entry e)).after) }
    ensures added { WhereOpen (S.run calc.new).is_open
        (λ e. entries_at S.at entries.new e
        ≡ entries_at S.at entries.old e
        ++ (laying (length segments.entry.pieces.now) (context_at S.at frame.now.container.now e)
        (S.at frame.now.tall e) (so_far_at S.at start e)
        (parts_at S.at segments.entry e)).entries) }
    ensures cause { BlamesButMem (S.run calc.old) (S.run calc.new)
        (WhereOpen (S.run calc.old).is_open
        (λ e. RestFits (context_at S.at frame.now.container.now e) (S.at frame.now.tall e)
        (so_far_at S.at start e) (pieces_at S.at segments.entry.pieces.now e))) }
{
    let mut now = start;
    let count = segments.pieces.len();
    let mut rest = segments;
    // Each line takes at least one segment, and a segment at least one piece.
    for line in 0..count {
        match cut_first(&rest) {
            Some(cut) => {
                let next = next_line(calc, frame, now, cut, entries);
                now = next.now;
                rest = next.rest;
            }
            None => return now,
        }
    }
    now
}

/// The inline content of a container; nothing after a halt.
fn items_in<'t, S: Steady>(calc: &mut S, tree: &'t BoxTree, at: u32) -> Vec<Item<'t>>
    requires { at < length tree.now.boxes }
    ensures goes { Goes (S.run calc.old) (S.run calc.new) }
    ensures value { WhereOpen (S.run calc.new).is_open
        (λ e. items_of result.items ≡ content_of tree.now at) }
    ensures cause { BlamesButMem (S.run calc.old) (S.run calc.new) ⊤ }
    ensures kept { AllByRecursion (IsSum tree.now) (summed_of result.items) }
{
    match content(tree, at) {
        Ok(items) => items,
        Err(_) => {
            calc.stop();
            Vec::new(tree.boxes.allocator())
        }
    }
}

/// Where segments end.
fn marks_in<S: Steady>(calc: &mut S, tree: &BoxTree, items: &[Item]) -> Vec<bool>
    ensures { LaysButMem S.run calc.old calc.new (λ e. result.items)
        (λ e. marks_of (may_part tree.now) None None (items_of items.now)) (λ e. ⊤) }
{
    match marks(tree, Parting::Lines, items) {
        Ok(marks) => marks,
        Err(_) => {
            calc.stop();
            Vec::new(tree.boxes.allocator())
        }
    }
}

/// Lines, with the floats of the block formatting context behind them.
#[derive(Drop)]
pub struct Laid<N> {
    /// Their entries, their bottom, and the last one's baseline.
    pub lines: Lines<N>,
    /// The floats of the context.
    pub floats: Floats<N>,
}

/// The lines of a block container, from y on.
pub fn lines<S: Steady>(
    calc: &mut S,
    container: &Container<'_, S::Num>,
    y: &S::Num,
    least: &S::Num,
    floats: Floats<S::Num>,
) -> Laid<S::Num>
    requires { container.now.at < length container.now.tree.now.boxes }
    ensures { LaysButMem S.run calc.old calc.new (laid_at S.at result)
        (λ e. lines_in (context_at S.at container.now e) (S.at y.now e) (S.at least.now e)
        (floats_at S.at floats e))
        (λ e. LinesFit (context_at S.at container.now e) (S.at y.now e) (S.at least.now e)
        (floats_at S.at floats e)) }
{
    let alloc = container.tree.boxes.allocator();
    let items = items_in(calc, container.tree, container.at);
    let pieces = measure(calc, container, items.as_slice());
    let marks = marks_in(calc, container.tree, items.as_slice());
    // Which floats a line meets is asked of the tallest line, so its own height need not be known yet.
    let tall = tallest(calc, container, pieces.as_slice());
    let start = SoFar {
        y: calc.copy(y),
        least: calc.copy(least),
        floats,
        opened: Vec::new(alloc),
        baseline: None,
        guess: Guess {
            line: 0,
            fits: 0,
            over: u64::MAX,
        },
    };
    let frame = Frame { container, tall };
    let segments = Segments {
        pieces: pieces.as_slice(),
        marks: marks.as_slice(),
    };
    let mut entries = List::new(alloc);
    let end = lay(calc, &frame, start, segments, &mut entries);
    Laid {
        lines: Lines {
            entries,
            bottom: end.y,
            baseline: end.baseline,
        },
        floats: end.floats,
    }
}
