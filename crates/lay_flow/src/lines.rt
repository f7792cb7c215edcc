//! Lines in the flow (CSS 2.1, 9.4.2), with the floats and atomic boxes on them.
ghost use Rattle.std.specs.Prelude.{◌≡◌, ◌<◌, ◌++◌, fold, length, replicate, slice_set, unwrap_or, Some, None, IfOk, IsTrue};
ghost use Rattle.viz_calc.specs.State.{WhereOpen};
ghost use Rattle.std.specs.List.{flat_map, AllByRecursion};
ghost use Rattle.viz_calc.specs.World.{Reading};
ghost use Rattle.viz_calc.specs.Run.{Goes, BlamesButMem, Lays, LaysButMem};
ghost use Rattle.viz_calc.specs.Renderings.{band_at};
ghost use Rattle.layout_semantics.specs.Flow.{raised as raised_of};
ghost use Rattle.layout_semantics.specs.InlineContent.{inner_boxes as inner_of_box, inner_items};
ghost use Rattle.layout_semantics.specs.Lists.{room_for as room_of};
ghost use Rattle.lay_frame.specs.Readings.{boxes_at};
ghost use Rattle.lay_float.specs.Agreement.{Agree};
ghost use Rattle.lay_float.specs.Readings.{option_at};
ghost use Rattle.lay_line.specs.Contexts.{inner_at, table_at};
ghost use Rattle.lay_line.specs.Items.{items_of};
ghost use Rattle.lay_line.specs.Lining.{laid_at};
ghost use Rattle.lay_line.specs.Readings.{entry_at, entries_at};
ghost use Rattle.lay_steps.specs.Flow.{line_tops};
ghost use Rattle.lay_flow.specs.WalkFits.{InLinesFit};
ghost use Rattle.lay_flow.specs.Readings.{apart_at, context_at};
ghost use Rattle.lay_steps.specs.Flow.{inner_size as inner_of_step, entry_of, inner_table as table_of, lines_of, in_lines as lines_step, filled_table};
ghost use Rattle.lay_flow.specs.Low.{AreApartLow, AreLevelsLow, IsIndependentLow};
ghost use Rattle.lay_flow.specs.Fits.{IsEntryLow, IsNear};

use crate::floating::add_apart;
use crate::parts::{Context, Page};
use crate::reached::{below, raised};
use lay_float::Floats;
use lay_frame::lists::append;
use lay_length::lengths::zero;
use lay_line::containers::Container;
use lay_line::content::content;
use lay_line::items::Item;
use lay_line::lining::{Laid, lines};
use lay_preferred::places::places;
use lay_tree::boxes::{is_floated, is_replaced};
use lay_tree::styles::clips;
use std::alloc::{AllocError, Global};
use viz_base::{Band, BoxTree, Entry, Inner, Kind, Placed};
use viz_calc::Steady;

/// The floats and atomic boxes among some items.
fn inner_boxes_of(alloc: Global, items: &[Item]) -> Result<Vec<u32>, AllocError>
    ensures { IfOk result (λ boxes. boxes.items ≡ inner_items (items_of items.now)) }
{
    let mut boxes = Vec::new(alloc);
    for item in items {
        if let Item::Atomic(at) | Item::Float(at) = item {
            boxes.push(*at)?;
        }
    }
    Ok(boxes)
}

/// The floats and atomic boxes in the inline content of a box.
pub fn inner_boxes(tree: &BoxTree, b: u32) -> Result<Vec<u32>, AllocError>
    requires { b < length tree.now.boxes }
    ensures { IfOk result (λ boxes. boxes.items ≡ inner_of_box tree.now b) }
{
    let items = content(tree, b)?;
    inner_boxes_of(tree.boxes.allocator(), items.as_slice())
}

#[tactic(auto, unfolding(lay_steps::specs::Flow::inner_size, crate::specs::Readings::apart_at))]
/// What a float or an atomic box takes on a line.
fn inner_of<S: Steady>(calc: &mut S, page: &Page<'_, S::Num>, at: u32) -> Inner<S::Num>
    ensures { Lays S.run calc.old calc.new (inner_at S.at result)
        (λ e. inner_of_step page.now.tree.now e.world (apart_at S.at page.now.apart.now e) at)
        (λ e. IsIndependentLow (apart_at S.at page.now.apart.now e at)) }
{
    match page.apart.get(at as usize) {
        Some(Some(independent)) => {
            let width = calc.copy(&independent.size.width);
            let above = match &independent.baseline {
                Some(baseline)
                    if !is_floated(page.tree, at)
                        && !is_replaced(page.tree, at)
                        && !clips(page.tree, at) => { calc.copy(baseline) }
                // Floats and replaced boxes have no baseline, and one that clips counts by its margin edge
                // (10.8.1).
                _ => calc.copy(&independent.size.height),
            };
            let below = calc.sub(&independent.size.height, &above);
            Inner {
                b: at,
                width,
                above,
                below,
            }
        }
        _ => {
            let width = zero(calc);
            let above = zero(calc);
            let below = zero(calc);
            Inner {
                b: at,
                width,
                above,
                below,
            }
        }
    }
}

/// Puts what a box takes on a line to its place.
fn put<N: Drop>(table: &mut Vec<Option<Inner<N>>>, at: u32, inner: Inner<N>)
    ensures { table.new.items ≡ slice_set table.old.items at (Some inner) }
{
    if (at as usize) < table.len() {
        table[at as usize] = Some(inner);
    }
}

/// Puts what some boxes take on a line to their places.
fn fill<S: Steady>(
    calc: &mut S,
    page: &Page<'_, S::Num>,
    boxes: &[u32],
    table: &mut Vec<Option<Inner<S::Num>>>,
)
    ensures { Lays S.run calc.old calc.new (table_at S.at table.new.items)
        (λ e. filled_table page.now.tree.now e.world (apart_at S.at page.now.apart.now e)
        (table_at S.at table.old.items e) boxes.now)
        (λ e. AreApartLow (apart_at S.at page.now.apart.now e)) }
{
    for at in boxes {
        let inner = inner_of(calc, page, *at);
        put(table, *at, inner);
    }
}

/// How many places the table of a container has: none where nothing stands in its lines but text.
fn room_for(boxes: &[u32], all: usize) -> usize
    ensures { result ≡ room_of all boxes.now }
{
    // A table with a place for each box of the page, for each paragraph, would make pages of text quadratic.
    if boxes.is_empty() { 0 } else { all }
}

/// The floats and atomic boxes in a container's lines, and a table for them with nothing in it.
fn empty_table<N: Drop>(
    tree: &BoxTree,
    b: u32,
) -> Result<(Vec<u32>, Vec<Option<Inner<N>>>), AllocError>
    requires { b < length tree.now.boxes }
    ensures boxes { IfOk result (λ found. found.0.items ≡ inner_of_box tree.now b) }
    ensures places { IfOk result (λ found. found.1.items
        ≡ replicate (room_of (length tree.now.boxes) (inner_of_box tree.now b)) None) }
{
    let boxes = inner_boxes(tree, b)?;
    let room = room_for(boxes.as_slice(), tree.boxes.len());
    let places = places(tree.boxes.allocator(), room)?;
    Ok((boxes, places))
}

/// What the floats and atomic boxes in a container's lines take, each at the place of its box.
fn inner_table<S: Steady>(
    calc: &mut S,
    page: &Page<'_, S::Num>,
    b: u32,
) -> Vec<Option<Inner<S::Num>>>
    requires { b < length page.now.tree.now.boxes }
    ensures { LaysButMem S.run calc.old calc.new (table_at S.at result.items)
        (λ e. table_of page.now.tree.now e.world (apart_at S.at page.now.apart.now e) b)
        (λ e. AreApartLow (apart_at S.at page.now.apart.now e)) }
{
    match empty_table(page.tree, b) {
        Ok((boxes, mut table)) => {
            fill(calc, page, boxes.as_slice(), &mut table);
            table
        }
        Err(_) => {
            calc.stop();
            Vec::new(page.tree.boxes.allocator())
        }
    }
}

/// The greatest top so far, with that of an entry that is a line.
fn raised_with<S: Steady>(
    calc: &mut S,
    least: Option<S::Num>,
    entry: &Entry<S::Num>,
) -> Option<S::Num>
    ensures { Lays S.run calc.old calc.new (option_at S.at result)
        (λ e. fold raised_of (option_at S.at least e) (line_tops (entry_at S.at entry.now e)))
        (λ e. AreLevelsLow (option_at S.at least e) × IsEntryLow (entry_at S.at entry.now e)) }
{
    match entry {
        Entry::Here(placed) if matches!(placed.kind, Kind::Line) => {
            let top = calc.copy(&placed.margin.top);
            raised(calc, &least, top)
        }
        _ => least,
    }
}

/// The greatest top so far, with those of lines.
fn raised_by<S: Steady>(
    calc: &mut S,
    least: Option<S::Num>,
    entries: &[Entry<S::Num>],
) -> Option<S::Num>
    ensures { Lays S.run calc.old calc.new (option_at S.at result)
        (λ e. fold raised_of (option_at S.at least e)
        (flat_map line_tops (entries_at S.at entries.now e)))
        (λ e. AreLevelsLow (option_at S.at least e)
        × AllByRecursion IsEntryLow (entries_at S.at entries.now e)) }
{
    let mut best = least;
    for entry in entries {
        best = raised_with(calc, best, entry);
    }
    best
}

#[tactic(auto, unfolding(lay_steps::specs::Flow::entry_of))]
/// Adds an entry: the boxes of a float or an atomic box at its place, or one box.
fn add_entry<S: Steady>(
    calc: &mut S,
    page: &Page<'_, S::Num>,
    entry: Entry<S::Num>,
    out: &mut Vec<Placed<S::Num>>,
)
    ensures { LaysButMem S.run calc.old calc.new (boxes_at S.at out.new.items)
        (λ e. boxes_at S.at out.old.items e
        ++ entry_of page.now.tree.now e.world (apart_at S.at page.now.apart.now e)
        (entry_at S.at entry e)) (λ e. AreApartLow (apart_at S.at page.now.apart.now e)
        × IsEntryLow (entry_at S.at entry e)) }
{
    match entry {
        Entry::Here(placed) => append(calc, out, placed),
        Entry::Goes(at, spot) => add_apart(calc, page.apart, at, &spot, out),
    }
}

/// Adds entries in order.
fn add_entries<S: Steady>(
    calc: &mut S,
    page: &Page<'_, S::Num>,
    entries: Vec<Entry<S::Num>>,
    out: &mut Vec<Placed<S::Num>>,
)
    ensures { LaysButMem S.run calc.old calc.new (boxes_at S.at out.new.items)
        (λ e. boxes_at S.at out.old.items e
        ++ flat_map (entry_of page.now.tree.now e.world (apart_at S.at page.now.apart.now e))
        (entries_at S.at entries.items e))
        (λ e. AreApartLow (apart_at S.at page.now.apart.now e)
        × AllByRecursion IsEntryLow (entries_at S.at entries.items e)) }
{
    for entry in entries {
        add_entry(calc, page, entry, out);
    }
}

/// The highest top that floats on lines from `top` on may have.
fn least_top<S: Steady>(calc: &mut S, least: &Option<S::Num>, top: &S::Num) -> S::Num
    ensures { Lays S.run calc.old calc.new (S.at result)
        (λ e. unwrap_or (option_at S.at least.now e) (S.at top.now e))
        (λ e. AreLevelsLow (option_at S.at least.now e) × IsNear (S.at top.now e)) }
{
    match least {
        Some(least) => calc.copy(least),
        None => calc.copy(top),
    }
}

/// The lines of a block container, from `top` on; the context has then no floats.
fn lines_in<S: Steady>(
    calc: &mut S,
    page: &Page<'_, S::Num>,
    b: u32,
    cb: &Band<S::Num>,
    top: &S::Num,
    context: &mut Context<S::Num>,
) -> Laid<S::Num>
    requires { b < length page.now.tree.now.boxes }
    ensures goes { Goes (S.run calc.old) (S.run calc.new) }
    ensures value { WhereOpen (S.run calc.new).is_open
        (λ e. laid_at S.at result e ≡ lines_of page.now.tree.now e.world
        (apart_at S.at page.now.apart.now e) b (band_at S.at cb.now e) (S.at top.now e)
        (context_at S.at context.old e)) }
    ensures least { context.new.least ≡ context.old.least }
    ensures cause { BlamesButMem (S.run calc.old) (S.run calc.new)
        (WhereOpen (S.run calc.old).is_open
        (λ e. InLinesFit page.now.tree.now e.world (apart_at S.at page.now.apart.now e) b
        (band_at S.at cb.now e) (S.at top.now e) (context_at S.at context.old e))) }
{
    let table = inner_table(calc, page, b);
    let container = Container {
        tree: page.tree,
        at: b,
        inner: table.as_slice(),
        cb,
    };
    let least = least_top(calc, &context.least, top);
    // Lines own the list while they place into it, and give it back.
    let floats = std::mem::replace(
        &mut context.floats,
        Floats::new(page.tree.boxes.allocator()),
    );
    lines(calc, &container, top, &least, floats)
}

/// Lays out the lines of a block container.
pub fn in_lines<S: Steady>(
    calc: &mut S,
    page: &Page<'_, S::Num>,
    b: u32,
    cb: &Band<S::Num>,
    top: &S::Num,
    context: &mut Context<S::Num>,
    out: &mut Vec<Placed<S::Num>>,
)
    requires within { b < length page.now.tree.now.boxes }
    requires agrees { Agree S.at (S.run calc.old).is_open context.old.floats }
    ensures goes { Goes (S.run calc.old) (S.run calc.new) }
    ensures context { WhereOpen (S.run calc.new).is_open
        (λ e. context_at S.at context.new e
        ≡ (lines_step page.now.tree.now e.world (apart_at S.at page.now.apart.now e) b
        (band_at S.at cb.now e) (S.at top.now e) (context_at S.at context.old e)).context) }
    ensures boxes { WhereOpen (S.run calc.new).is_open
        (λ e. boxes_at S.at out.new.items e
        ≡ boxes_at S.at out.old.items e
        ++ (lines_step page.now.tree.now e.world (apart_at S.at page.now.apart.now e) b
        (band_at S.at cb.now e) (S.at top.now e) (context_at S.at context.old e)).boxes) }
    ensures cause { BlamesButMem (S.run calc.old) (S.run calc.new)
        (WhereOpen (S.run calc.old).is_open
        (λ e. InLinesFit page.now.tree.now e.world (apart_at S.at page.now.apart.now e) b
        (band_at S.at cb.now e) (S.at top.now e) (context_at S.at context.old e))) }
    ensures agrees { Agree S.at (S.run calc.new).is_open context.new.floats }
{
    let ended = context.floats.ended;
    let Laid { lines, floats } = lines_in(calc, page, b, cb, top, context);
    let standing = below(calc, &lines.bottom);
    let least = raised_by(calc, context.least.take(), lines.entries.as_slice());
    *context = Context {
        standing,
        // Lines place floats behind the earlier ones, so those that had ended have ended still.
        floats: Floats {
            placed: floats.placed,
            ended,
        },
        least,
        baseline: lines.baseline,
    };
    add_entries(calc, page, lines.entries.into_vec(), out);
}
