//! Where lines may break (CSS 2.1, 9.4.2, 16.6).
ghost use Rattle.std.specs.Prelude.{◌≡◌, IfOk, None, option_map, find};
ghost use Rattle.layout_semantics.specs.Segments.{is_thing as is_thing_of, is_wrapping_space as at_space, is_wrapping_atomic as at_atomic, is_behind_atomic as behind_atomic, may_part as may_part_by};
ghost use Rattle.lay_line.specs.Items.{item_of, items_of, parting_of, run_of};
ghost use Rattle.lay_line.specs.steps.Cutting.{leading_ends as ends_before, first_or as place_or, one_less as less_by_one, is_here as is_at, last_after as last_with, without as without_starts};
ghost use Rattle.lay_line.specs.steps.Marks.{no_run, run_after, break_until as place_until, behind_in, place_in, left_in, marks as marks_of};

use crate::items::{Item, is_end, is_forced, is_space, is_thing};
use lay_tree::boxes::parent;
use lay_tree::styles::wraps;
use std::alloc::{AllocError, Global};
use viz_base::BoxTree;

/// Between which things content is parted.
#[derive(Clone, Copy)]
pub enum Parting {
    /// Wherever a line may break.
    Lines,
    /// After forced breaks alone.
    Never,
}

/// Whether a line may break behind a space.
fn is_wrapping_space(tree: &BoxTree, item: &Item) -> bool
    ensures { result ≡ at_space tree.now (item_of item.now) }
{
    match item {
        Item::Space(at) => wraps(tree, *at),
        _ => false,
    }
}

/// Whether a line may break before and behind an atomic box.
fn is_wrapping_atomic(tree: &BoxTree, item: &Item) -> bool
    ensures { result ≡ at_atomic tree.now (item_of item.now) }
{
    match item {
        Item::Atomic(at) => match parent(tree, *at) {
            Some(parent) => wraps(tree, parent),
            None => false,
        },
        _ => false,
    }
}

/// Whether a thing stands directly behind an atomic box that lets lines break there, or is a space behind one.
fn is_behind_atomic(tree: &BoxTree, before: Option<Item>, first: &Item) -> bool
    ensures { result ≡ behind_atomic tree.now (option_map item_of before.entry)
        (item_of first.now) }
{
    match first {
        Item::Space(_) => match before {
            Some(before) => is_wrapping_atomic(tree, &before),
            None => false,
        },
        _ => is_wrapping_atomic(tree, first),
    }
}

/// Whether a line may break between two things that follow one another.
fn may_break(tree: &BoxTree, before: Option<Item>, first: &Item, next: &Item) -> bool
    ensures { result ≡ may_part_by tree.now (option_map item_of before.entry) (item_of first.now)
        (item_of next.now) }
{
    !is_space(next)
        && !is_forced(next)
        && (is_wrapping_space(tree, first)
            || is_behind_atomic(tree, before, first)
            || is_wrapping_atomic(tree, next))
}

/// Whether content is parted between two things that follow one another.
fn may_part(
    tree: &BoxTree,
    parting: Parting,
    before: Option<Item>,
    first: &Item,
    next: &Item,
) -> bool
    ensures { result ≡ parting_of tree.now parting (option_map item_of before.entry)
        (item_of first.now) (item_of next.now) }
{
    match parting {
        Parting::Lines => may_break(tree, before, first, next),
        Parting::Never => false,
    }
}

/// How many ends of inline boxes come first.
fn leading_ends(items: &[Item]) -> usize
    ensures { result ≡ ends_before (items_of items.now) }
{
    let mut count = 0;
    for item in items {
        if !is_end(item) {
            return count;
        }
        count += 1;
    }
    count
}

/// The first thing.
fn next_thing<'a>(items: &[Item<'a>]) -> Option<Item<'a>>
    ensures { option_map item_of result ≡ find is_thing_of (items_of items.now) }
{
    for item in items {
        if is_thing(item) {
            return Some(*item);
        }
    }
    None
}

/// The place of the first start that has not ended; where there is none, the one behind the last end.
fn first_or(starts: &[(u32, usize)], last: usize) -> usize
    ensures { result ≡ place_or starts.now last }
{
    match starts.first() {
        Some((_, place)) => *place,
        None => last,
    }
}

/// The starts of other boxes.
fn without(alloc: Global, at: u32, starts: &[(u32, usize)]) -> Result<Vec<(u32, usize)>, AllocError>
    ensures { IfOk result (λ others. others.items ≡ without_starts at starts.now) }
{
    let mut others = Vec::new(alloc);
    for start in starts {
        if start.0 != at {
            others.push(*start)?;
        }
    }
    Ok(others)
}

/// What is known of the items of a run that are behind.
#[derive(Drop)]
pub struct Run {
    /// The boxes that have started and not ended, each with the place behind the last end before it.
    pub starts: Vec<(u32, usize)>,
    /// The place behind the last end.
    pub last: usize,
}

/// With one item more, which is the `count`th.
fn after_item(alloc: Global, run: Run, item: &Item, count: usize) -> Result<Run, AllocError>
    ensures { IfOk result (λ next. run_of next ≡ run_after count (run_of run) (item_of item.now)) }
{
    let Run { starts, last } = run;
    match item {
        Item::Start(at) => {
            let mut starts = starts;
            starts.push((*at, last))?;
            Ok(Run { starts, last })
        }
        Item::Finish(at) => {
            let starts = without(alloc, *at, starts.as_slice())?;
            Ok(Run {
                starts,
                last: count,
            })
        }
        _ => Ok(Run { starts, last }),
    }
}

/// Behind how many of the items up to the next thing a break stands: behind the last end, up to the first inline box
/// that holds that thing.
fn break_until(alloc: Global, items: &[Item]) -> Result<usize, AllocError>
    ensures { IfOk result (λ n. n ≡ place_until 0 no_run (items_of items.now)) }
{
    let mut run = Run {
        starts: Vec::new(alloc),
        last: 0,
    };
    let mut count = 0;
    for item in items {
        if is_thing(item) {
            return Ok(first_or(run.starts.as_slice(), run.last));
        }
        count += 1;
        run = after_item(alloc, run, item, count)?;
    }
    Ok(first_or(run.starts.as_slice(), run.last))
}

/// Behind how many items after a thing that isn't a forced break the content is parted, if it is.
fn behind(
    tree: &BoxTree,
    parting: Parting,
    before: Option<Item>,
    thing: &Item,
    after: &[Item],
) -> Result<Option<usize>, AllocError>
    ensures { IfOk result (λ n. n ≡ behind_in (parting_of tree.now parting)
        (option_map item_of before.entry) (item_of thing.now)
        (find is_thing_of (items_of after.now)) (items_of after.now)) }
{
    match next_thing(after) {
        Some(next) => {
            if may_part(tree, parting, before, thing, &next) {
                Ok(Some(break_until(tree.boxes.allocator(), after)?))
            } else {
                Ok(None)
            }
        }
        None => Ok(None),
    }
}

/// Behind how many items after a thing the content is parted, if it is.
fn place(
    tree: &BoxTree,
    parting: Parting,
    before: Option<Item>,
    thing: &Item,
    after: &[Item],
) -> Result<Option<usize>, AllocError>
    ensures { IfOk result (λ n. n ≡ place_in (parting_of tree.now parting)
        (option_map item_of before.entry) (item_of thing.now) (items_of after.now)) }
{
    match thing {
        Item::Forced(_) => Ok(Some(leading_ends(after))),
        _ => behind(tree, parting, before, thing, after),
    }
}

/// One less, where there is a number and it isn't 0.
fn one_less(left: Option<usize>) -> Option<usize>
    ensures { result ≡ less_by_one left }
{
    match left {
        Some(n) => n.checked_sub(1),
        None => None,
    }
}

/// Whether there is a number and it is 0.
fn is_here(left: Option<usize>) -> bool
    ensures { result ≡ is_at left }
{
    match left {
        Some(n) => n == 0,
        None => false,
    }
}

/// How many items there are up to the break behind the last thing, after one more.
fn left_after(
    tree: &BoxTree,
    parting: Parting,
    last: Option<Item>,
    left: Option<usize>,
    item: &Item,
    after: &[Item],
) -> Result<Option<usize>, AllocError>
    ensures { IfOk result (λ n. n ≡ left_in (parting_of tree.now parting)
        (option_map item_of last.entry) left (item_of item.now) (items_of after.now)) }
{
    if is_thing(item) {
        place(tree, parting, last, item, after)
    } else {
        Ok(one_less(left))
    }
}

/// The last thing, after one more item.
fn last_after<'a>(last: Option<Item<'a>>, item: &Item<'a>) -> Option<Item<'a>>
    ensures { option_map item_of result
        ≡ last_with (option_map item_of last.entry) (item_of item.now) }
{
    if is_thing(item) { Some(*item) } else { last }
}

/// Whether a part of the content ends behind each item.
pub fn marks(tree: &BoxTree, parting: Parting, items: &[Item]) -> Result<Vec<bool>, AllocError>
    ensures { IfOk result (λ marks. marks.items ≡ marks_of (parting_of tree.now parting) None None
        (items_of items.now)) }
{
    let mut marks = Vec::new(tree.boxes.allocator());
    let mut last = None;
    let mut left = None;
    let mut count = 0;
    for item in items {
        count += 1;
        left = left_after(tree, parting, last, left, item, &items[count..])?;
        last = last_after(last, item);
        marks.push(is_here(left))?;
    }
    Ok(marks)
}
