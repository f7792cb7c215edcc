//! Rectangles of a range by trees of leaves, and those with too many leaves by their halves.
ghost use Rattle.std.specs.Prelude.{◌≤◌};

use crate::premises::edge_within;
use crate::sampling::Sample;
use crate::seeking::{
    GRID, Part, Place, Stop, below, count_of, enter, explore, first_pool, halving, leave, put_split,
};
use crate::tiling::grid_count;
use lin_proof::Row;
use path_calc::Pool;
use viz_base::{Child, Rect};

/// How many leaves a tree is to have at most.
#[derive(Clone, Copy)]
pub enum Budget {
    /// As few as can be read and checked in the time of grids.
    Ample,
    /// As many as grids, or as the turns are enough for.
    Tight,
}

/// From how many worlds on grids are preferred to many leaves.
const LARGE: u64 = 4096;

/// The budget of a search of a range with these turns: with a turn for each grid there are enough for grids alone.
pub fn budget_of(turns: u64, range: Rect) -> Budget {
    let worlds = count_of(range);
    if worlds > LARGE && turns >= grid_count(range) {
        Budget::Ample
    } else {
        Budget::Tight
    }
}

/// Finds the node of a rectangle, all of whose worlds are on the path: that of a tree of leaves, if there is one with
/// few enough, else that of the rectangle's halves.
#[cycle(rectangles)]
pub fn rectangle(place: &mut Place<'_>, part: Part) -> Result<(), Stop>
    ensures falls { place.new.turns ≤ place.old.turns }
{
    if count_of(part.rect) <= GRID {
        let mut pool = Pool::new(place.alloc);
        return explore(place, &mut pool, part);
    }
    if let Some(row) = edge_within(place, part.rect)? {
        return in_parts(place, part, &row);
    }
    if is_tree(place, part)? {
        return Ok(());
    }
    in_halves(place, part)
}

/// Finds the node of a rectangle by a tree of leaves. False where the tree has too many, by a sample or in fact.
fn is_tree(place: &mut Place<'_>, part: Part) -> Result<bool, Stop>
    ensures falls { place.new.turns ≤ place.old.turns }
{
    if place.spare == 0 || has_many_leaves(place, part.rect)? {
        return Ok(false);
    }
    let mut pool = first_pool(place, part.rect)?;
    match tree(place, &mut pool, part) {
        Ok(()) => Ok(true),
        Err(Stop::GaveUp) => Ok(false),
        Err(stop) => Err(stop),
    }
}

/// Whether a tree of a rectangle has too many leaves, by a sample.
fn has_many_leaves(place: &Place<'_>, rect: Rect) -> Result<bool, Stop> {
    let leaves = leaves_for(place, rect);
    let sample = Sample::new(place.alloc, place.job, place.seen(rect), leaves)?;
    match sample.untrue {
        Some(world) => Err(Stop::Untrue(world)),
        None => Ok(sample.has_more_than(leaves)),
    }
}

/// How many leaves a tree of a rectangle may have with the turns that are left.
fn leaves_for(place: &Place<'_>, rect: Rect) -> u64 {
    let leaves = place.turns.saturating_add(1) / 2;
    leaves.min(most_leaves(place.budget, rect))
}

/// With more leaves than grids, grids are the shorter proof by turns. By time they are it sooner: a leaf takes as long
/// to find and to check as the layouts of 60 to 200 worlds.
fn most_leaves(budget: Budget, rect: Rect) -> u64 {
    match budget {
        Budget::Ample => count_of(rect) / 160,
        Budget::Tight => grid_count(rect),
    }
}

/// The paths that a tree of a rectangle may take: so many leaves take twice as many, less one.
fn most_turns(budget: Budget, rect: Rect) -> u64 {
    let leaves = most_leaves(budget, rect);
    // What a tree took that is given up is lost, so one may end that has as many leaves as a sample may tell of it.
    let more = match budget {
        Budget::Ample => leaves / 4,
        Budget::Tight => 0,
    };
    let paths = leaves.saturating_add(more).saturating_mul(2);
    paths.saturating_sub(1).max(1)
}

/// Finds the node of a rectangle by a tree of leaves, within its share of the turns. What is given up takes none of
/// them, and so leaves enough for grids.
fn tree(place: &mut Place<'_>, pool: &mut Pool, part: Part) -> Result<(), Stop>
    ensures falls { place.new.turns ≤ place.old.turns }
{
    let (facts, floors) = (place.path.facts.len(), place.path.floors.len());
    let nodes = place.nodes.len();
    let turns = place.turns;
    let share = turns.min(most_turns(place.budget, part.rect));
    place.turns = share;
    let found = explore(place, pool, part);
    let taken = share.saturating_sub(place.turns);
    leave(place, facts, floors);
    place.found.truncate(0);
    if found.is_err() {
        place.nodes.truncate(nodes);
        place.spare = place.spare.saturating_sub(taken);
        place.turns = turns;
    } else {
        place.turns = turns.saturating_sub(taken);
    }
    found
}

/// Finds the node of a rectangle by its two parts, where the turns that are left can be enough for them.
#[cycle(rectangles)]
fn in_halves(place: &mut Place<'_>, part: Part) -> Result<(), Stop>
    ensures falls { place.new.turns ≤ place.old.turns }
{
    if place.turns <= most_turns(Budget::Tight, place.seen(part.rect)) / 4 {
        return Err(Stop::GaveUp);
    }
    let row = halving(place, part.rect)?;
    in_parts(place, part, &row)
}

/// Finds the node of a rectangle by the two parts into which a row cuts it.
#[cycle(rectangles)]
fn in_parts(place: &mut Place<'_>, part: Part, row: &Row) -> Result<(), Stop>
    ensures falls { place.new.turns ≤ place.old.turns }
{
    let Some(turns) = place.turns.checked_sub(1) else {
        return Err(Stop::GaveUp);
    };
    let part = part.lower()?;
    place.turns = turns;
    half(place, Child::First, part, row)?;
    half(place, Child::Second, part, row)?;
    put_split(place.alloc, &mut place.nodes, row)
}

/// Finds the node of one part of a rectangle.
#[cycle(rectangles)]
fn half(place: &mut Place<'_>, child: Child, part: Part, row: &Row) -> Result<(), Stop>
    ensures falls { place.new.turns ≤ place.old.turns }
{
    let Some(part) = below(place.job.form, row, child, part) else {
        return Err(Stop::GaveUp);
    };
    let (facts, floors) = (place.path.facts.len(), place.path.floors.len());
    enter(place, child, row)?;
    let found = rectangle(place, part);
    leave(place, facts, floors);
    found
}
