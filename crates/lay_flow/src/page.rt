//! The boxes of a page: each float and each atomic box is laid out once, from the last one on, and kept by its number.
ghost use Rattle.std.specs.Prelude.{◌≡◌, ◌<◌, length, replicate, set, Some, None, IfOk, IfSome, IsTrue, filter};
ghost use Rattle.viz_calc.specs.State.{WhereOpen};
ghost use Rattle.std.specs.List.{AllByRecursion};
ghost use Rattle.viz_calc.specs.World.{Reading};
ghost use Rattle.viz_calc.specs.Run.{Goes, BlamesButMem};
ghost use Rattle.viz_calc.specs.Renderings.{rendering_at};
ghost use Rattle.layout_semantics.specs.InlineContent.{is_floated_at};
ghost use Rattle.layout_semantics.specs.Page.{page_rendering};
ghost use Rattle.lay_frame.specs.Readings.{boxes_at};
ghost use Rattle.lay_preferred.specs.Readings.{AreFound};
ghost use Rattle.lay_length.specs.Limits.{IsWithinLimits};
ghost use Rattle.lay_steps.specs.Tables.{outside_of as outside, page_boxes};
ghost use Rattle.lay_flow.specs.IndependentFits.{BoxAddedFits, BoxesAddedFit, ContainerFits, PageComesFit, TableFits};
ghost use Rattle.lay_flow.specs.WalkFits.{AllFit};
ghost use Rattle.lay_flow.specs.Readings.{table_at};
ghost use Rattle.lay_steps.specs.Tables.{with_box, with_boxes, with_container as with_container_of, table_to};

use crate::independent::{independent, room};
use crate::lines::inner_boxes;
use crate::parts::{Independent, Page};
use lay_preferred::found::{Found, nothing_found};
use lay_preferred::places::places;
use lay_tree::boxes::{children, is_floated, kind};
use lay_tree::contents::{floats_in, has_line, holds_inline};
use std::alloc::AllocError;
use viz_base::{BoxTree, Kind, List, Placed, Rendering};
use viz_calc::Steady;

/// The floats among some boxes.
fn floated(tree: &BoxTree, boxes: &[u32]) -> Result<Vec<u32>, AllocError>
    ensures { IfOk result (λ floats. floats.items ≡ filter (is_floated_at tree.now) boxes.now) }
{
    let mut floats = Vec::new(tree.boxes.allocator());
    for at in boxes {
        if is_floated(tree, *at) {
            floats.push(*at)?;
        }
    }
    Ok(floats)
}

/// What stands in a block container and not in its flow: the floats and atomic boxes of its lines, or the floats
/// between its blocks. They are behind it.
fn outside_of(tree: &BoxTree, b: u32) -> Result<Vec<u32>, AllocError>
    requires { b < length tree.now.boxes }
    ensures { IfOk result (λ boxes. boxes.items ≡ outside tree.now b) }
{
    if has_line(tree, b) {
        return inner_boxes(tree, b);
    }
    // Floats between blocks are children of the container; those in lines are among its items.
    if !holds_inline(tree, b) {
        return floated(tree, children(tree, b));
    }
    let floats = floats_in(tree, b)?;
    floated(tree, floats.as_slice())
}

/// Boxes that are laid out by themselves, each at the place of its number.
#[derive(Drop)]
struct Outside<N> {
    places: Vec<Option<Independent<N>>>,
}

/// Keeps a box that is laid out at the place of its number.
fn keep<N: Drop>(table: &mut Outside<N>, k: u32, laid: Independent<N>)
    ensures { table.new.places.items ≡ set table.old.places.items k (Some laid) }
{
    if (k as usize) < table.places.len() {
        table.places[k as usize] = Some(laid);
    }
}

/// Lays out a box by itself where its containing block is as wide as the tree says.
fn add_box<S: Steady>(
    calc: &mut S,
    tree: &BoxTree,
    found: &mut Found<S::Num>,
    k: u32,
    table: &mut Outside<S::Num>,
)
    requires within { k < length tree.now.boxes }
    requires found { AreFound S.at (S.run calc.old) tree.now found.old.widths.items }
    ensures goes { Goes (S.run calc.old) (S.run calc.new) }
    ensures found { AreFound S.at (S.run calc.new) tree.now found.new.widths.items }
    ensures value { WhereOpen (S.run calc.new).is_open
        (λ e. table_at S.at table.new.places.items e
        ≡ with_box tree.now e.world (table_at S.at table.old.places.items e) k) }
    ensures cause { BlamesButMem (S.run calc.old) (S.run calc.new)
        (AllFit tree.now (S.run calc.old).is_open
        (λ e. BoxAddedFits tree.now e.world (table_at S.at table.old.places.items e) k)) }
{
    // How wide the containing block is needs no layout: the tree tells it, level by level.
    let room = room(calc, tree, found, u64::from(k) + 1, k);
    let page = Page {
        tree,
        apart: table.places.as_slice(),
    };
    let laid = independent(calc, &page, found, k, &room);
    keep(table, k, laid);
}

/// Lays out boxes by themselves, one after another.
fn add_boxes<S: Steady>(
    calc: &mut S,
    tree: &BoxTree,
    found: &mut Found<S::Num>,
    boxes: &[u32],
    table: &mut Outside<S::Num>,
)
    requires within { AllByRecursion (λ k. k < length tree.now.boxes) boxes.now }
    requires found { AreFound S.at (S.run calc.old) tree.now found.old.widths.items }
    ensures goes { Goes (S.run calc.old) (S.run calc.new) }
    ensures found { AreFound S.at (S.run calc.new) tree.now found.new.widths.items }
    ensures value { WhereOpen (S.run calc.new).is_open
        (λ e. table_at S.at table.new.places.items e
        ≡ with_boxes tree.now e.world (table_at S.at table.old.places.items e) boxes.now) }
    ensures cause { BlamesButMem (S.run calc.old) (S.run calc.new)
        (AllFit tree.now (S.run calc.old).is_open
        (λ e. BoxesAddedFit tree.now e.world (table_at S.at table.old.places.items e) boxes.now)) }
{
    for k in boxes {
        add_box(calc, tree, found, *k, table);
    }
}

#[tactic(auto, unfolding(lay_steps::specs::Tables::with_container))]
/// Lays out what stands outside the flow of a box; an inline box is no block container.
fn add_container<S: Steady>(
    calc: &mut S,
    tree: &BoxTree,
    found: &mut Found<S::Num>,
    b: u32,
    table: &mut Outside<S::Num>,
)
    requires within { b < length tree.now.boxes }
    requires found { AreFound S.at (S.run calc.old) tree.now found.old.widths.items }
    ensures goes { Goes (S.run calc.old) (S.run calc.new) }
    ensures found { AreFound S.at (S.run calc.new) tree.now found.new.widths.items }
    ensures value { WhereOpen (S.run calc.new).is_open
        (λ e. table_at S.at table.new.places.items e
        ≡ with_container_of tree.now e.world (table_at S.at table.old.places.items e) b) }
    ensures cause { BlamesButMem (S.run calc.old) (S.run calc.new)
        (AllFit tree.now (S.run calc.old).is_open
        (λ e. ContainerFits tree.now e.world (table_at S.at table.old.places.items e) b)) }
{
    // What is in an inline box stands among the items of the block container around it.
    if matches!(kind(tree, b), Kind::Inline) {
        return;
    }
    match outside_of(tree, b) {
        Ok(boxes) => add_boxes(calc, tree, found, boxes.as_slice(), table),
        Err(_) => calc.stop(),
    }
}

/// A place for each box of a tree, and how many there are. No clause says when there is none.
fn table_of<N: Drop>(tree: &BoxTree) -> Option<(u32, Outside<N>)>
    ensures { IfSome result (λ made. (made.0 ≡ length tree.now.boxes)
        × (made.1.places.items ≡ replicate (length tree.now.boxes) None)) }
{
    let count = tree.boxes.len();
    match (u32::try_from(count), places(tree.boxes.allocator(), count)) {
        (Ok(count), Ok(places)) => Some((count, Outside { places })),
        _ => None,
    }
}

/// Lays out what stands outside the flow of each of so many boxes, from the last one on.
fn fill<S: Steady>(
    calc: &mut S,
    tree: &BoxTree,
    found: &mut Found<S::Num>,
    count: u32,
    table: &mut Outside<S::Num>,
)
    requires all { count ≡ length tree.now.boxes }
    requires empty { table.old.places.items ≡ replicate (length tree.now.boxes) None }
    requires found { AreFound S.at (S.run calc.old) tree.now found.old.widths.items }
    ensures goes { Goes (S.run calc.old) (S.run calc.new) }
    ensures found { AreFound S.at (S.run calc.new) tree.now found.new.widths.items }
    ensures value { WhereOpen (S.run calc.new).is_open
        (λ e. table_at S.at table.new.places.items e
        ≡ table_to tree.now e.world (length tree.now.boxes)) }
    ensures cause { BlamesButMem (S.run calc.old) (S.run calc.new)
        (AllFit tree.now (S.run calc.old).is_open (λ e. TableFits tree.now e.world)) }
{
    // From the last box on: all that is in a box stands behind it, so its entries are there already.
    for done in 0..count {
        add_container(calc, tree, found, count - 1 - done, table);
    }
}

/// Lays out what stands outside the flow of a page.
fn outside_flow<S: Steady>(
    calc: &mut S,
    tree: &BoxTree,
    found: &mut Found<S::Num>,
) -> Outside<S::Num>
    requires { AreFound S.at (S.run calc.old) tree.now found.old.widths.items }
    ensures goes { Goes (S.run calc.old) (S.run calc.new) }
    ensures found { AreFound S.at (S.run calc.new) tree.now found.new.widths.items }
    ensures value { WhereOpen (S.run calc.new).is_open
        (λ e. table_at S.at result.places.items e
        ≡ table_to tree.now e.world (length tree.now.boxes)) }
    ensures cause { BlamesButMem (S.run calc.old) (S.run calc.new)
        (AllFit tree.now (S.run calc.old).is_open (λ e. TableFits tree.now e.world)) }
{
    match table_of(tree) {
        Some((count, mut table)) => {
            fill(calc, tree, found, count, &mut table);
            table
        }
        None => {
            calc.stop();
            Outside {
                places: Vec::new(tree.boxes.allocator()),
            }
        }
    }
}

/// The boxes of a page.
fn boxes<S: Steady>(calc: &mut S, tree: &BoxTree) -> Vec<Placed<S::Num>>
    ensures goes { Goes (S.run calc.old) (S.run calc.new) }
    ensures value { WhereOpen (S.run calc.new).is_open
        (λ e. boxes_at S.at result.items e ≡ page_boxes tree.now e.world) }
    ensures cause { BlamesButMem (S.run calc.old) (S.run calc.new)
        (AllFit tree.now (S.run calc.old).is_open (λ e. PageComesFit tree.now e.world)) }
{
    if tree.boxes.is_empty() {
        return Vec::new(tree.boxes.allocator());
    }
    // One table of preferred widths for the page, so that each box is measured once.
    let mut found = nothing_found(calc, tree);
    let table = outside_flow(calc, tree, &mut found);
    let page = Page {
        tree,
        apart: table.places.as_slice(),
    };
    let room = calc.width();
    independent(calc, &page, &mut found, 0, &room).boxes
}

/// The rendering of a page at each reading that is open at the end.
pub fn render<S: Steady>(calc: &mut S, tree: &BoxTree) -> Rendering<S::Num>
    ensures goes { Goes (S.run calc.old) (S.run calc.new) }
    ensures value { WhereOpen (S.run calc.new).is_open
        (λ e. rendering_at S.at result e ≡ page_rendering tree.now e.world) }
    ensures cause { BlamesButMem (S.run calc.old) (S.run calc.new)
        (IsWithinLimits tree.now (S.run calc.old).is_open) }
{
    let boxes = List::from(boxes(calc, tree));
    Rendering { boxes }
}
