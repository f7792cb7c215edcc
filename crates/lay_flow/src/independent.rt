//! Boxes in coordinates of their own: floats, atomic boxes and the root (CSS 2.1, 9.4.1, 9.5).
ghost use Rattle.std.specs.Prelude.{◌≡◌, ◌<◌, length, IsTrue};
ghost use Rattle.viz_calc.specs.State.{WhereOpen};
ghost use Rattle.viz_calc.specs.World.{Reading};
ghost use Rattle.viz_calc.specs.Run.{Stands, Goes, BlamesButMem, Lays, LaysButMem};
ghost use Rattle.viz_calc.specs.Renderings.{placed_at};
ghost use Rattle.layout_semantics.specs.FlowBoxes.{room_to};
ghost use Rattle.layout_semantics.specs.Horizontal.{widths as widths_of};
ghost use Rattle.layout_semantics.specs.Rectangles.{outer_extent as extent_of};
ghost use Rattle.lay_frame.specs.Readings.{frame_at};
ghost use Rattle.lay_float.specs.Readings.{extent_at};
ghost use Rattle.lay_preferred.specs.Readings.{AreFound};
ghost use Rattle.lay_width.specs.Readings.{widths_at};
ghost use Rattle.lay_flow.specs.IndependentFits.{IndependentFits, RoomFits, RootFits};
ghost use Rattle.lay_flow.specs.WalkFits.{AllFit};
ghost use Rattle.lay_flow.specs.Readings.{independent_at, apart_at};
ghost use Rattle.lay_steps.specs.Flow.{content_of, corner_of, independent_of};
ghost use Rattle.lay_steps.specs.Flow.{replaced_independent as replaced_independent_of, context_independent as context_independent_of};
ghost use Rattle.lay_preferred.specs.Fitting.{BoxesFit};
ghost use Rattle.lay_flow.specs.Low.{IsFrameLow};
ghost use Rattle.page_limits.specs.Bounds.{IsQuadIn};
ghost use Rattle.lay_flow.specs.Fits.{IsReplacedFit, IsShapeFit, near};

use crate::frames::{context_box, replaced_box};
use crate::parts::{Independent, Page};
use crate::walk::{content, fresh};
use lay_frame::frames::{Shape, content_top, verticals};
use lay_frame::lists::{append, keep, put};
use lay_length::lengths::zero;
use lay_margin::leads::content_between;
use lay_preferred::engine::preferred;
use lay_preferred::found::Found;
use lay_tree::boxes::{is_replaced, kind, parent};
use lay_tree::placings::{Placing, placed_as};
use lay_width::engine::{block, replaced_block, replaced_shrunk, shrunk};
use viz_base::{BoxTree, Extent, Kind, Placed, Spot, Widths};
use viz_calc::Steady;

#[tactic(auto, unfolding(layout_semantics::specs::Horizontal::widths))]
/// The used widths of a box in so wide a containing block, with the preferred widths that were found before.
fn widths<S: Steady>(
    calc: &mut S,
    tree: &BoxTree,
    found: &mut Found<S::Num>,
    b: u32,
    room: &S::Num,
) -> Widths<S::Num>
    requires { AreFound S.at (S.run calc.old) tree.now found.old.widths.items }
    ensures goes { Goes (S.run calc.old) (S.run calc.new) }
    ensures found { AreFound S.at (S.run calc.new) tree.now found.new.widths.items }
    ensures value { WhereOpen (S.run calc.new).is_open
        (λ e. widths_at S.at result e ≡ widths_of tree.now e.world b (S.at room.now e)) }
    ensures cause { BlamesButMem (S.run calc.old) (S.run calc.new)
        (BoxesFit tree.now (S.run calc.old).is_open
        × (WhereOpen (S.run calc.old).is_open
        (λ e. IsShapeFit tree.now e.world b (S.at room.now e)))) }
{
    match placed_as(tree, b) {
        Placing::Block => block(calc, tree, b, room),
        Placing::ReplacedBlock => replaced_block(calc, tree, b, room),
        Placing::ReplacedShrunk => replaced_shrunk(calc, tree, b, room),
        // Only shrink-to-fit asks for preferred widths (10.3.5, 10.3.9); for the other kinds none is computed.
        Placing::Shrunk => {
            let both = preferred(calc, tree, b, found);
            shrunk(calc, tree, b, room, &both)
        }
    }
}

#[tactic(auto, unfolding(layout_semantics::specs::FlowBoxes::room_to))]
/// The width of the containing block of a box, up so many levels: an inline box is none (CSS 2.1, 10.1).
pub fn room<S: Steady>(
    calc: &mut S,
    tree: &BoxTree,
    found: &mut Found<S::Num>,
    levels: u64,
    b: u32,
) -> S::Num
    requires { AreFound S.at (S.run calc.old) tree.now found.old.widths.items }
    ensures goes { Goes (S.run calc.old) (S.run calc.new) }
    ensures found { AreFound S.at (S.run calc.new) tree.now found.new.widths.items }
    ensures value { Stands (S.run calc.new) (S.at result) (λ e. room_to levels tree.now e.world b) }
    ensures cause { BlamesButMem (S.run calc.old) (S.run calc.new)
        (AllFit tree.now (S.run calc.old).is_open (λ e. RoomFits tree.now e.world levels b)) }
{
    if levels == 0 {
        return calc.width();
    }
    match parent(tree, b) {
        Some(parent) => {
            let around = room(calc, tree, found, levels - 1, parent);
            // An inline box is no containing block of what is in it (10.1).
            if matches!(kind(tree, parent), Kind::Inline) {
                return around;
            }
            widths(calc, tree, found, parent, &around).content
        }
        None => calc.width(),
    }
}

#[tactic(auto, unfolding(lay_steps::specs::Flow::corner_of))]
/// A box before its height is known, its outer box at the corner of coordinates of its own.
fn corner_shape<S: Steady>(
    calc: &mut S,
    tree: &BoxTree,
    found: &mut Found<S::Num>,
    b: u32,
    room: &S::Num,
) -> Shape<S::Num>
    requires { AreFound S.at (S.run calc.old) tree.now found.old.widths.items }
    ensures goes { Goes (S.run calc.old) (S.run calc.new) }
    ensures found { AreFound S.at (S.run calc.new) tree.now found.new.widths.items }
    ensures value { WhereOpen (S.run calc.new).is_open
        (λ e. frame_at S.at result e ≡ corner_of tree.now e.world b (S.at room.now e)) }
    ensures cause { BlamesButMem (S.run calc.old) (S.run calc.new)
        (BoxesFit tree.now (S.run calc.old).is_open
        × (WhereOpen (S.run calc.old).is_open
        (λ e. IsShapeFit tree.now e.world b (S.at room.now e)))) }
{
    let x = widths(calc, tree, found, b, room);
    let v = verticals(calc, tree, b, room);
    let left = calc.copy(&x.margin_left);
    let top = calc.copy(&v.margin_top);
    Shape {
        x,
        v,
        corner: Spot { x: left, y: top },
    }
}

/// The size of a box's outer box.
fn outer_extent<S: Steady>(calc: &mut S, placed: &Placed<S::Num>) -> Extent<S::Num>
    ensures { Lays S.run calc.old calc.new (extent_at S.at result)
        (λ e. extent_of (placed_at S.at placed.now e))
        (λ e. IsQuadIn near (placed_at S.at placed.now e).margin) }
{
    let width = calc.sub(&placed.margin.right, &placed.margin.left);
    let height = calc.sub(&placed.margin.bottom, &placed.margin.top);
    Extent { width, height }
}

#[tactic(auto, using(lay_frame::proofs::Slots::no_boxes), unfolding(lay_steps::specs::Flow::replaced_independent))]
/// A replaced box by itself.
fn replaced_independent<S: Steady>(
    calc: &mut S,
    page: &Page<'_, S::Num>,
    b: u32,
    room: &S::Num,
    shape: &Shape<S::Num>,
) -> Independent<S::Num>
    ensures { LaysButMem S.run calc.old calc.new (independent_at S.at result)
        (λ e. replaced_independent_of page.now.tree.now e.world b (S.at room.now e)
        (frame_at S.at shape.now e)) (λ e. IsReplacedFit page.now.tree.now e.world b
        (S.at room.now e) × IsFrameLow (frame_at S.at shape.now e)) }
{
    let placed = replaced_box(calc, page, b, room, shape);
    let size = outer_extent(calc, &placed);
    let mut boxes = Vec::new(page.tree.boxes.allocator());
    append(calc, &mut boxes, placed);
    Independent {
        size,
        baseline: None,
        boxes,
    }
}

#[tactic(auto, using(crate::proofs::IndependentBoxes::kept), unfolding(lay_steps::specs::Flow::context_independent))]
/// A box that starts a context by itself, with all in it.
fn context_independent<S: Steady>(
    calc: &mut S,
    page: &Page<'_, S::Num>,
    b: u32,
    shape: &Shape<S::Num>,
) -> Independent<S::Num>
    requires { b < length page.now.tree.now.boxes }
    ensures goes { Goes (S.run calc.old) (S.run calc.new) }
    ensures value { WhereOpen (S.run calc.new).is_open
        (λ e. independent_at S.at result e ≡ context_independent_of page.now.tree.now e.world
        (content_of page.now.tree.now e.world (apart_at S.at page.now.apart.now e)) b
        (frame_at S.at shape.now e)) }
    ensures cause { BlamesButMem (S.run calc.old) (S.run calc.new)
        (AllFit page.now.tree.now (S.run calc.old).is_open
        (λ e. RootFits page.now.tree.now e.world (apart_at S.at page.now.apart.now e) b
        (frame_at S.at shape.now e))) }
{
    let alloc = page.tree.boxes.allocator();
    let left = zero(calc);
    let band = content_between(calc, &left, &shape.x);
    let top = content_top(calc, shape);
    let mut context = fresh(alloc, calc, &top);
    let mut boxes = Vec::new(alloc);
    // A box stands before its content in the output, and its height is known behind it: its place is kept.
    let place = keep(calc, page.tree, b, shape, &mut boxes);
    content(calc, page, &band, &top, &mut context, b, &mut boxes);
    let placed = context_box(calc, page, b, shape, &context);
    let size = outer_extent(calc, &placed);
    put::<S>(&mut boxes, place, placed);
    Independent {
        size,
        baseline: context.baseline,
        boxes,
    }
}

#[tactic(auto, unfolding(lay_steps::specs::Flow::independent))]
/// Lays out a box by itself, in so wide a containing block.
pub fn independent<S: Steady>(
    calc: &mut S,
    page: &Page<'_, S::Num>,
    found: &mut Found<S::Num>,
    b: u32,
    room: &S::Num,
) -> Independent<S::Num>
    requires within { b < length page.now.tree.now.boxes }
    requires found { AreFound S.at (S.run calc.old) page.now.tree.now found.old.widths.items }
    ensures goes { Goes (S.run calc.old) (S.run calc.new) }
    ensures found { AreFound S.at (S.run calc.new) page.now.tree.now found.new.widths.items }
    ensures value { WhereOpen (S.run calc.new).is_open
        (λ e. independent_at S.at result e ≡ independent_of page.now.tree.now e.world
        (apart_at S.at page.now.apart.now e) b (S.at room.now e)) }
    ensures cause { BlamesButMem (S.run calc.old) (S.run calc.new)
        (AllFit page.now.tree.now (S.run calc.old).is_open
        (λ e. IndependentFits page.now.tree.now e.world (apart_at S.at page.now.apart.now e) b
        (S.at room.now e))) }
{
    let shape = corner_shape(calc, page.tree, found, b, room);
    if is_replaced(page.tree, b) {
        replaced_independent(calc, page, b, room, &shape)
    } else {
        context_independent(calc, page, b, &shape)
    }
}
