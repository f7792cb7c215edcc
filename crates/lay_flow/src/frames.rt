//! Boxes before and after their content (CSS 2.1, 8.1, 10.3, 10.6).
ghost use Rattle.std.specs.Prelude.{◌≡◌, ◌<◌, length, IsTrue};
ghost use Rattle.viz_calc.specs.State.{WhereOpen};
ghost use Rattle.viz_calc.specs.World.{Reading};
ghost use Rattle.viz_calc.specs.Run.{Goes, BlamesButMem, Lays};
ghost use Rattle.viz_calc.specs.Renderings.{placed_at, band_at};
ghost use Rattle.layout_semantics.specs.FlowBoxes.{inline_size as inline_size_of};
ghost use Rattle.layout_semantics.specs.Horizontal.{widths as widths_of};
ghost use Rattle.lay_frame.specs.Readings.{frame_at};
ghost use Rattle.lay_width.specs.Readings.{widths_at};
ghost use Rattle.lay_flow.specs.Readings.{context_at};
ghost use Rattle.lay_steps.specs.Flow.{frame_of, replaced_of, root_of, block_of};
ghost use Rattle.lay_preferred.specs.Fitting.{BoxesFit};
ghost use Rattle.lay_flow.specs.Low.{IsBandLow, IsContextLow, IsFrameLow, IsLevelLow};
ghost use Rattle.lay_flow.specs.Fits.{IsHeightFit, IsReplacedFit, IsShapeFit};

use crate::heights::{block_height, clamped, context_height, known_height, replaced_height};
use crate::parts::{Context, Page};
use lay_frame::frames::{Shape, content_top, verticals};
use lay_frame::places::place;
use lay_margin::leads::inline_size;
use lay_preferred::engine::preferred;
use lay_preferred::found::nothing_found;
use lay_tree::adjoining::joins_last_child;
use lay_tree::placings::{Placing, placed_as};
use lay_width::engine::{block, replaced_block, replaced_shrunk, shrunk};
use viz_base::{Band, Placed, Spot, Widths};
use viz_calc::Steady;

#[tactic(auto, unfolding(layout_semantics::specs::Horizontal::widths))]
/// The used widths of a box in so wide a containing block (CSS 2.1, 10.3, 10.4).
fn widths<S: Steady>(calc: &mut S, page: &Page<'_, S::Num>, b: u32, room: &S::Num) -> Widths<S::Num>
    requires { b < length page.now.tree.now.boxes }
    ensures goes { Goes (S.run calc.old) (S.run calc.new) }
    ensures value { WhereOpen (S.run calc.new).is_open
        (λ e. widths_at S.at result e ≡ widths_of page.now.tree.now e.world b (S.at room.now e)) }
    ensures cause { BlamesButMem (S.run calc.old) (S.run calc.new)
        (BoxesFit page.now.tree.now (S.run calc.old).is_open
        × (WhereOpen (S.run calc.old).is_open
        (λ e. IsShapeFit page.now.tree.now e.world b (S.at room.now e)))) }
{
    match placed_as(page.tree, b) {
        Placing::Block => block(calc, page.tree, b, room),
        Placing::ReplacedBlock => replaced_block(calc, page.tree, b, room),
        Placing::ReplacedShrunk => replaced_shrunk(calc, page.tree, b, room),
        Placing::Shrunk => {
            let mut found = nothing_found(calc, page.tree);
            let both = preferred(calc, page.tree, b, &mut found);
            shrunk(calc, page.tree, b, room, &both)
        }
    }
}

#[tactic(auto, unfolding(lay_steps::specs::Flow::frame_of))]
/// A box in flow before its height is known, its border top at `top`.
pub fn shape<S: Steady>(
    calc: &mut S,
    page: &Page<'_, S::Num>,
    cb: &Band<S::Num>,
    b: u32,
    top: &S::Num,
) -> Shape<S::Num>
    requires { b < length page.now.tree.now.boxes }
    ensures goes { Goes (S.run calc.old) (S.run calc.new) }
    ensures value { WhereOpen (S.run calc.new).is_open
        (λ e. frame_at S.at result e ≡ frame_of page.now.tree.now e.world b
        (inline_size_of (band_at S.at cb.now e)) (S.at cb.now.left e) (S.at top.now e)) }
    ensures cause { BlamesButMem (S.run calc.old) (S.run calc.new)
        (BoxesFit page.now.tree.now (S.run calc.old).is_open
        × (WhereOpen (S.run calc.old).is_open
        (λ e. IsBandLow (band_at S.at cb.now e)
        × (IsLevelLow (S.at top.now e)
        × IsShapeFit page.now.tree.now e.world b (inline_size_of (band_at S.at cb.now e)))))) }
{
    let room = inline_size(calc, cb);
    let x = widths(calc, page, b, &room);
    let v = verticals(calc, page.tree, b, &room);
    let left = calc.add(&cb.left, &x.margin_left);
    let top = calc.copy(top);
    Shape {
        x,
        v,
        corner: Spot { x: left, y: top },
    }
}

#[tactic(auto, unfolding(lay_steps::specs::Flow::replaced_of))]
/// A replaced box.
pub fn replaced_box<S: Steady>(
    calc: &mut S,
    page: &Page<'_, S::Num>,
    b: u32,
    room: &S::Num,
    shape: &Shape<S::Num>,
) -> Placed<S::Num>
    ensures { Lays S.run calc.old calc.new (placed_at S.at result)
        (λ e. replaced_of page.now.tree.now e.world b (S.at room.now e) (frame_at S.at shape.now e))
        (λ e. IsReplacedFit page.now.tree.now e.world b (S.at room.now e)
        × IsFrameLow (frame_at S.at shape.now e)) }
{
    let height = replaced_height(calc, page, b, room);
    place(calc, page.tree, b, shape, &height)
}

#[tactic(auto, unfolding(lay_steps::specs::Flow::root_of))]
/// A box that starts a context, after its content.
pub fn context_box<S: Steady>(
    calc: &mut S,
    page: &Page<'_, S::Num>,
    b: u32,
    shape: &Shape<S::Num>,
    end: &Context<S::Num>,
) -> Placed<S::Num>
    ensures { Lays S.run calc.old calc.new (placed_at S.at result)
        (λ e. root_of page.now.tree.now e.world b (frame_at S.at shape.now e)
        (context_at S.at end.now e)) (λ e. IsHeightFit page.now.tree.now e.world b
        × (IsFrameLow (frame_at S.at shape.now e) × IsContextLow (context_at S.at end.now e))) }
{
    let height = match known_height(calc, page, b) {
        Some(height) => height,
        None => {
            let top = content_top(calc, shape);
            context_height(calc, &top, end)
        }
    };
    let height = clamped(calc, page, b, height);
    place(calc, page.tree, b, shape, &height)
}

#[tactic(auto, unfolding(lay_steps::specs::Flow::block_of))]
/// A block that starts no context, after its content.
pub fn block_box<S: Steady>(
    calc: &mut S,
    page: &Page<'_, S::Num>,
    b: u32,
    shape: &Shape<S::Num>,
    end: &Context<S::Num>,
) -> Placed<S::Num>
    ensures { Lays S.run calc.old calc.new (placed_at S.at result)
        (λ e. block_of page.now.tree.now e.world b (frame_at S.at shape.now e)
        (context_at S.at end.now e)) (λ e. IsHeightFit page.now.tree.now e.world b
        × (IsFrameLow (frame_at S.at shape.now e) × IsContextLow (context_at S.at end.now e))) }
{
    let height = match known_height(calc, page, b) {
        Some(height) => height,
        None => {
            let top = content_top(calc, shape);
            block_height(calc, joins_last_child(page.tree, b), &top, &end.standing)
        }
    };
    let height = clamped(calc, page, b, height);
    place(calc, page.tree, b, shape, &height)
}
