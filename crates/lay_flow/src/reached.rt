//! Where a box in flow stands, and what stands after it (CSS 2.1, 8.3.1, 9.5.2).
ghost use Rattle.std.specs.Prelude.{◌≡◌, ◌<◌, ℤ, ◌-ℤ◌, false, length, IsTrue};
ghost use Rattle.viz_calc.specs.State.{WhereOpen};
ghost use Rattle.std.specs.Int.{int_max, int_min};
ghost use Rattle.viz_calc.specs.World.{Reading};
ghost use Rattle.viz_calc.specs.Run.{Goes, Blames, Lays, LaysButMem};
ghost use Rattle.viz_calc.specs.Renderings.{band_at};
ghost use Rattle.layout_semantics.specs.Flow.{raised as raised_of};
ghost use Rattle.lay_frame.specs.Readings.{frame_at};
ghost use Rattle.lay_float.specs.Readings.{option_at};
ghost use Rattle.lay_margin.specs.Readings.{passed_by};
ghost use Rattle.lay_margin.specs.Runs.{run_at, no_run};
ghost use Rattle.lay_steps.specs.Flow.{is_at_top as at_top, below as below_of};
ghost use Rattle.lay_steps.specs.Forward.{cleared_of as cleared_in};
ghost use Rattle.lay_flow.specs.Readings.{apart_at, base_at, cleared_at, context_at, end_at, ending_at, found_at, met_at, standing_at};
ghost use Rattle.lay_flow.specs.WayFits.{ForwardFits, FromFits, ReachFits};
ghost use Rattle.lay_steps.specs.Flow.{forward_of, opened, reached_from as from_of, reached_of, standing_after as after_of, standing_in};
ghost use Rattle.lay_flow.specs.Low.{AreLevelsLow, IsBandLow, IsClearedLow, IsFrameLow, IsLevelLow, IsRunLow, IsStandingLow};
ghost use Rattle.lay_flow.specs.Fits.{IsNear};
ghost use Rattle.lay_width.specs.Fitting.{VerticalsFit};
ghost use Rattle.layout_semantics.specs.FlowBoxes.{inline_size as inline_size_of};

use crate::forward::{Way, forward};
use crate::parts::{Base, Cleared, Context, End, Going, Laid, Met, Page, Reached, Standing};
use lay_frame::frames::{Shape, content_top};
use lay_margin::Run;
use lay_margin::engine::{empty, value};
use lay_margin::leads::{copy_run, join_bottom};
use lay_tree::adjoining::is_open_above;
use viz_base::{Band, BoxTree, List};
use viz_calc::{Steady, greater, lesser};

/// The way forward from a box, with its run.
#[derive(Drop)]
struct Gone<N> {
    going: Going<N>,
    end: End<N>,
}

#[tactic(auto, unfolding(crate::specs::Ways::way_at))]
/// Goes forward from a box in a context.
fn go<S: Steady>(
    calc: &mut S,
    page: &Page<'_, S::Num>,
    base: &Base<S::Num>,
    past: Option<u32>,
    cb: &Band<S::Num>,
    context: &Context<S::Num>,
    b: u32,
    run: Run<S::Num>,
) -> Gone<S::Num>
    requires { b < length page.now.tree.now.boxes }
    ensures { LaysButMem S.run calc.old calc.new (found_at S.at result.going result.end)
        (λ e. forward_of page.now.tree.now e.world (apart_at S.at page.now.apart.now e)
        (base_at S.at base.now e) (passed_by past) (band_at S.at cb.now e)
        (context_at S.at context.now e) b (run_at S.at run e))
        (λ e. ForwardFits page.now.tree.now e.world (apart_at S.at page.now.apart.now e)
        (band_at S.at cb.now e) (context_at S.at context.now e) b (base_at S.at base.now e)
        (passed_by past) (run_at S.at run e)) }
{
    let mut going = Going {
        run,
        waiting: List::new(page.tree.boxes.allocator()),
        tries: None,
    };
    let way = Way {
        page,
        base,
        floats: context.floats.placed.as_slice(),
        least: &context.least,
        past,
    };
    let end = forward(calc, &way, cb, b, &mut going);
    Gone { going, end }
}

/// The box that is cleared where a way ends.
fn cleared_of<N>(end: End<N>) -> Option<Cleared<N>>
    ensures { (at : N → Reading → ℤ) (e : Reading)
        → cleared_at at result e ≡ cleared_in (end_at at end e) }
{
    match end {
        End::GoesOn | End::Solid => None,
        End::Ends(cleared) => Some(cleared),
    }
}

/// The cleared box again.
fn copy_cleared<S: Steady>(
    calc: &mut S,
    cleared: &Option<Cleared<S::Num>>,
) -> Option<Cleared<S::Num>>
    ensures { Lays S.run calc.old calc.new (cleared_at S.at result) (cleared_at S.at cleared.now)
        (λ e. IsClearedLow (cleared_at S.at cleared.now e)) }
{
    match cleared {
        Some(cleared) => {
            let edge = calc.copy(&cleared.edge);
            Some(Cleared {
                at: cleared.at,
                edge,
            })
        }
        None => None,
    }
}

#[tactic(auto, unfolding(lay_steps::specs::Flow::reached_from))]
/// Where a box is reached whose edge would be y, and the run before it: all before the cleared box stand at y.
fn reached_from<S: Steady>(
    calc: &mut S,
    page: &Page<'_, S::Num>,
    cb: &Band<S::Num>,
    context: &Context<S::Num>,
    b: u32,
    y: S::Num,
    cleared: Option<Cleared<S::Num>>,
    own: Run<S::Num>,
) -> Met<S::Num>
    requires { b < length page.now.tree.now.boxes }
    ensures { LaysButMem S.run calc.old calc.new (met_at S.at result)
        (λ e. from_of page.now.tree.now e.world (apart_at S.at page.now.apart.now e)
        (band_at S.at cb.now e) (context_at S.at context.now e) b (S.at y e)
        (cleared_at S.at cleared e) (run_at S.at own e))
        (λ e. FromFits page.now.tree.now e.world (apart_at S.at page.now.apart.now e)
        (band_at S.at cb.now e) (context_at S.at context.now e) b (cleared_at S.at cleared e)) }
{
    match cleared {
        None => Met {
            reached: Reached {
                top: y,
                clears: false,
                cleared: None,
            },
            own,
        },
        Some(cleared) => {
            if cleared.at == b {
                let top = calc.copy(&cleared.edge);
                // A cleared box stands exactly at the floats' bottom, whatever its margins.
                let base = Base::Stands(cleared.edge);
                let run = empty(calc);
                let gone = go(calc, page, &base, Some(b), cb, context, b, run);
                Met {
                    reached: Reached {
                        top,
                        clears: true,
                        cleared: cleared_of(gone.end),
                    },
                    own: gone.going.run,
                }
            } else {
                Met {
                    reached: Reached {
                        top: y,
                        clears: false,
                        cleared: Some(cleared),
                    },
                    own,
                }
            }
        }
    }
}

#[tactic(auto, unfolding(lay_steps::specs::Flow::reached_of))]
/// Where a box that comes next stands, and the run before it with its lead joined.
pub fn reach<S: Steady>(
    calc: &mut S,
    page: &Page<'_, S::Num>,
    cb: &Band<S::Num>,
    context: &Context<S::Num>,
    b: u32,
) -> Met<S::Num>
    requires { b < length page.now.tree.now.boxes }
    ensures { LaysButMem S.run calc.old calc.new (met_at S.at result)
        (λ e. reached_of page.now.tree.now e.world (apart_at S.at page.now.apart.now e)
        (band_at S.at cb.now e) (context_at S.at context.now e) b)
        (λ e. ReachFits page.now.tree.now e.world (apart_at S.at page.now.apart.now e)
        (band_at S.at cb.now e) (context_at S.at context.now e) b) }
{
    match &context.standing {
        Standing::AtTop { y, cleared } => {
            let y = calc.copy(y);
            let cleared = copy_cleared(calc, cleared);
            let run = empty(calc);
            reached_from(calc, page, cb, context, b, y, cleared, run)
        }
        Standing::Below {
            edge,
            run,
            stuck: _,
        } => {
            let run = copy_run(calc, run);
            let from = calc.copy(edge);
            let base = Base::Hangs(from);
            let gone = go(calc, page, &base, None, cb, context, b, run);
            let margin = value(calc, &gone.going.run);
            let y = calc.add(edge, &margin);
            let cleared = cleared_of(gone.end);
            reached_from(calc, page, cb, context, b, y, cleared, gone.going.run)
        }
    }
}

/// Where boxes stand below an edge after which no margin has come.
pub fn below<S: Steady>(calc: &mut S, edge: &S::Num) -> Standing<S::Num>
    ensures { Lays S.run calc.old calc.new (standing_at S.at result)
        (λ e. below_of (S.at edge.now e) no_run false) (λ e. IsNear (S.at edge.now e)) }
{
    let edge = calc.copy(edge);
    let run = empty(calc);
    Standing::Below {
        edge,
        run,
        stuck: false,
    }
}

/// A copy of where boxes stand.
pub fn copy_standing<S: Steady>(calc: &mut S, standing: &Standing<S::Num>) -> Standing<S::Num>
    ensures { Lays S.run calc.old calc.new (standing_at S.at result) (standing_at S.at standing.now)
        (λ e. IsStandingLow (standing_at S.at standing.now e)) }
{
    match standing {
        Standing::AtTop { y, cleared } => {
            let y = calc.copy(y);
            let cleared = copy_cleared(calc, cleared);
            Standing::AtTop { y, cleared }
        }
        Standing::Below { edge, run, stuck } => {
            let edge = calc.copy(edge);
            let run = copy_run(calc, run);
            Standing::Below {
                edge,
                run,
                stuck: *stuck,
            }
        }
    }
}

#[tactic(auto, unfolding(lay_steps::specs::Flow::standing_in))]
/// Where the first child of a block stands.
pub fn standing_in<S: Steady>(
    calc: &mut S,
    tree: &BoxTree,
    b: u32,
    cleared: Option<Cleared<S::Num>>,
    shape: &Shape<S::Num>,
) -> Standing<S::Num>
    ensures { Lays S.run calc.old calc.new (standing_at S.at result)
        (λ e. standing_in tree.now b (cleared_at S.at cleared e) (frame_at S.at shape.now e))
        (λ e. IsFrameLow (frame_at S.at shape.now e)) }
{
    if is_open_above(tree, b) {
        let y = calc.copy(&shape.corner.y);
        Standing::AtTop { y, cleared }
    } else {
        let top = content_top(calc, shape);
        below(calc, &top)
    }
}

/// The greatest top so far, with one more.
pub fn raised<S: Steady>(calc: &mut S, least: &Option<S::Num>, y: S::Num) -> Option<S::Num>
    ensures { Lays S.run calc.old calc.new (option_at S.at result)
        (λ e. raised_of (option_at S.at least.now e) (S.at y e))
        (λ e. AreLevelsLow (option_at S.at least.now e)) }
{
    match least {
        Some(least) => {
            let y = greater_of(calc, y, least);
            Some(y)
        }
        None => Some(y),
    }
}

/// The greater one of two.
fn greater_of<S: Steady>(calc: &mut S, y: S::Num, least: &S::Num) -> S::Num
    ensures { Lays S.run calc.old calc.new (S.at result)
        (λ e. int_max (S.at y e) (S.at least.now e)) (λ e. IsLevelLow (S.at least.now e)) }
{
    let least = calc.copy(least);
    greater(calc, y, least)
}

/// The outer top of a box.
fn outer_top<S: Steady>(calc: &mut S, shape: &Shape<S::Num>) -> S::Num
    ensures { Lays S.run calc.old calc.new (S.at result)
        (λ e. int_min (S.at shape.now.corner.y e)
        (S.at shape.now.corner.y e -ℤ S.at shape.now.v.margin_top e))
        (λ e. IsFrameLow (frame_at S.at shape.now e)) }
{
    let top = calc.copy(&shape.corner.y);
    let outer = calc.sub(&shape.corner.y, &shape.v.margin_top);
    lesser(calc, top, outer)
}

#[tactic(auto, unfolding(lay_steps::specs::Flow::opened))]
/// Opens a box: its outer top counts, and its first child stands so. Gives back where it stood.
pub fn open<S: Steady>(
    calc: &mut S,
    shape: &Shape<S::Num>,
    standing: Standing<S::Num>,
    context: &mut Context<S::Num>,
) -> Standing<S::Num>
    ensures goes { Goes (S.run calc.old) (S.run calc.new) }
    ensures before { result ≡ context.old.standing }
    ensures floats { context.new.floats ≡ context.old.floats }
    ensures value { WhereOpen (S.run calc.new).is_open
        (λ e. context_at S.at context.new e
        ≡ opened (context_at S.at context.old e) (frame_at S.at shape.now e)
        (standing_at S.at standing e)) }
    ensures cause { Blames (S.run calc.old) (S.run calc.new) (WhereOpen (S.run calc.old).is_open
        (λ e. AreLevelsLow (option_at S.at context.old.least e)
        × IsFrameLow (frame_at S.at shape.now e))) }
{
    let top = outer_top(calc, shape);
    context.least = raised(calc, &context.least, top);
    std::mem::replace(&mut context.standing, standing)
}

/// Whether so far only margins that adjoin the box's own top margin have come.
pub fn is_at_top<N>(standing: &Standing<N>) -> bool
    ensures { (at : N → Reading → ℤ) (e : Reading)
        → result ≡ at_top (standing_at at standing.now e) }
{
    matches!(standing, Standing::AtTop { .. })
}

#[tactic(auto, unfolding(lay_steps::specs::Flow::standing_after))]
/// Where boxes stand after a box.
pub fn standing_after<S: Steady>(
    calc: &mut S,
    tree: &BoxTree,
    cb: &Band<S::Num>,
    before: Standing<S::Num>,
    b: u32,
    met: Met<S::Num>,
    laid: Laid<S::Num>,
) -> Standing<S::Num>
    ensures { Lays S.run calc.old calc.new (standing_at S.at result)
        (λ e. after_of tree.now e.world (band_at S.at cb.now e) (standing_at S.at before e) b
        (met_at S.at met e) (ending_at S.at laid e))
        (λ e. IsBandLow (band_at S.at cb.now e)
        × (VerticalsFit tree.now e.world b (inline_size_of (band_at S.at cb.now e))
        × (IsLevelLow (S.at met.reached.top e) × IsRunLow (run_at S.at met.own e)))) }
{
    if !laid.through {
        return Standing::Below {
            edge: laid.bottom,
            run: laid.margins,
            stuck: false,
        };
    }
    let Met { reached, own } = met;
    let mut ended = copy_run(calc, &own);
    join_bottom(calc, tree, cb, b, &mut ended);
    if reached.clears {
        let margin = value(calc, &own);
        let edge = calc.sub(&reached.top, &margin);
        return Standing::Below {
            edge,
            run: ended,
            stuck: true,
        };
    }
    match before {
        Standing::AtTop { y, cleared } => Standing::AtTop { y, cleared },
        Standing::Below {
            edge,
            run: _,
            stuck,
        } => Standing::Below {
            edge,
            run: ended,
            stuck,
        },
    }
}
