//! Heights of boxes (CSS 2.1, 10.5 to 10.7).
ghost use Rattle.viz_calc.specs.Run.{Lays};
ghost use Rattle.layout_semantics.specs.DefiniteHeights.{definite_height as definite_of, given_height, clamped_height};
ghost use Rattle.layout_semantics.specs.DefiniteHeights.{height_around as height_in};
ghost use Rattle.layout_semantics.specs.Replaced.{replaced_size};
ghost use Rattle.lay_margin.specs.Runs.{run_at};
ghost use Rattle.lay_width.specs.Readings.{option_at};
ghost use Rattle.lay_steps.specs.Flow.{next_edge as edge_of, block_height as tall_block, joined_run as joined_of};
ghost use Rattle.lay_float.specs.Readings.{boxes_at as floats_in};
ghost use Rattle.lay_flow.specs.Readings.{standing_at, context_at};
ghost use Rattle.lay_steps.specs.Flow.{context_height as tall_of, lowest_of};
ghost use Rattle.std.specs.List.{AllByRecursion};
ghost use Rattle.lay_flow.specs.Low.{IsContextLow, IsStandingLow, reach};
ghost use Rattle.page_limits.specs.Bounds.{IsFloatIn};
ghost use Rattle.lay_flow.specs.Fits.{IsHeightFit, IsNear, IsReplacedFit, OwnFits};

use crate::parts::{Context, Page, Standing};
use lay_float::PlacedFloat;
use lay_length::lengths::{percentage, zero};
use lay_margin::Run;
use lay_margin::engine::{empty, value};
use lay_margin::leads::copy_run;
use lay_tree::boxes::intrinsic_size;
use lay_tree::styles::{max_height, min_height, own_height};
use lay_width::heights::{definite_height, height_around};
use lay_width::limits::hold;
use lay_width::replaced::by_ratio;
use viz_base::Length;
use viz_calc::{Steady, greater};

/// A height of a box, where it is definite; what is around the box is asked for by percentages alone (CSS 2.1, 10.5).
fn height_of<S: Steady>(
    calc: &mut S,
    page: &Page<'_, S::Num>,
    b: u32,
    length: &Length,
) -> Option<S::Num>
    ensures { Lays S.run calc.old calc.new (option_at S.at result)
        (λ e. height_in page.now.tree.now e.world
        (definite_of page.now.tree.now e.world b) length.now)
        (λ e. OwnFits page.now.tree.now e.world b length.now) }
{
    match length {
        Length::Pct(part) => {
            match definite_height(calc, page.tree, u64::from(b) + 1, b) {
                Some(whole) => Some(percentage(calc, *part, &whole)),
                None => None,
            }
        }
        Length::Auto | Length::Px(_) | Length::Em { .. } => {
            height_around(calc, page.tree, &None, length)
        }
    }
}

/// The height that a box's own property gives, where that is definite.
pub fn known_height<S: Steady>(calc: &mut S, page: &Page<'_, S::Num>, b: u32) -> Option<S::Num>
    ensures { Lays S.run calc.old calc.new (option_at S.at result)
        (λ e. given_height page.now.tree.now e.world b)
        (λ e. IsHeightFit page.now.tree.now e.world b) }
{
    height_of(calc, page, b, &own_height(page.tree, b))
}

/// A height of a box after its maximum and its minimum (CSS 2.1, 10.7).
pub fn clamped<S: Steady>(calc: &mut S, page: &Page<'_, S::Num>, b: u32, height: S::Num) -> S::Num
    ensures { Lays S.run calc.old calc.new (S.at result)
        (λ e. clamped_height page.now.tree.now e.world b (S.at height e))
        (λ e. IsHeightFit page.now.tree.now e.world b) }
{
    let most = match max_height(page.tree, b) {
        Some(most) => height_of(calc, page, b, &most),
        None => None,
    };
    let least = match height_of(calc, page, b, &min_height(page.tree, b)) {
        Some(least) => least,
        None => zero(calc),
    };
    hold(calc, most, least, height)
}

/// The height of a replaced box in so wide a containing block (CSS 2.1, 10.6.2).
pub fn replaced_height<S: Steady>(
    calc: &mut S,
    page: &Page<'_, S::Num>,
    b: u32,
    room: &S::Num,
) -> S::Num
    ensures { Lays S.run calc.old calc.new (S.at result)
        (λ e. (replaced_size page.now.tree.now e.world b (S.at room.now e)).height)
        (λ e. IsReplacedFit page.now.tree.now e.world b (S.at room.now e)) }
{
    let height = match known_height(calc, page, b) {
        Some(height) => height,
        None => {
            let width = lay_width::replaced::width(calc, page.tree, b, room);
            let size = intrinsic_size(page.tree, b);
            by_ratio(calc, &width, size.0, size.1)
        }
    };
    clamped(calc, page, b, height)
}

/// Where a child with no margin stands.
pub fn next_edge<S: Steady>(calc: &mut S, standing: &Standing<S::Num>) -> S::Num
    ensures { Lays S.run calc.old calc.new (S.at result)
        (λ e. edge_of (standing_at S.at standing.now e))
        (λ e. IsStandingLow (standing_at S.at standing.now e)) }
{
    match standing {
        Standing::AtTop { y, cleared: _ } => calc.copy(y),
        Standing::Below {
            edge,
            run,
            stuck: _,
        } => {
            let margin = value(calc, run);
            calc.add(edge, &margin)
        }
    }
}

/// How far the lowest of some floats reaches below `top`; at least 0.
fn lowest<S: Steady>(calc: &mut S, top: &S::Num, floats: &[PlacedFloat<S::Num>]) -> S::Num
    ensures { Lays S.run calc.old calc.new (S.at result)
        (λ e. lowest_of (S.at top.now e) (floats_in S.at floats.now e))
        (λ e. IsNear (S.at top.now e) × AllByRecursion (IsFloatIn reach)
        (floats_in S.at floats.now e)) }
{
    // At least 0: a context's height is never negative, where a block's that starts none may be (10.6.3, 10.6.7).
    let mut best = zero(calc);
    let count = floats.len();
    for done in 0..count {
        let height = calc.sub(&floats[count - 1 - done].outer.bottom, top);
        best = greater(calc, height, best);
    }
    best
}

#[tactic(auto, unfolding(lay_steps::specs::Flow::context_height))]
/// The auto height of a box that starts a context: down to its last child, line or float (CSS 2.1, 10.6.7).
pub fn context_height<S: Steady>(calc: &mut S, top: &S::Num, end: &Context<S::Num>) -> S::Num
    ensures { Lays S.run calc.old calc.new (S.at result)
        (λ e. tall_of (S.at top.now e) (context_at S.at end.now e))
        (λ e. IsNear (S.at top.now e) × IsContextLow (context_at S.at end.now e)) }
{
    let best = lowest(calc, top, end.floats.placed.as_slice());
    let edge = next_edge(calc, &end.standing);
    let height = calc.sub(&edge, top);
    greater(calc, height, best)
}

/// The auto height of a block that starts no context, by whether its bottom margin joins its last child's (CSS 2.1,
/// 10.6.3).
pub fn block_height<S: Steady>(
    calc: &mut S,
    joins: bool,
    top: &S::Num,
    end: &Standing<S::Num>,
) -> S::Num
    ensures { Lays S.run calc.old calc.new (S.at result)
        (λ e. tall_block joins (S.at top.now e) (standing_at S.at end.now e))
        (λ e. IsNear (S.at top.now e) × IsStandingLow (standing_at S.at end.now e)) }
{
    match end {
        Standing::AtTop { .. } => zero(calc),
        Standing::Below { edge, run, stuck } => {
            // Behind a cleared box that collapses through, the run doesn't join the parent's bottom margin (8.3.1).
            if joins && !*stuck {
                calc.sub(edge, top)
            } else {
                let margin = value(calc, run);
                let edge = calc.add(edge, &margin);
                calc.sub(&edge, top)
            }
        }
    }
}

/// The margins of its last child that a block's own bottom margin joins.
pub fn joined_run<S: Steady>(calc: &mut S, joins: bool, end: &Standing<S::Num>) -> Run<S::Num>
    ensures { Lays S.run calc.old calc.new (run_at S.at result)
        (λ e. joined_of joins (standing_at S.at end.now e))
        (λ e. IsStandingLow (standing_at S.at end.now e)) }
{
    match end {
        Standing::Below {
            edge: _,
            run,
            stuck: false,
        } if joins => copy_run(calc, run),
        _ => empty(calc),
    }
}
