//! The margins that adjoin the top of a box that comes next, up to the first box that is cleared (CSS 2.1, 8.3.1,
//! 9.5.2).
ghost use Rattle.std.specs.Prelude.{◌≡◌, ◌<◌, ◌≤◌, ◌++◌, ◌∷◌, [], ⊤, ℕ, ℤ, length, slice_index_or, int_le};
ghost use Rattle.std.specs.Prelude.{◌&&◌, IfSome, IfOk, IfErr, IsTrue, Some, drop};
ghost use Rattle.viz_calc.specs.World.{Reading};
ghost use Rattle.viz_calc.specs.State.{AllSmall, WhereOpen};
ghost use Rattle.viz_calc.specs.Run.{Goes, Blames, BlamesButMem, Lays, LaysButMem};
ghost use Rattle.viz_calc.specs.Renderings.{band_at};
ghost use Rattle.layout_semantics.specs.Floats.{floating, lowest_bottom};
ghost use Rattle.layout_semantics.specs.FlowBoxes.{clear_of, flow_children};
ghost use Rattle.lay_float.specs.Limits.{AreHalf};
ghost use Rattle.lay_float.specs.Readings.{boxes_at as floats_in, extent_at, option_at};
ghost use Rattle.lay_float.specs.TrialReadings.{coming_at, trial_at};
ghost use Rattle.lay_margin.specs.Fitting.{edges};
ghost use Rattle.lay_margin.specs.Readings.{floats_at as waiting_all, waiting_at as waiting_one};
ghost use Rattle.lay_margin.specs.Runs.{run_at};
ghost use Rattle.lay_steps.specs.Runs.{edge_at};
ghost use Rattle.lay_steps.specs.Forward.{hypothetical_edge as hypothetical_of};
ghost use Rattle.lay_steps.specs.Forward.{is_to_clear as to_clear_of, clear_edge as clear_edge_of};
ghost use Rattle.lay_steps.specs.Forward.{decided as decided_of};
ghost use Rattle.lay_steps.specs.Flow.{size_in};
ghost use Rattle.lay_flow.specs.Levels.{IsLevelFor, clears as clears_of, clears_level as clears_level_of};
ghost use Rattle.lay_flow.specs.Low.{IsBaseLow, IsRunLow};
ghost use Rattle.lay_flow.specs.Readings.{apart_at, base_at, found_at};
ghost use Rattle.lay_flow.specs.WayFits.{IsLeadLow, WaitingFits, IsGroundLow, IsGoingLow};
ghost use Rattle.lay_flow.specs.Tries.{TrialFits, first_trial, next_trial, other_trials, trial_of, floats_with};
ghost use Rattle.lay_flow.specs.Ways.{ground_at, way_at, inner_at, kids_at_reading, kid_at, closed_end};
ghost use Rattle.lay_flow.specs.Ways.{DecisionFitsAt, WayFitsAt, KidsFitAt, KidFitsAt, WaitingFitsAt};
ghost use Rattle.lay_flow.specs.Ways.{AreTried, AreAllTried, TellsOf, trials_at, Keeps, GoesForward};

use crate::floating::size_of;
use crate::level::{is_above, is_within, stays_free, up_to_named};
use crate::parts::{Base, Cleared, End, Going, Page, Tries};
use lay_float::PlacedFloat;
use lay_float::engine::bottom;
use lay_float::trial::{Coming, Trial, begin, go_on};
use lay_margin::Run;
use lay_margin::engine::value;
use lay_margin::leads::{
    band_inside, copy_band, copy_run, enters, join_bottom, join_top, lead, stops_at,
};
use lay_tree::adjoining::{clear_in_flow, collapses_through};
use lay_tree::boxes::{children, is_floated};
use lay_tree::contents::{floats_in, holds_inline};
use lay_tree::styles::{clear, float_side};
use viz_base::{Band, BoxTree, Extent, List, Waiting};
use viz_calc::Steady;

/// What a way forward starts from.
#[derive(Drop)]
pub struct Way<'a, N> {
    /// The tree, and what is laid out apart.
    pub page: &'a Page<'a, N>,
    /// Where the run of margins begins, or the edge at which it ends in any case.
    pub base: &'a Base<N>,
    /// The floats of the context.
    pub floats: &'a [PlacedFloat<N>],
    /// The greatest top in the context so far.
    pub least: &'a Option<N>,
    /// The box up to which boxes count as not cleared, if any does.
    pub past: Option<u32>,
}

/// The border edge at which a run ends.
fn edge<S: Steady>(calc: &mut S, base: &Base<S::Num>, run: &Run<S::Num>) -> S::Num
    ensures { Lays S.run calc.old calc.new (S.at result)
        (λ e. edge_at (base_at S.at base.now e) (run_at S.at run.now e))
        (λ e. IsBaseLow (base_at S.at base.now e) × IsRunLow (run_at S.at run.now e)) }
{
    match base {
        Base::Hangs(edge) => {
            let margin = value(calc, run);
            calc.add(edge, &margin)
        }
        Base::Stands(edge) => calc.copy(edge),
    }
}

#[tactic(auto, unfolding(lay_steps::specs::Forward::hypothetical_edge))]
/// The border edge of a box with `clear` if it were not cleared.
fn hypothetical_edge<S: Steady>(
    calc: &mut S,
    way: &Way<'_, S::Num>,
    cb: &Band<S::Num>,
    b: u32,
    run: &Run<S::Num>,
) -> S::Num
    requires { b < length way.now.page.now.tree.now.boxes }
    ensures { LaysButMem S.run calc.old calc.new (S.at result)
        (λ e. hypothetical_of (ground_at S.at way.now e) (band_at S.at cb.now e) b
        (run_at S.at run.now e)) (λ e. IsBaseLow (base_at S.at way.now.base.now e)
        × IsRunLow (run_at S.at run.now e)
        × IsLeadLow way.now.page.now.tree.now e.world (band_at S.at cb.now e) b) }
{
    // The run goes on from here whatever is decided, so the margins of this question are joined to a copy.
    let mut own = copy_run(calc, run);
    let mut waiting = List::new(way.page.tree.boxes.allocator());
    lead(calc, way.page.tree, b, cb, Some(b), &mut own, &mut waiting);
    edge(calc, way.base, &own)
}

/// A float that waits, as it comes next.
fn coming<'a, N>(tree: &BoxTree, float: &'a Waiting<N>, size: &'a Extent<N>) -> Coming<'a, N>
    ensures { (at : N → Reading → ℤ) (e : Reading) → coming_at at result e
        ≡ floating tree.now float.now.at (extent_at at size.now e) (band_at at float.now.cb e) }
{
    Coming {
        side: float_side(tree, float.at),
        clear: clear(tree, float.at),
        size,
        cb: &float.cb,
    }
}

#[tactic(auto, unfolding(lay_steps::specs::Flow::size_in))]
/// Tries the first float that waits, where the run of margins ends at y.
fn try_first<S: Steady>(
    calc: &mut S,
    way: &Way<'_, S::Num>,
    float: &Waiting<S::Num>,
    y: &S::Num,
) -> Trial<S::Num>
    ensures { LaysButMem S.run calc.old calc.new (trial_at S.at result)
        (λ e. first_trial (ground_at S.at way.now e) (waiting_one S.at float.now e) (S.at y.now e))
        (λ e. WaitingFits (size_in (apart_at S.at way.now.page.now.apart.now e))
        (floats_in S.at way.now.floats.now e) (option_at S.at way.now.least.now e) (S.at y.now e)
        (waiting_one S.at float.now e ∷ [])) }
{
    let size = size_of(calc, way.page.apart, float.at);
    let next = coming(way.page.tree, float, &size);
    begin(
        way.page.tree.boxes.allocator(),
        calc,
        way.floats,
        &next,
        way.least.as_ref(),
        y,
    )
}

#[tactic(auto, unfolding(lay_steps::specs::Flow::size_in))]
/// Tries the next one.
fn try_next<S: Steady>(
    calc: &mut S,
    way: &Way<'_, S::Num>,
    float: &Waiting<S::Num>,
    before: Trial<S::Num>,
) -> Trial<S::Num>
    ensures { LaysButMem S.run calc.old calc.new (trial_at S.at result)
        (λ e. next_trial (ground_at S.at way.now e) (waiting_one S.at float.now e)
        (trial_at S.at before e)) (λ e. TrialFits (ground_at S.at way.now e)
        (trial_at S.at before e) (waiting_one S.at float.now e ∷ [])) }
{
    let size = size_of(calc, way.page.apart, float.at);
    let next = coming(way.page.tree, float, &size);
    go_on(
        way.page.tree.boxes.allocator(),
        calc,
        &next,
        way.least.as_ref(),
        before,
    )
}

/// Tries those that follow.
fn try_others<S: Steady>(
    calc: &mut S,
    way: &Way<'_, S::Num>,
    waiting: &[Waiting<S::Num>],
    before: Trial<S::Num>,
) -> Trial<S::Num>
    ensures { LaysButMem S.run calc.old calc.new (trial_at S.at result)
        (λ e. other_trials (ground_at S.at way.now e) (waiting_all S.at waiting.now e)
        (trial_at S.at before e)) (λ e. TrialFits (ground_at S.at way.now e)
        (trial_at S.at before e) (waiting_all S.at waiting.now e)) }
{
    let mut trial = before;
    for float in waiting {
        trial = try_next(calc, way, float, trial);
    }
    trial
}

/// Tries all floats that wait, where the run of margins ends at y.
fn try_all<S: Steady>(
    calc: &mut S,
    way: &Way<'_, S::Num>,
    waiting: &[Waiting<S::Num>],
    y: &S::Num,
) -> Option<Trial<S::Num>>
    ensures { LaysButMem S.run calc.old calc.new (trials_at S.at result)
        (λ e. trial_of (ground_at S.at way.now e) (S.at y.now e) (waiting_all S.at waiting.now e))
        (λ e. WaitingFitsAt S.at way.now e (S.at y.now e) (waiting_all S.at waiting.now e)) }
{
    match waiting.split_first() {
        // Without floats that wait the context's own list will do, and none is copied.
        None => None,
        Some((first, others)) => {
            let trial = try_first(calc, way, first, y);
            Some(try_others(calc, way, others, trial))
        }
    }
}

/// Where no more floats than these were tried, they are tried again: to compare where they would stand costs more, and
/// may be one more answer in a certificate.
const MANY: usize = 16;

/// Whether two numbers are the same.
fn is_same<S: Steady>(calc: &mut S, a: &S::Num, b: &S::Num) -> bool
    ensures { Lays S.run calc.old calc.new (λ e. result)
        (λ e. int_le (S.at a.now e) (S.at b.now e) && int_le (S.at b.now e) (S.at a.now e)) (λ e. ⊤) }
{
    calc.le(a, b) && calc.le(b, a)
}

/// What was tried, if it was at y and many floats were.
fn tried_at<S: Steady>(
    calc: &mut S,
    tries: Option<Tries<S::Num>>,
    y: &S::Num,
) -> Option<Tries<S::Num>>
    ensures goes { Goes (S.run calc.old) (S.run calc.new) }
    ensures value { WhereOpen (S.run calc.new).is_open
        (λ e. IfSome result (λ t. (tries ≡ Some t) × (S.at t.y e ≡ S.at y.now e))) }
    ensures cause { Blames (S.run calc.old) (S.run calc.new) ⊤ }
{
    let tries = tries?;
    if tries.count <= MANY {
        return None;
    }
    if is_same(calc, &tries.y, y) {
        Some(tries)
    } else {
        None
    }
}

/// Tries all floats that wait, where the run of margins ends at y; those that were tried there before are not tried
/// again.
fn try_on<S: Steady>(
    calc: &mut S,
    way: &Way<'_, S::Num>,
    waiting: &[Waiting<S::Num>],
    y: &S::Num,
    tries: Option<Tries<S::Num>>,
) -> Option<Trial<S::Num>>
    requires { WhereOpen (S.run calc.old).is_open
        (λ e. AreTried S.at way.now e (waiting_all S.at waiting.now e) tries) }
    ensures { LaysButMem S.run calc.old calc.new (trials_at S.at result)
        (λ e. trial_of (ground_at S.at way.now e) (S.at y.now e) (waiting_all S.at waiting.now e))
        (λ e. WaitingFitsAt S.at way.now e (S.at y.now e) (waiting_all S.at waiting.now e)) }
{
    let Some(tries) = tried_at(calc, tries, y) else {
        return try_all(calc, way, waiting, y);
    };
    let (_, others) = waiting.split_at_checked(tries.count)?;
    Some(try_others(calc, way, others, tries.trial))
}

/// What is kept of a trial of all floats that wait.
fn kept<N: Drop>(y: N, count: usize, trial: Option<Trial<N>>) -> Option<Tries<N>>
    ensures { IfSome result (λ t. (t.y ≡ y) × (t.count ≡ count) × (trial ≡ Some t.trial)) }
{
    match trial {
        Some(trial) => Some(Tries { y, count, trial }),
        None => None,
    }
}

/// The lowest bottom that a box is to clear, the floats that wait being tried.
fn lowest<S: Steady>(
    calc: &mut S,
    way: &Way<'_, S::Num>,
    b: u32,
    trial: &Option<Trial<S::Num>>,
) -> Option<S::Num>
    ensures { Lays S.run calc.old calc.new (option_at S.at result)
        (λ e. lowest_bottom (clear_of way.now.page.now.tree.now b)
        (floats_with (ground_at S.at way.now e) (trials_at S.at trial.now e)))
        (λ e. AreHalf (floats_with (ground_at S.at way.now e) (trials_at S.at trial.now e)) []) }
{
    let clear = clear_in_flow(way.page.tree, b);
    match trial {
        None => bottom(calc, way.floats, clear),
        Some(trial) => bottom(calc, trial.all.placed.as_slice(), clear),
    }
}

/// Whether floats that were tried all stand level at the edge at which they were, and so do at y.
fn is_level_for<S: Steady>(
    calc: &mut S,
    way: &Way<'_, S::Num>,
    run: &Run<S::Num>,
    tries: &Tries<S::Num>,
    y: &S::Num,
) -> bool
    ensures goes { Goes (S.run calc.old) (S.run calc.new) }
    ensures value { WhereOpen (S.run calc.new).is_open (λ e. IsTrue result → IsLevelFor (ground_at S.at way.now e)
        (run_at S.at run.now e) (S.at tries.now.trial.level e) (S.at tries.now.y e) (S.at y.now e)) }
    ensures cause { Blames (S.run calc.old) (S.run calc.new) (WhereOpen (S.run calc.old).is_open
        (λ e. IsBaseLow (base_at S.at way.now.base.now e) × IsRunLow (run_at S.at run.now e))) }
{
    // What is tried at an edge fits where that lies within the reach of the margins so far.
    calc.le(&tries.trial.level, &tries.y)
        && stays_free(calc, way.floats, way.least, &tries.y, y)
        && is_within(calc, way.base, run, &tries.y)
}

/// The floats that wait, tried where the first ones were.
fn try_rest<S: Steady>(
    calc: &mut S,
    way: &Way<'_, S::Num>,
    waiting: &[Waiting<S::Num>],
    tries: Tries<S::Num>,
) -> Tries<S::Num>
    requires { WhereOpen (S.run calc.old).is_open
        (λ e. AreTried S.at way.now e (waiting_all S.at waiting.now e) (Some tries)) }
    ensures goes { Goes (S.run calc.old) (S.run calc.new) }
    ensures value { WhereOpen (S.run calc.new).is_open
        (λ e. AreAllTried S.at way.now e (waiting_all S.at waiting.now e) result) }
    ensures edge { result.y ≡ tries.y }
    ensures cause { BlamesButMem (S.run calc.old) (S.run calc.new) (WhereOpen (S.run calc.old).is_open
        (λ e. WaitingFitsAt S.at way.now e (S.at tries.y e) (waiting_all S.at waiting.now e))) }
{
    let Tries { y, count, trial } = tries;
    match waiting.split_at_checked(count) {
        Some((_, others)) => Tries {
            y,
            count: waiting.len(),
            trial: try_others(calc, way, others, trial),
        },
        None => Tries { y, count, trial },
    }
}

/// A box with `clear` that is reached.
#[derive(Drop)]
pub struct Asked<'a, N> {
    /// Its place in the tree.
    pub b: u32,
    /// The run of margins before it.
    pub run: &'a Run<N>,
    /// The floats that wait and matter to it.
    pub waiting: &'a [Waiting<N>],
}

/// All floats that wait, tried at an edge at which they stand level as they do at y; where they don't, or where few
/// were tried before, what was tried.
fn try_level<S: Steady>(
    calc: &mut S,
    way: &Way<'_, S::Num>,
    asked: &Asked<'_, S::Num>,
    y: &S::Num,
    tries: Option<Tries<S::Num>>,
) -> Result<Tries<S::Num>, Option<Tries<S::Num>>>
    requires { WhereOpen (S.run calc.old).is_open
        (λ e. AreTried S.at way.now e (waiting_all S.at asked.now.waiting.now e) tries) }
    ensures goes { Goes (S.run calc.old) (S.run calc.new) }
    ensures level { IfOk result (λ t. WhereOpen (S.run calc.new).is_open (λ e. TellsOf S.at way.now e
        (run_at S.at asked.now.run.now e) (waiting_all S.at asked.now.waiting.now e) t (S.at y.now e))) }
    ensures kept { IfErr result (λ t. WhereOpen (S.run calc.new).is_open
        (λ e. AreTried S.at way.now e (waiting_all S.at asked.now.waiting.now e) t)) }
    ensures cause { BlamesButMem (S.run calc.old) (S.run calc.new) (WhereOpen (S.run calc.old).is_open
        (λ e. IsGroundLow (base_at S.at way.now.base.now e) (floats_in S.at way.now.floats.now e)
        (option_at S.at way.now.least.now e)
        × IsGoingLow (size_in (apart_at S.at way.now.page.now.apart.now e))
        (run_at S.at asked.now.run.now e) (waiting_all S.at asked.now.waiting.now e))) }
{
    let Some(tries) = tries else {
        return Err(None);
    };
    if tries.count <= MANY || !is_level_for(calc, way, asked.run, &tries, y) {
        return Err(Some(tries));
    }
    let tries = try_rest(calc, way, asked.waiting, tries);
    if calc.le(&tries.trial.level, &tries.y) {
        Ok(tries)
    } else {
        Err(Some(tries))
    }
}

/// The floats behind the first ones.
fn behind<N>(floats: &[PlacedFloat<N>], count: usize) -> &[PlacedFloat<N>]
    ensures { result.now ≡ drop count floats.now }
{
    match floats.split_at_checked(count) {
        Some((_, rest)) => rest,
        None => &[],
    }
}

/// Whether a box is cleared whose edge would be y, where what was tried tells of y.
fn clears_level<S: Steady>(
    calc: &mut S,
    way: &Way<'_, S::Num>,
    b: u32,
    y: &S::Num,
    tries: &Tries<S::Num>,
) -> bool
    ensures { Lays S.run calc.old calc.new (λ e. result)
        (λ e. clears_level_of (clear_of way.now.page.now.tree.now b) (floats_in S.at way.now.floats.now e)
        (trial_at S.at tries.now.trial e).all (S.at tries.now.y e) (S.at y.now e))
        (λ e. AreHalf (floats_in S.at way.now.floats.now e) []
        × AreHalf (trial_at S.at tries.now.trial e).all []) }
{
    let clear = clear_in_flow(way.page.tree, b);
    let before = bottom(calc, way.floats, clear);
    if is_above(calc, y, &before) {
        return true;
    }
    let tried = behind(tries.trial.all.placed.as_slice(), way.floats.len());
    let lowest = bottom(calc, tried, clear);
    is_above(calc, &tries.y, &lowest)
}

/// Whether a box is cleared, with the floats that were tried to tell it.
#[derive(Drop)]
pub struct Decision<N> {
    /// Whether the box is cleared.
    pub cleared: bool,
    /// What was tried last, if anything was.
    pub tries: Option<Tries<N>>,
}

/// Whether a box is cleared whose edge would be y, by a trial of these floats there.
fn told_at<S: Steady>(
    calc: &mut S,
    way: &Way<'_, S::Num>,
    asked: &Asked<'_, S::Num>,
    y: S::Num,
    before: Option<Tries<S::Num>>,
) -> Decision<S::Num>
    requires { WhereOpen (S.run calc.old).is_open
        (λ e. AreTried S.at way.now e (waiting_all S.at asked.now.waiting.now e) before) }
    ensures goes { Goes (S.run calc.old) (S.run calc.new) }
    ensures value { WhereOpen (S.run calc.new).is_open (λ e. result.cleared
        ≡ clears_of (ground_at S.at way.now e) asked.now.b (waiting_all S.at asked.now.waiting.now e) (S.at y e)) }
    ensures kept { WhereOpen (S.run calc.new).is_open
        (λ e. AreTried S.at way.now e (waiting_all S.at asked.now.waiting.now e) result.tries) }
    ensures cause { BlamesButMem (S.run calc.old) (S.run calc.new) (WhereOpen (S.run calc.old).is_open
        (λ e. WaitingFitsAt S.at way.now e (S.at y e) (waiting_all S.at asked.now.waiting.now e))) }
{
    let trial = try_on(calc, way, asked.waiting, &y, before);
    let bottom = lowest(calc, way, asked.b, &trial);
    let cleared = is_above(calc, &y, &bottom);
    let tries = kept(y, asked.waiting.len(), trial);
    Decision { cleared, tries }
}

/// Whether a box is cleared whose edge would be y, by what was tried at another edge where that tells it, else by a
/// trial at y.
fn told<S: Steady>(
    calc: &mut S,
    way: &Way<'_, S::Num>,
    asked: &Asked<'_, S::Num>,
    y: S::Num,
    before: Option<Tries<S::Num>>,
) -> Decision<S::Num>
    requires { WhereOpen (S.run calc.old).is_open
        (λ e. AreTried S.at way.now e (waiting_all S.at asked.now.waiting.now e) before) }
    ensures goes { Goes (S.run calc.old) (S.run calc.new) }
    ensures value { WhereOpen (S.run calc.new).is_open (λ e. result.cleared
        ≡ clears_of (ground_at S.at way.now e) asked.now.b (waiting_all S.at asked.now.waiting.now e) (S.at y e)) }
    ensures kept { WhereOpen (S.run calc.new).is_open
        (λ e. AreTried S.at way.now e (waiting_all S.at asked.now.waiting.now e) result.tries) }
    ensures cause { BlamesButMem (S.run calc.old) (S.run calc.new) (WhereOpen (S.run calc.old).is_open
        (λ e. WaitingFitsAt S.at way.now e (S.at y e) (waiting_all S.at asked.now.waiting.now e)
        × IsGroundLow (base_at S.at way.now.base.now e) (floats_in S.at way.now.floats.now e)
        (option_at S.at way.now.least.now e)
        × IsGoingLow (size_in (apart_at S.at way.now.page.now.apart.now e))
        (run_at S.at asked.now.run.now e) (waiting_all S.at asked.now.waiting.now e))) }
{
    match try_level(calc, way, asked, &y, before) {
        Ok(tries) => {
            let cleared = clears_level(calc, way, asked.b, &y, &tries);
            Decision {
                cleared,
                tries: Some(tries),
            }
        }
        Err(before) => told_at(calc, way, asked, y, before),
    }
}

/// How many floats are tried at least: as many as were before, and all where they are few.
fn count_before<N>(tries: &Option<Tries<N>>) -> usize
    ensures { IfSome tries.now (λ t. t.count ≤ result) }
{
    match tries {
        Some(tries) => tries.count.max(MANY),
        None => MANY,
    }
}

/// Whether a box is cleared that is reached with this run and these floats that wait.
fn is_to_clear<S: Steady>(
    calc: &mut S,
    way: &Way<'_, S::Num>,
    cb: &Band<S::Num>,
    b: u32,
    going: &mut Going<S::Num>,
) -> bool
    requires within { b < length way.now.page.now.tree.now.boxes }
    requires keeps { Keeps S.at way.now (S.run calc.old) going.old }
    ensures forward { GoesForward S.at way.now S.run calc.old calc.new going.new (λ e. result)
        (λ e. to_clear_of (ground_at S.at way.now e) (band_at S.at cb.now e) b (run_at S.at going.old.run e)
        (waiting_all S.at going.old.waiting e))
        (λ e. DecisionFitsAt S.at way.now e (band_at S.at cb.now e) b (run_at S.at going.old.run e)
        (waiting_all S.at going.old.waiting e)) }
    ensures run { going.new.run ≡ going.old.run }
    ensures waiting { going.new.waiting ≡ going.old.waiting }
{
    let y = hypothetical_edge(calc, way, cb, b, &going.run);
    let before = going.tries.take();
    let clear = clear_in_flow(way.page.tree, b);
    // What waits behind the last float that the box names doesn't tell where that one stands.
    let part = up_to_named(
        way.page.tree,
        clear,
        going.waiting.as_slice(),
        count_before(&before),
    );
    let asked = Asked {
        b,
        run: &going.run,
        waiting: part,
    };
    let Decision { cleared, tries } = told(calc, way, &asked, y, before);
    going.tries = tries;
    cleared
}

/// The border edge of a cleared box: the lowest bottom that it is to clear.
fn clear_edge<S: Steady>(
    calc: &mut S,
    way: &Way<'_, S::Num>,
    b: u32,
    going: &Going<S::Num>,
) -> S::Num
    ensures { LaysButMem S.run calc.old calc.new (S.at result)
        (λ e. clear_edge_of (ground_at S.at way.now e) b (run_at S.at going.now.run e)
        (waiting_all S.at going.now.waiting e))
        (λ e. IsGroundLow (base_at S.at way.now.base.now e) (floats_in S.at way.now.floats.now e)
        (option_at S.at way.now.least.now e)
        × IsGoingLow (size_in (apart_at S.at way.now.page.now.apart.now e))
        (run_at S.at going.now.run e) (waiting_all S.at going.now.waiting e)) }
{
    let y = edge(calc, way.base, &going.run);
    let trial = try_all(calc, way, going.waiting.as_slice(), &y);
    match lowest(calc, way, b, &trial) {
        Some(bottom) => bottom,
        None => y,
    }
}

/// The border edge of a box with `clear` that is reached, if it is cleared (CSS 2.1, 9.5.2).
fn decided<S: Steady>(
    calc: &mut S,
    way: &Way<'_, S::Num>,
    cb: &Band<S::Num>,
    b: u32,
    going: &mut Going<S::Num>,
) -> Option<S::Num>
    requires within { b < length way.now.page.now.tree.now.boxes }
    requires keeps { Keeps S.at way.now (S.run calc.old) going.old }
    ensures forward { GoesForward S.at way.now S.run calc.old calc.new going.new (option_at S.at result)
        (λ e. decided_of (ground_at S.at way.now e) (band_at S.at cb.now e) b (run_at S.at going.old.run e)
        (waiting_all S.at going.old.waiting e))
        (λ e. DecisionFitsAt S.at way.now e (band_at S.at cb.now e) b (run_at S.at going.old.run e)
        (waiting_all S.at going.old.waiting e)) }
    ensures run { going.new.run ≡ going.old.run }
    ensures waiting { going.new.waiting ≡ going.old.waiting }
{
    // With no float there is nothing to clear, and no edge to compare: a certificate needs no answer here.
    if way.floats.is_empty() && going.waiting.is_empty() {
        return None;
    }
    if is_to_clear(calc, way, cb, b, going) {
        Some(clear_edge(calc, way, b, going))
    } else {
        None
    }
}

/// Lets a float wait.
fn wait<S: Steady>(calc: &mut S, cb: &Band<S::Num>, at: u32, waiting: &mut List<Waiting<S::Num>>)
    ensures { LaysButMem S.run calc.old calc.new (waiting_all S.at waiting.new)
        (λ e. waiting_all S.at waiting.old e ++ record { at = at; cb = band_at S.at cb.now e } ∷ [])
        (λ e. AllSmall (edges (band_at S.at cb.now e))) }
{
    let cb = copy_band(calc, cb);
    match waiting.push(Waiting { at, cb }) {
        Ok(()) => {}
        Err(_) => calc.stop(),
    }
}

/// Goes forward from a box: joins the margins that adjoin its top to the run, lets the floats between them wait, and
/// ends at the first box that is cleared.
pub fn forward<S: Steady>(
    calc: &mut S,
    way: &Way<'_, S::Num>,
    cb: &Band<S::Num>,
    b: u32,
    going: &mut Going<S::Num>,
) -> End<S::Num>
    requires { b < length way.now.page.now.tree.now.boxes }
    ensures { LaysButMem S.run calc.old calc.new (found_at S.at going.new result)
        (λ e. way_at S.at way.now e (band_at S.at cb.now e) b (run_at S.at going.old.run e)
        (waiting_all S.at going.old.waiting e))
        (λ e. WayFitsAt S.at way.now e (band_at S.at cb.now e) b (run_at S.at going.old.run e)
        (waiting_all S.at going.old.waiting e)) }
{
    going.tries = None;
    onward(calc, way, cb, b, going)
}

#[cycle(onward)]
/// Goes forward from a box, where floats may have been tried.
fn onward<S: Steady>(
    calc: &mut S,
    way: &Way<'_, S::Num>,
    cb: &Band<S::Num>,
    b: u32,
    going: &mut Going<S::Num>,
) -> End<S::Num>
    requires within { b < length way.now.page.now.tree.now.boxes }
    requires keeps { Keeps S.at way.now (S.run calc.old) going.old }
    ensures { GoesForward S.at way.now S.run calc.old calc.new going.new (found_at S.at going.new result)
        (λ e. way_at S.at way.now e (band_at S.at cb.now e) b (run_at S.at going.old.run e)
        (waiting_all S.at going.old.waiting e))
        (λ e. WayFitsAt S.at way.now e (band_at S.at cb.now e) b (run_at S.at going.old.run e)
        (waiting_all S.at going.old.waiting e)) }
{
    // Each box with `clear` is decided where it is met, on the way forward.
    if stops_at(way.page.tree, way.past, b)
        && let Some(edge) = decided(calc, way, cb, b, going)
    {
        return End::Ends(Cleared { at: b, edge });
    }
    inner(calc, way, cb, b, going)
}

#[cycle(onward)]
/// Goes forward from a box that is not cleared.
fn inner<S: Steady>(
    calc: &mut S,
    way: &Way<'_, S::Num>,
    cb: &Band<S::Num>,
    b: u32,
    going: &mut Going<S::Num>,
) -> End<S::Num>
    requires within { b < length way.now.page.now.tree.now.boxes }
    requires keeps { Keeps S.at way.now (S.run calc.old) going.old }
    ensures { GoesForward S.at way.now S.run calc.old calc.new going.new (found_at S.at going.new result)
        (λ e. inner_at S.at way.now e (band_at S.at cb.now e) b (run_at S.at going.old.run e)
        (waiting_all S.at going.old.waiting e))
        (λ e. WayFitsAt S.at way.now e (band_at S.at cb.now e) b (run_at S.at going.old.run e)
        (waiting_all S.at going.old.waiting e)) }
{
    join_top(calc, way.page.tree, cb, b, &mut going.run);
    if !enters(way.page.tree, b) {
        return End::Solid;
    }
    let band = band_inside(calc, way.page.tree, cb, b);
    let end = content(calc, way, &band, b, going);
    close(way.page.tree, b, end)
}

/// Where the margins end, by where those in a box do.
fn close<N>(tree: &BoxTree, b: u32, end: End<N>) -> End<N>
    requires { b < length tree.now.boxes }
    ensures { result ≡ closed_end tree.now b end }
{
    match end {
        End::GoesOn => {
            if collapses_through(tree, b) {
                End::GoesOn
            } else {
                End::Solid
            }
        }
        End::Solid | End::Ends(_) => end,
    }
}

#[cycle(onward)]
/// Goes forward through what is in the flow of a box.
fn content<S: Steady>(
    calc: &mut S,
    way: &Way<'_, S::Num>,
    band: &Band<S::Num>,
    b: u32,
    going: &mut Going<S::Num>,
) -> End<S::Num>
    requires within { b < length way.now.page.now.tree.now.boxes }
    requires keeps { Keeps S.at way.now (S.run calc.old) going.old }
    ensures { GoesForward S.at way.now S.run calc.old calc.new going.new (found_at S.at going.new result)
        (λ e. kids_at_reading S.at way.now e (band_at S.at band.now e) (flow_children way.now.page.now.tree.now b)
        (run_at S.at going.old.run e) (waiting_all S.at going.old.waiting e))
        (λ e. KidsFitAt S.at way.now e (band_at S.at band.now e) (flow_children way.now.page.now.tree.now b)
        (run_at S.at going.old.run e) (waiting_all S.at going.old.waiting e)) }
{
    let tree = way.page.tree;
    if !holds_inline(tree, b) {
        return kids(calc, way, band, b, children(tree, b), going);
    }
    match floats_in(tree, b) {
        Ok(floats) => kids(calc, way, band, b, floats.as_slice(), going),
        Err(_) => {
            calc.stop();
            End::GoesOn
        }
    }
}

#[cycle(onward)]
#[tactic(auto, unfolding(lay_steps::specs::Forward::kid_of))]
/// Goes forward through boxes behind a box, one after another.
fn kids<S: Steady>(
    calc: &mut S,
    way: &Way<'_, S::Num>,
    band: &Band<S::Num>,
    b: u32,
    boxes: &[u32],
    going: &mut Going<S::Num>,
) -> End<S::Num>
    requires within { b < length way.now.page.now.tree.now.boxes }
    requires behind { (i : ℕ) → i < length boxes.now
        → (b < slice_index_or boxes.now i 0) × (slice_index_or boxes.now i 0 < length way.now.page.now.tree.now.boxes) }
    requires keeps { Keeps S.at way.now (S.run calc.old) going.old }
    ensures { GoesForward S.at way.now S.run calc.old calc.new going.new (found_at S.at going.new result)
        (λ e. kids_at_reading S.at way.now e (band_at S.at band.now e) boxes.now (run_at S.at going.old.run e)
        (waiting_all S.at going.old.waiting e))
        (λ e. KidsFitAt S.at way.now e (band_at S.at band.now e) boxes.now (run_at S.at going.old.run e)
        (waiting_all S.at going.old.waiting e)) }
{
    for place in boxes {
        let end = kid(calc, way, band, *place, going);
        if !matches!(end, End::GoesOn) {
            return end;
        }
    }
    End::GoesOn
}

#[cycle(onward)]
/// Goes forward through one box: a float waits, and after a box that goes on its bottom margin follows.
fn kid<S: Steady>(
    calc: &mut S,
    way: &Way<'_, S::Num>,
    band: &Band<S::Num>,
    k: u32,
    going: &mut Going<S::Num>,
) -> End<S::Num>
    requires within { k < length way.now.page.now.tree.now.boxes }
    requires keeps { Keeps S.at way.now (S.run calc.old) going.old }
    ensures { GoesForward S.at way.now S.run calc.old calc.new going.new (found_at S.at going.new result)
        (λ e. kid_at S.at way.now e (band_at S.at band.now e) k (run_at S.at going.old.run e)
        (waiting_all S.at going.old.waiting e))
        (λ e. KidFitsAt S.at way.now e (band_at S.at band.now e) k (run_at S.at going.old.run e)
        (waiting_all S.at going.old.waiting e)) }
{
    if is_floated(way.page.tree, k) {
        // Where the run of margins ends is not known yet, so neither is the top of a float between them.
        wait(calc, band, k, &mut going.waiting);
        return End::GoesOn;
    }
    let end = onward(calc, way, band, k, going);
    if matches!(end, End::GoesOn) {
        join_bottom(calc, way.page.tree, band, k, &mut going.run);
    }
    end
}
