//! The margins that adjoin the top of a box, going forward (CSS 2.1, 8.3.1).
ghost use Rattle.std.specs.Prelude.{◌≡◌, ◌<◌, ◌++◌, ◌∷◌, [], ℕ, ℤ, List as Seq, length, slice_index_or, false};
ghost use Rattle.std.specs.Int.{int_max, int_min};
ghost use Rattle.viz_calc.specs.State.{AllSmall, WhereOpen};
ghost use Rattle.viz_calc.specs.Run.{Goes, Fits, Blames, BlamesButMem, Lays, LaysButMem};
ghost use Rattle.viz_calc.specs.Renderings.{band_at};
ghost use Rattle.layout_semantics.specs.Lengths.{used as used_length, margins as margins_of};
ghost use Rattle.layout_semantics.specs.InlineContent.{is_floated_at};
ghost use Rattle.lay_margin.specs.Fitting.{edges, ends, content_way, MarginFits, InsideFits, LeadFits, KidsFit};
ghost use Rattle.layout_semantics.specs.FlowBoxes.{inline_size as width_of, content_from, flow_children};
ghost use Rattle.lay_width.specs.Readings.{widths_at};
ghost use Rattle.lay_margin.specs.Readings.{floats_at, passed_by};
ghost use Rattle.layout_semantics.specs.Leads.{lead as landed};
ghost use Rattle.lay_margin.specs.Runs.{run_at, with_margin, IsRunOf};
ghost use Rattle.lay_margin.specs.steps.Leads.{going_at, joined_at, led_by, ended_at, closed_end, enters, stops, margin_above, margin_below, inner_band, kid_going, lead_of, inner_of, content_of};

use crate::Run;
use lay_length::lengths::used;
use lay_tree::adjoining::{collapses_through, has_clear, is_open_above};
use lay_tree::boxes::{children, is_floated};
use lay_tree::contents::{floats_in, has_line, holds_inline};
use lay_tree::styles::margins;
use lay_width::engine::block;
use viz_base::{Band, BoxTree, Lead, LeadEnd, Length, List, Waiting, Widths};
use viz_calc::Steady;

/// Where margins end, and the containing block of the box at which they do.
#[derive(Drop)]
pub struct Ended<N> {
    /// Where they end.
    pub end: LeadEnd,
    /// The containing block.
    pub cb: Band<N>,
}

/// A band again.
pub fn copy_band<S: Steady>(calc: &mut S, band: &Band<S::Num>) -> Band<S::Num>
    ensures { Lays S.run calc.old calc.new (band_at S.at result) (band_at S.at band.now)
        (λ e. AllSmall (edges (band_at S.at band.now e))) }
{
    let left = calc.copy(&band.left);
    let right = calc.copy(&band.right);
    Band { left, right }
}

/// An end in a containing block.
fn end_at<S: Steady>(calc: &mut S, end: LeadEnd, cb: &Band<S::Num>) -> Ended<S::Num>
    ensures goes { Goes (S.run calc.old) (S.run calc.new) }
    ensures end { result.end ≡ end }
    ensures value { WhereOpen (S.run calc.new).is_open
        (λ e. band_at S.at result.cb e ≡ band_at S.at cb.now e) }
    ensures cause { Blames (S.run calc.old) (S.run calc.new) (Fits (S.run calc.old)
        (λ e. edges (band_at S.at cb.now e))) }
{
    let cb = copy_band(calc, cb);
    Ended { end, cb }
}

/// Raises a number to a margin.
fn raise<S: Steady>(calc: &mut S, pos: &mut S::Num, margin: &S::Num)
    ensures { Lays S.run calc.old calc.new (S.at pos.new)
        (λ e. int_max (S.at pos.old e) (S.at margin.now e))
        (λ e. AllSmall (S.at margin.now e ∷ [])) }
{
    if calc.le(pos, margin) {
        *pos = calc.copy(margin);
    }
}

/// Lowers a number to a margin.
fn lower<S: Steady>(calc: &mut S, neg: &mut S::Num, margin: &S::Num)
    ensures { Lays S.run calc.old calc.new (S.at neg.new)
        (λ e. int_min (S.at neg.old e) (S.at margin.now e))
        (λ e. AllSmall (S.at margin.now e ∷ [])) }
{
    if calc.le(margin, neg) {
        *neg = calc.copy(margin);
    }
}

/// Joins a margin to a run.
pub fn join<S: Steady>(calc: &mut S, run: &mut Run<S::Num>, margin: &S::Num)
    ensures { Lays S.run calc.old calc.new (run_at S.at run.new)
        (λ e. with_margin (run_at S.at run.old e) (S.at margin.now e))
        (λ e. AllSmall (S.at margin.now e ∷ [])) }
{
    raise(calc, &mut run.pos, margin);
    lower(calc, &mut run.neg, margin);
}

/// Lets a float wait.
fn wait<S: Steady>(calc: &mut S, cb: &Band<S::Num>, at: u32, waiting: &mut List<Waiting<S::Num>>)
    ensures { LaysButMem S.run calc.old calc.new (floats_at S.at waiting.new)
        (λ e. floats_at S.at waiting.old e ++ record { at = at; cb = band_at S.at cb.now e } ∷ [])
        (λ e. AllSmall (edges (band_at S.at cb.now e))) }
{
    let cb = copy_band(calc, cb);
    match waiting.push(Waiting { at, cb }) {
        Ok(()) => {}
        Err(_) => calc.stop(),
    }
}

/// The width of a containing block.
pub fn inline_size<S: Steady>(calc: &mut S, cb: &Band<S::Num>) -> S::Num
    ensures { Lays S.run calc.old calc.new (S.at result) (λ e. width_of (band_at S.at cb.now e))
        (λ e. AllSmall (width_of (band_at S.at cb.now e) ∷ [])) }
{
    calc.sub(&cb.right, &cb.left)
}

/// From the left to the right edge of the content of a box whose margin edge is at `left`.
pub fn content_between<S: Steady>(
    calc: &mut S,
    left: &S::Num,
    terms: &Widths<S::Num>,
) -> Band<S::Num>
    ensures { Lays S.run calc.old calc.new (band_at S.at result)
        (λ e. content_from (S.at left.now e) (widths_at S.at terms.now e))
        (λ e. AllSmall (content_way (S.at left.now e) (widths_at S.at terms.now e))) }
{
    let edge = calc.add(left, &terms.margin_left);
    let edge = calc.add(&edge, &terms.border_left);
    let left = calc.add(&edge, &terms.padding_left);
    let right = calc.add(&left, &terms.content);
    Band { left, right }
}

#[tactic(auto, unfolding(crate::specs::steps::Leads::inner_band))]
/// The containing block of the boxes in a block in normal flow (CSS 2.1, 10.1).
pub fn band_inside<S: Steady>(
    calc: &mut S,
    tree: &BoxTree,
    cb: &Band<S::Num>,
    b: u32,
) -> Band<S::Num>
    ensures { Lays S.run calc.old calc.new (band_at S.at result)
        (λ e. inner_band tree.now e.world (band_at S.at cb.now e) b)
        (λ e. InsideFits tree.now e.world (band_at S.at cb.now e) b) }
{
    let room = inline_size(calc, cb);
    let terms = block(calc, tree, b, &room);
    content_between(calc, &cb.left, &terms)
}

/// The used value of a margin in a containing block.
fn margin_in<S: Steady>(calc: &mut S, tree: &BoxTree, cb: &Band<S::Num>, length: &Length) -> S::Num
    ensures { Lays S.run calc.old calc.new (S.at result)
        (λ e. used_length tree.now e.world length.now (width_of (band_at S.at cb.now e)))
        (λ e. MarginFits tree.now e.world length.now (band_at S.at cb.now e)) }
{
    let room = inline_size(calc, cb);
    used(calc, tree, length, &room)
}

#[tactic(auto, unfolding(crate::specs::steps::Leads::margin_above, layout_semantics::specs::Verticals::verticals))]
/// Joins the used top margin of a box to a run.
pub fn join_top<S: Steady>(
    calc: &mut S,
    tree: &BoxTree,
    cb: &Band<S::Num>,
    b: u32,
    run: &mut Run<S::Num>,
)
    ensures { Lays S.run calc.old calc.new (run_at S.at run.new)
        (λ e. with_margin (run_at S.at run.old e)
        (margin_above tree.now e.world (band_at S.at cb.now e) b))
        (λ e. MarginFits tree.now e.world (margins_of tree.now b).top (band_at S.at cb.now e)) }
{
    let margin = margin_in(calc, tree, cb, &margins(tree, b).top);
    join(calc, run, &margin);
}

#[tactic(auto, unfolding(crate::specs::steps::Leads::margin_below, layout_semantics::specs::Verticals::verticals))]
/// Joins its used bottom margin.
pub fn join_bottom<S: Steady>(
    calc: &mut S,
    tree: &BoxTree,
    cb: &Band<S::Num>,
    b: u32,
    run: &mut Run<S::Num>,
)
    ensures { Lays S.run calc.old calc.new (run_at S.at run.new)
        (λ e. with_margin (run_at S.at run.old e)
        (margin_below tree.now e.world (band_at S.at cb.now e) b))
        (λ e. MarginFits tree.now e.world (margins_of tree.now b).bottom (band_at S.at cb.now e)) }
{
    let margin = margin_in(calc, tree, cb, &margins(tree, b).bottom);
    join(calc, run, &margin);
}

/// Whether a box counts as not cleared.
fn is_passed(past: Option<u32>, b: u32) -> bool
    ensures { result ≡ passed_by past b }
{
    match past {
        Some(past) => b <= past,
        None => false,
    }
}

#[tactic(auto, unfolding(crate::specs::steps::Leads::enters))]
/// Whether the margins that adjoin a box's top go on with those in it (CSS 2.1, 8.3.1).
pub fn enters(tree: &BoxTree, b: u32) -> bool
    ensures { result ≡ enters tree.now b }
{
    is_open_above(tree, b) && !has_line(tree, b)
}

#[tactic(auto, unfolding(crate::specs::steps::Leads::stops))]
/// Whether the margins end at a box, since it has `clear`.
pub fn stops_at(tree: &BoxTree, past: Option<u32>, b: u32) -> bool
    ensures { result ≡ stops tree.now (passed_by past) b }
{
    has_clear(tree, b) && !is_passed(past, b)
}

#[cycle(lead)]
/// Joins the margins that adjoin a box's top to a run, and adds the floats between them to those that wait. The box's
/// own bottom margin is not among them; boxes up to `past` count as not cleared.
pub fn lead<S: Steady>(
    calc: &mut S,
    tree: &BoxTree,
    b: u32,
    cb: &Band<S::Num>,
    past: Option<u32>,
    run: &mut Run<S::Num>,
    waiting: &mut List<Waiting<S::Num>>,
) -> Ended<S::Num>
    requires { b < length tree.now.boxes }
    ensures { LaysButMem S.run calc.old calc.new (going_at S.at run.new waiting.new result)
        (λ e. lead_of tree.now e.world (passed_by past) (band_at S.at cb.now e) b
        (run_at S.at run.old e) (floats_at S.at waiting.old e))
        (λ e. LeadFits tree.now e.world (band_at S.at cb.now e) b) }
{
    if stops_at(tree, past, b) {
        return end_at(calc, LeadEnd::Cleared(b), cb);
    }
    inner(calc, tree, b, cb, past, run, waiting)
}

#[cycle(lead)]
/// The same of a box that counts as not cleared.
fn inner<S: Steady>(
    calc: &mut S,
    tree: &BoxTree,
    b: u32,
    cb: &Band<S::Num>,
    past: Option<u32>,
    run: &mut Run<S::Num>,
    waiting: &mut List<Waiting<S::Num>>,
) -> Ended<S::Num>
    requires { b < length tree.now.boxes }
    ensures { LaysButMem S.run calc.old calc.new (going_at S.at run.new waiting.new result)
        (λ e. inner_of tree.now e.world (passed_by past) (band_at S.at cb.now e) b
        (run_at S.at run.old e) (floats_at S.at waiting.old e))
        (λ e. LeadFits tree.now e.world (band_at S.at cb.now e) b) }
{
    join_top(calc, tree, cb, b, run);
    if !enters(tree, b) {
        return end_at(calc, LeadEnd::Solid(b), cb);
    }
    let band = band_inside(calc, tree, cb, b);
    let inside = content(calc, tree, b, &band, past, run, waiting);
    close(calc, tree, b, cb, inside)
}

/// Where the margins end, by where those in a box do.
fn close<S: Steady>(
    calc: &mut S,
    tree: &BoxTree,
    b: u32,
    cb: &Band<S::Num>,
    inside: Ended<S::Num>,
) -> Ended<S::Num>
    requires { b < length tree.now.boxes }
    ensures { Lays S.run calc.old calc.new (ended_at S.at result)
        (λ e. closed_end tree.now b (band_at S.at cb.now e) (ended_at S.at inside e))
        (λ e. AllSmall (edges (band_at S.at cb.now e))) }
{
    match inside.end {
        LeadEnd::Through => {
            if collapses_through(tree, b) {
                end_at(calc, LeadEnd::Through, cb)
            } else {
                end_at(calc, LeadEnd::Solid(b), cb)
            }
        }
        LeadEnd::Solid(_) | LeadEnd::Cleared(_) => inside,
    }
}

#[cycle(lead)]
/// The same of what is in the flow of a box.
fn content<S: Steady>(
    calc: &mut S,
    tree: &BoxTree,
    b: u32,
    band: &Band<S::Num>,
    past: Option<u32>,
    run: &mut Run<S::Num>,
    waiting: &mut List<Waiting<S::Num>>,
) -> Ended<S::Num>
    requires { b < length tree.now.boxes }
    ensures { LaysButMem S.run calc.old calc.new (going_at S.at run.new waiting.new result)
        (λ e. content_of tree.now e.world (passed_by past) (band_at S.at band.now e)
        (flow_children tree.now b) (run_at S.at run.old e) (floats_at S.at waiting.old e))
        (λ e. KidsFit tree.now e.world (band_at S.at band.now e) (flow_children tree.now b)) }
{
    if !holds_inline(tree, b) {
        return kids(calc, tree, b, children(tree, b), band, past, run, waiting);
    }
    match floats_in(tree, b) {
        Ok(floats) => kids(calc, tree, b, floats.as_slice(), band, past, run, waiting),
        Err(_) => {
            calc.stop();
            end_at(calc, LeadEnd::Through, band)
        }
    }
}

#[cycle(lead)]
#[tactic(auto, unfolding(crate::specs::steps::Leads::kid_of))]
/// The same of boxes behind a box, one after another.
fn kids<S: Steady>(
    calc: &mut S,
    tree: &BoxTree,
    b: u32,
    boxes: &[u32],
    band: &Band<S::Num>,
    past: Option<u32>,
    run: &mut Run<S::Num>,
    waiting: &mut List<Waiting<S::Num>>,
) -> Ended<S::Num>
    requires within { b < length tree.now.boxes }
    requires behind { (i : ℕ) → i < length boxes.now
        → (b < slice_index_or boxes.now i 0)
        × (slice_index_or boxes.now i 0 < length tree.now.boxes) }
    ensures { LaysButMem S.run calc.old calc.new (going_at S.at run.new waiting.new result)
        (λ e. content_of tree.now e.world (passed_by past) (band_at S.at band.now e) boxes.now
        (run_at S.at run.old e) (floats_at S.at waiting.old e))
        (λ e. KidsFit tree.now e.world (band_at S.at band.now e) boxes.now) }
{
    for place in boxes {
        let end = kid(calc, tree, *place, band, past, run, waiting);
        if !matches!(end.end, LeadEnd::Through) {
            return end;
        }
    }
    end_at(calc, LeadEnd::Through, band)
}

#[cycle(lead)]
/// The same of one: a float waits, and after a lead that goes through the bottom margin follows.
fn kid<S: Steady>(
    calc: &mut S,
    tree: &BoxTree,
    k: u32,
    band: &Band<S::Num>,
    past: Option<u32>,
    run: &mut Run<S::Num>,
    waiting: &mut List<Waiting<S::Num>>,
) -> Ended<S::Num>
    requires { k < length tree.now.boxes }
    ensures { LaysButMem S.run calc.old calc.new (going_at S.at run.new waiting.new result)
        (λ e. kid_going tree.now e.world (passed_by past)
        (lead_of tree.now e.world (passed_by past) (band_at S.at band.now e))
        (band_at S.at band.now e) k (run_at S.at run.old e) (floats_at S.at waiting.old e))
        (λ e. AllSmall (edges (band_at S.at band.now e))
        × (is_floated_at tree.now k ≡ false
        → LeadFits tree.now e.world (band_at S.at band.now e) k)) }
{
    if is_floated(tree, k) {
        wait(calc, band, k, waiting);
        return end_at(calc, LeadEnd::Through, band);
    }
    let end = lead(calc, tree, k, band, past, run, waiting);
    if !matches!(end.end, LeadEnd::Through) {
        return end;
    }
    join_bottom(calc, tree, band, k, run);
    end_at(calc, LeadEnd::Through, band)
}

/// A lead, and the run with its margins.
#[derive(Drop)]
pub struct Joined<N> {
    /// The lead.
    pub lead: Lead<N>,
    /// The run.
    pub run: Run<N>,
}

/// A run again.
pub fn copy_run<S: Steady>(calc: &mut S, run: &Run<S::Num>) -> Run<S::Num>
    ensures { Lays S.run calc.old calc.new (run_at S.at result) (run_at S.at run.now)
        (λ e. AllSmall (ends (run_at S.at run.now e))) }
{
    let pos = calc.copy(&run.pos);
    let neg = calc.copy(&run.neg);
    Run { pos, neg }
}

/// The margins that adjoin a box's top, with a run of theirs and those of this one.
pub fn whole_lead<S: Steady>(
    calc: &mut S,
    tree: &BoxTree,
    b: u32,
    cb: &Band<S::Num>,
    past: Option<u32>,
    run: &Run<S::Num>,
) -> Joined<S::Num>
    requires { b < length tree.now.boxes }
    ensures goes { Goes (S.run calc.old) (S.run calc.new) }
    ensures value { WhereOpen (S.run calc.new).is_open
        (λ e. joined_at S.at result e ≡ led_by (run_at S.at run.now e) []
        (landed tree.now e.world (passed_by past) (band_at S.at cb.now e) b)) }
    ensures margins { WhereOpen (S.run calc.new).is_open (λ e. (margins : Seq ℤ)
        → IsRunOf (run_at S.at run.now e) margins
        → IsRunOf (run_at S.at result.run e)
        (margins ++ (landed tree.now e.world (passed_by past) (band_at S.at cb.now e) b).margins)) }
    ensures cause { BlamesButMem (S.run calc.old) (S.run calc.new)
        (WhereOpen (S.run calc.old).is_open
        (λ e. AllSmall (ends (run_at S.at run.now e))
        × LeadFits tree.now e.world (band_at S.at cb.now e) b)) }
{
    let mut own = copy_run(calc, run);
    let mut waiting = List::new(tree.boxes.allocator());
    let ended = lead(calc, tree, b, cb, past, &mut own, &mut waiting);
    Joined {
        lead: Lead {
            end: ended.end,
            cb: ended.cb,
            waiting,
        },
        run: own,
    }
}
