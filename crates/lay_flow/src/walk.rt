//! The walk over the boxes of a block formatting context (CSS 2.1, 9.4.1).
ghost use Rattle.std.specs.Prelude.{◌≡◌, ◌<◌, ◌++◌, ℕ, ℤ, Bool, None, length, slice_index_or, IsTrue};
ghost use Rattle.viz_calc.specs.State.{WhereOpen};
ghost use Rattle.std.specs.Option.{option_or};
ghost use Rattle.viz_calc.specs.World.{Reading};
ghost use Rattle.viz_calc.specs.Run.{Goes, Blames, BlamesButMem, Lays};
ghost use Rattle.viz_calc.specs.Renderings.{band_at};
ghost use Rattle.lay_frame.specs.Readings.{frame_at, boxes_at};
ghost use Rattle.lay_float.specs.Agreement.{Agree};
ghost use Rattle.lay_float.specs.Readings.{option_at};
ghost use Rattle.lay_margin.specs.Runs.{run_at, with_margin};
ghost use Rattle.lay_flow.specs.WalkFits.{AllFit, WalkFits, before_content, before_children, before_child, before_flow, when_reached, when_starting, when_going_on};
ghost use Rattle.lay_flow.specs.Readings.{apart_at, cleared_at, context_at, laid_with};
ghost use Rattle.lay_steps.specs.Flow.{fresh as fresh_of, without_boxes, float_of, left, laid_replaced as replaced_step, laid_context as context_step, laid_block as block_step, laid_of, in_flow, child_of, children_of, content_of};
ghost use Rattle.lay_flow.specs.Low.{AreLevelsLow, IsIndependentLow, IsBandLow, IsContextLow, IsFrameLow};
ghost use Rattle.lay_flow.specs.Fits.{IsNear, IsReplacedFit};

use crate::floating::{add_apart, size_of};
use crate::frames::{block_box, context_box, replaced_box, shape};
use crate::heights::{joined_run, next_edge};
use crate::lines::in_lines;
use crate::parts::{Cleared, Context, Laid, Page};
use crate::reached::{below, copy_standing, is_at_top, open, reach, standing_after, standing_in};
use lay_float::Floats;
use lay_frame::frames::{Shape, content_top};
use lay_frame::lists::{append, keep, put};
use lay_line::floating::place_float;
use lay_margin::Run;
use lay_margin::engine::empty;
use lay_margin::leads::{content_between, inline_size, join};
use lay_tree::adjoining::{collapses_through, joins_last_child};
use lay_tree::boxes::{children as child_boxes, establishes_context, is_floated, is_replaced};
use lay_tree::contents::{floats_in, has_line, holds_inline};
use std::alloc::Global;
use viz_base::{Band, Placed};
use viz_calc::{Steady, greater};

/// A context where nothing stands yet.
pub fn fresh<S: Steady>(alloc: Global, calc: &mut S, top: &S::Num) -> Context<S::Num>
    ensures goes { Goes (S.run calc.old) (S.run calc.new) }
    ensures value { WhereOpen (S.run calc.new).is_open
        (λ e. context_at S.at result e ≡ fresh_of (S.at top.now e)) }
    ensures cause { Blames (S.run calc.old) (S.run calc.new) (WhereOpen (S.run calc.old).is_open
        (λ e. IsNear (S.at top.now e))) }
    ensures ended { result.floats.ended ≡ None }
{
    let standing = below(calc, top);
    Context {
        standing,
        floats: Floats::new(alloc),
        least: None,
        baseline: None,
    }
}

#[tactic(auto, unfolding(lay_steps::specs::Flow::float_of))]
/// Places a float that is laid out.
fn float<S: Steady>(
    calc: &mut S,
    page: &Page<'_, S::Num>,
    cb: &Band<S::Num>,
    top: &S::Num,
    context: &mut Context<S::Num>,
    k: u32,
    out: &mut Vec<Placed<S::Num>>,
)
    requires { Agree S.at (S.run calc.old).is_open context.old.floats }
    ensures goes { Goes (S.run calc.old) (S.run calc.new) }
    ensures context { WhereOpen (S.run calc.new).is_open
        (λ e. context_at S.at context.new e
        ≡ (float_of page.now.tree.now e.world (apart_at S.at page.now.apart.now e)
        (band_at S.at cb.now e) (S.at top.now e) (context_at S.at context.old e) k).context) }
    ensures boxes { WhereOpen (S.run calc.new).is_open
        (λ e. boxes_at S.at out.new.items e
        ≡ boxes_at S.at out.old.items e
        ++ (float_of page.now.tree.now e.world (apart_at S.at page.now.apart.now e)
        (band_at S.at cb.now e) (S.at top.now e) (context_at S.at context.old e) k).boxes) }
    ensures cause { BlamesButMem (S.run calc.old) (S.run calc.new)
        (WhereOpen (S.run calc.old).is_open
        (λ e. IsContextLow (context_at S.at context.old e)
        × (IsBandLow (band_at S.at cb.now e)
        × (IsNear (S.at top.now e) × IsIndependentLow (apart_at S.at page.now.apart.now e k))))) }
    ensures agrees { Agree S.at (S.run calc.new).is_open context.new.floats }
{
    let size = size_of(calc, page.apart, k);
    let edge = next_edge(calc, &context.standing);
    let from = calc.copy(top);
    // Rule 4 of 9.5.1 asks for the container's content top, which may lie below where the last child ends.
    let y = greater(calc, from, edge);
    let spot = place_float(
        calc,
        page.tree,
        &mut context.floats,
        k,
        &size,
        cb,
        context.least.as_ref(),
        &y,
    );
    add_apart(calc, page.apart, k, &spot, out);
}

/// The margins that end a box: those of its last child that its own bottom margin joins, and that.
fn closing<S: Steady>(calc: &mut S, run: Run<S::Num>, shape: &Shape<S::Num>) -> Run<S::Num>
    ensures { Lays S.run calc.old calc.new (run_at S.at result)
        (λ e. with_margin (run_at S.at run e) (S.at shape.now.v.margin_bottom e))
        (λ e. IsFrameLow (frame_at S.at shape.now e)) }
{
    let mut run = run;
    join(calc, &mut run, &shape.v.margin_bottom);
    run
}

#[tactic(auto, unfolding(lay_steps::specs::Flow::laid_replaced))]
/// Lays out a replaced box in so wide a containing block.
fn lay_replaced<S: Steady>(
    calc: &mut S,
    page: &Page<'_, S::Num>,
    room: &S::Num,
    context: &mut Context<S::Num>,
    b: u32,
    shape: &Shape<S::Num>,
    out: &mut Vec<Placed<S::Num>>,
) -> Laid<S::Num>
    ensures goes { Goes (S.run calc.old) (S.run calc.new) }
    ensures value { WhereOpen (S.run calc.new).is_open
        (λ e. laid_with S.at result context.new e
        ≡ without_boxes (replaced_step page.now.tree.now e.world (S.at room.now e)
        (context_at S.at context.old e) b (frame_at S.at shape.now e))) }
    ensures boxes { WhereOpen (S.run calc.new).is_open
        (λ e. boxes_at S.at out.new.items e
        ≡ boxes_at S.at out.old.items e
        ++ (replaced_step page.now.tree.now e.world (S.at room.now e) (context_at S.at context.old e) b
        (frame_at S.at shape.now e)).after.boxes) }
    ensures cause { BlamesButMem (S.run calc.old) (S.run calc.new)
        (WhereOpen (S.run calc.old).is_open
        (λ e. IsReplacedFit page.now.tree.now e.world b (S.at room.now e)
        × (AreLevelsLow (option_at S.at context.old.least e)
        × IsFrameLow (frame_at S.at shape.now e)))) }
    ensures floats { context.new.floats ≡ context.old.floats }
{
    let top = content_top(calc, shape);
    let standing = below(calc, &top);
    open(calc, shape, standing, context);
    let placed = replaced_box(calc, page, b, room, shape);
    let bottom = calc.copy(&placed.border.bottom);
    append(calc, out, placed);
    let run = empty(calc);
    let margins = closing(calc, run, shape);
    Laid {
        through: false,
        bottom,
        margins,
    }
}

/// The last line's baseline: that of what is inside, or the one before.
fn baseline_after<N: Drop>(inside: Option<N>, before: Option<N>) -> Option<N>
    ensures { (at : N → Reading → ℤ) (e : Reading) → option_at at result e
        ≡ option_or (option_at at inside e) (option_at at before e) }
{
    match inside {
        Some(baseline) => Some(baseline),
        None => before,
    }
}

#[tactic(auto, unfolding(lay_steps::specs::Flow::left))]
/// Goes on with the context around a box whose own has come so far.
fn leave<S: Steady>(
    calc: &mut S,
    shape: &Shape<S::Num>,
    own: Context<S::Num>,
    context: &mut Context<S::Num>,
)
    ensures goes { Goes (S.run calc.old) (S.run calc.new) }
    ensures value { WhereOpen (S.run calc.new).is_open
        (λ e. context_at S.at context.new e
        ≡ left (context_at S.at context.old e) (frame_at S.at shape.now e)
        (context_at S.at own e)) }
    ensures cause { Blames (S.run calc.old) (S.run calc.new) (WhereOpen (S.run calc.old).is_open
        (λ e. AreLevelsLow (option_at S.at context.old.least e)
        × IsFrameLow (frame_at S.at shape.now e))) }
    ensures floats { context.new.floats ≡ context.old.floats }
{
    let Context {
        standing,
        // A context's floats end with it (9.4.1); its last line's baseline goes on to the box around.
        floats: _,
        least: _,
        baseline,
    } = own;
    open(calc, shape, standing, context);
    let before = std::mem::replace(&mut context.baseline, None);
    context.baseline = baseline_after(baseline, before);
}

#[cycle(flow)]
#[tactic(auto, using(lay_frame::proofs::Slots::seams), unfolding(lay_steps::specs::Flow::laid_context))]
/// Lays out a box that starts a context; the one around it goes on as it was, but for the last line's baseline.
fn lay_context<S: Steady>(
    calc: &mut S,
    page: &Page<'_, S::Num>,
    cb: &Band<S::Num>,
    context: &mut Context<S::Num>,
    b: u32,
    shape: &Shape<S::Num>,
    out: &mut Vec<Placed<S::Num>>,
) -> Laid<S::Num>
    requires { b < length page.now.tree.now.boxes }
    ensures goes { Goes (S.run calc.old) (S.run calc.new) }
    ensures value { WhereOpen (S.run calc.new).is_open
        (λ e. laid_with S.at result context.new e
        ≡ without_boxes (context_step page.now.tree.now e.world
        (content_of page.now.tree.now e.world (apart_at S.at page.now.apart.now e))
        (band_at S.at cb.now e) (context_at S.at context.old e) b (frame_at S.at shape.now e))) }
    ensures boxes { WhereOpen (S.run calc.new).is_open
        (λ e. boxes_at S.at out.new.items e
        ≡ boxes_at S.at out.old.items e
        ++ (context_step page.now.tree.now e.world
        (content_of page.now.tree.now e.world (apart_at S.at page.now.apart.now e))
        (band_at S.at cb.now e) (context_at S.at context.old e) b
        (frame_at S.at shape.now e)).after.boxes) }
    ensures cause { BlamesButMem (S.run calc.old) (S.run calc.new)
        (AllFit page.now.tree.now (S.run calc.old).is_open (λ e. WalkFits page.now.tree.now e.world
        (apart_at S.at page.now.apart.now e) (when_starting (band_at S.at cb.now e)
        (context_at S.at context.old e) b (frame_at S.at shape.now e)))) }
    ensures floats { context.new.floats ≡ context.old.floats }
{
    let band = content_between(calc, &cb.left, &shape.x);
    let top = content_top(calc, shape);
    let mut own = fresh(page.tree.boxes.allocator(), calc, &top);
    let place = keep(calc, page.tree, b, shape, out);
    content(calc, page, &band, &top, &mut own, b, out);
    let placed = context_box(calc, page, b, shape, &own);
    let bottom = calc.copy(&placed.border.bottom);
    put::<S>(out, place, placed);
    leave(calc, shape, own, context);
    let run = empty(calc);
    let margins = closing(calc, run, shape);
    Laid {
        through: false,
        bottom,
        margins,
    }
}

#[cycle(flow)]
#[tactic(auto, using(lay_frame::proofs::Slots::seams), unfolding(lay_steps::specs::Flow::laid_block))]
/// Lays out another block, which goes on with the context.
fn lay_block<S: Steady>(
    calc: &mut S,
    page: &Page<'_, S::Num>,
    cb: &Band<S::Num>,
    context: &mut Context<S::Num>,
    b: u32,
    cleared: Option<Cleared<S::Num>>,
    shape: &Shape<S::Num>,
    out: &mut Vec<Placed<S::Num>>,
) -> Laid<S::Num>
    requires within { b < length page.now.tree.now.boxes }
    requires agrees { Agree S.at (S.run calc.old).is_open context.old.floats }
    ensures goes { Goes (S.run calc.old) (S.run calc.new) }
    ensures value { WhereOpen (S.run calc.new).is_open
        (λ e. laid_with S.at result context.new e
        ≡ without_boxes (block_step page.now.tree.now e.world
        (content_of page.now.tree.now e.world (apart_at S.at page.now.apart.now e))
        (band_at S.at cb.now e) (context_at S.at context.old e) b (cleared_at S.at cleared e)
        (frame_at S.at shape.now e))) }
    ensures boxes { WhereOpen (S.run calc.new).is_open
        (λ e. boxes_at S.at out.new.items e
        ≡ boxes_at S.at out.old.items e
        ++ (block_step page.now.tree.now e.world
        (content_of page.now.tree.now e.world (apart_at S.at page.now.apart.now e))
        (band_at S.at cb.now e) (context_at S.at context.old e) b (cleared_at S.at cleared e)
        (frame_at S.at shape.now e)).after.boxes) }
    ensures cause { BlamesButMem (S.run calc.old) (S.run calc.new)
        (AllFit page.now.tree.now (S.run calc.old).is_open
        (λ e. WalkFits page.now.tree.now e.world (apart_at S.at page.now.apart.now e)
        (when_going_on (band_at S.at cb.now e) (context_at S.at context.old e) b
        (cleared_at S.at cleared e) (frame_at S.at shape.now e)))) }
    ensures agrees { Agree S.at (S.run calc.new).is_open context.new.floats }
{
    let band = content_between(calc, &cb.left, &shape.x);
    let top = content_top(calc, shape);
    let standing = standing_in(calc, page.tree, b, cleared, shape);
    open(calc, shape, standing, context);
    let place = keep(calc, page.tree, b, shape, out);
    content(calc, page, &band, &top, context, b, out);
    let placed = block_box(calc, page, b, shape, context);
    let bottom = calc.copy(&placed.border.bottom);
    put::<S>(out, place, placed);
    // The tree says whether its margins may meet; that nothing stood in it in between the walk has seen.
    let through = is_at_top(&context.standing) && collapses_through(page.tree, b);
    let run = joined_run(calc, joins_last_child(page.tree, b), &context.standing);
    let margins = closing(calc, run, shape);
    Laid {
        through,
        bottom,
        margins,
    }
}

#[cycle(flow)]
#[tactic(auto, unfolding(lay_steps::specs::Flow::laid))]
/// Lays out a box in flow that is reached.
fn lay<S: Steady>(
    calc: &mut S,
    page: &Page<'_, S::Num>,
    cb: &Band<S::Num>,
    context: &mut Context<S::Num>,
    b: u32,
    top: &S::Num,
    cleared: Option<Cleared<S::Num>>,
    out: &mut Vec<Placed<S::Num>>,
) -> Laid<S::Num>
    requires within { b < length page.now.tree.now.boxes }
    requires agrees { Agree S.at (S.run calc.old).is_open context.old.floats }
    ensures goes { Goes (S.run calc.old) (S.run calc.new) }
    ensures value { (clears : Bool) → WhereOpen (S.run calc.new).is_open
        (λ e. laid_with S.at result context.new e
        ≡ without_boxes (laid_of page.now.tree.now e.world (apart_at S.at page.now.apart.now e)
        (band_at S.at cb.now e) (context_at S.at context.old e) b
        (record { top = S.at top.now e; clears = clears; cleared = cleared_at S.at cleared e }))) }
    ensures boxes { (clears : Bool) (e : Reading) → IsTrue ((S.run calc.new).is_open e)
        → boxes_at S.at out.new.items e ≡ boxes_at S.at out.old.items e
        ++ (laid_of page.now.tree.now e.world (apart_at S.at page.now.apart.now e)
        (band_at S.at cb.now e) (context_at S.at context.old e) b
        (record { top = S.at top.now e; clears = clears; cleared = cleared_at S.at cleared e })).after.boxes }
    ensures cause { BlamesButMem (S.run calc.old) (S.run calc.new)
        (AllFit page.now.tree.now (S.run calc.old).is_open (λ e. WalkFits page.now.tree.now e.world
        (apart_at S.at page.now.apart.now e) (when_reached (band_at S.at cb.now e)
        (context_at S.at context.old e) b (S.at top.now e) (cleared_at S.at cleared e)))) }
    ensures agrees { Agree S.at (S.run calc.new).is_open context.new.floats }
{
    let shape = shape(calc, page, cb, b, top);
    if is_replaced(page.tree, b) {
        let room = inline_size(calc, cb);
        return lay_replaced(calc, page, &room, context, b, &shape, out);
    }
    if establishes_context(page.tree, b) {
        return lay_context(calc, page, cb, context, b, &shape, out);
    }
    lay_block(calc, page, cb, context, b, cleared, &shape, out)
}

#[cycle(flow)]
#[tactic(auto, unfolding(lay_steps::specs::Flow::flow_child))]
/// A box in flow.
fn flow<S: Steady>(
    calc: &mut S,
    page: &Page<'_, S::Num>,
    cb: &Band<S::Num>,
    context: &mut Context<S::Num>,
    b: u32,
    out: &mut Vec<Placed<S::Num>>,
)
    requires within { b < length page.now.tree.now.boxes }
    requires agrees { Agree S.at (S.run calc.old).is_open context.old.floats }
    ensures goes { Goes (S.run calc.old) (S.run calc.new) }
    ensures context { WhereOpen (S.run calc.new).is_open
        (λ e. context_at S.at context.new e
        ≡ (in_flow page.now.tree.now e.world (apart_at S.at page.now.apart.now e)
        (band_at S.at cb.now e) (context_at S.at context.old e) b).context) }
    ensures boxes { WhereOpen (S.run calc.new).is_open
        (λ e. boxes_at S.at out.new.items e
        ≡ boxes_at S.at out.old.items e
        ++ (in_flow page.now.tree.now e.world (apart_at S.at page.now.apart.now e)
        (band_at S.at cb.now e) (context_at S.at context.old e) b).boxes) }
    ensures cause { BlamesButMem (S.run calc.old) (S.run calc.new)
        (AllFit page.now.tree.now (S.run calc.old).is_open (λ e. WalkFits page.now.tree.now e.world
        (apart_at S.at page.now.apart.now e) (before_flow (band_at S.at cb.now e)
        (context_at S.at context.old e) b))) }
    ensures agrees { Agree S.at (S.run calc.new).is_open context.new.floats }
{
    let mut met = reach(calc, page, cb, context, b);
    // Laying the box out moves the context on; where it collapses through, the next one starts from here again.
    let before = copy_standing(calc, &context.standing);
    let cleared = std::mem::replace(&mut met.reached.cleared, None);
    let laid = lay(calc, page, cb, context, b, &met.reached.top, cleared, out);
    context.standing = standing_after(calc, page.tree, cb, before, b, met, laid);
}

#[cycle(flow)]
#[tactic(auto, unfolding(lay_steps::specs::Flow::child))]
/// A child of a block container.
fn child<S: Steady>(
    calc: &mut S,
    page: &Page<'_, S::Num>,
    cb: &Band<S::Num>,
    top: &S::Num,
    context: &mut Context<S::Num>,
    k: u32,
    out: &mut Vec<Placed<S::Num>>,
)
    requires within { k < length page.now.tree.now.boxes }
    requires agrees { Agree S.at (S.run calc.old).is_open context.old.floats }
    ensures goes { Goes (S.run calc.old) (S.run calc.new) }
    ensures context { WhereOpen (S.run calc.new).is_open
        (λ e. context_at S.at context.new e
        ≡ (child_of page.now.tree.now e.world (apart_at S.at page.now.apart.now e)
        (band_at S.at cb.now e) (S.at top.now e) (context_at S.at context.old e) k).context) }
    ensures boxes { WhereOpen (S.run calc.new).is_open
        (λ e. boxes_at S.at out.new.items e
        ≡ boxes_at S.at out.old.items e
        ++ (child_of page.now.tree.now e.world (apart_at S.at page.now.apart.now e)
        (band_at S.at cb.now e) (S.at top.now e) (context_at S.at context.old e) k).boxes) }
    ensures cause { BlamesButMem (S.run calc.old) (S.run calc.new)
        (AllFit page.now.tree.now (S.run calc.old).is_open (λ e. WalkFits page.now.tree.now e.world
        (apart_at S.at page.now.apart.now e) (before_child (band_at S.at cb.now e) (S.at top.now e)
        (context_at S.at context.old e) k))) }
    ensures agrees { Agree S.at (S.run calc.new).is_open context.new.floats }
{
    if is_floated(page.tree, k) {
        float(calc, page, cb, top, context, k, out);
    } else {
        flow(calc, page, cb, context, k, out);
    }
}

#[cycle(flow)]
/// Children of a block container, behind it, one after another.
fn children<S: Steady>(
    calc: &mut S,
    page: &Page<'_, S::Num>,
    cb: &Band<S::Num>,
    top: &S::Num,
    context: &mut Context<S::Num>,
    b: u32,
    boxes: &[u32],
    out: &mut Vec<Placed<S::Num>>,
)
    requires within { b < length page.now.tree.now.boxes }
    requires agrees { Agree S.at (S.run calc.old).is_open context.old.floats }
    requires behind { (i : ℕ) → i < length boxes.now
        → (b < slice_index_or boxes.now i 0)
        × (slice_index_or boxes.now i 0 < length page.now.tree.now.boxes) }
    ensures goes { Goes (S.run calc.old) (S.run calc.new) }
    ensures context { WhereOpen (S.run calc.new).is_open
        (λ e. context_at S.at context.new e
        ≡ (children_of page.now.tree.now e.world (apart_at S.at page.now.apart.now e)
        (band_at S.at cb.now e) (S.at top.now e)
        (context_at S.at context.old e) boxes.now).context) }
    ensures boxes { WhereOpen (S.run calc.new).is_open
        (λ e. boxes_at S.at out.new.items e
        ≡ boxes_at S.at out.old.items e
        ++ (children_of page.now.tree.now e.world (apart_at S.at page.now.apart.now e)
        (band_at S.at cb.now e) (S.at top.now e) (context_at S.at context.old e) boxes.now).boxes) }
    ensures cause { BlamesButMem (S.run calc.old) (S.run calc.new)
        (AllFit page.now.tree.now (S.run calc.old).is_open
        (λ e. WalkFits page.now.tree.now e.world (apart_at S.at page.now.apart.now e)
        (before_children (band_at S.at cb.now e) (S.at top.now e)
        (context_at S.at context.old e) boxes.now))) }
    ensures agrees { Agree S.at (S.run calc.new).is_open context.new.floats }
{
    for k in boxes {
        child(calc, page, cb, top, context, *k, out);
    }
}

#[cycle(flow)]
/// What is in a block container: its lines, or its children one after another.
pub fn content<S: Steady>(
    calc: &mut S,
    page: &Page<'_, S::Num>,
    cb: &Band<S::Num>,
    top: &S::Num,
    context: &mut Context<S::Num>,
    b: u32,
    out: &mut Vec<Placed<S::Num>>,
)
    requires within { b < length page.now.tree.now.boxes }
    requires agrees { Agree S.at (S.run calc.old).is_open context.old.floats }
    ensures goes { Goes (S.run calc.old) (S.run calc.new) }
    ensures context { WhereOpen (S.run calc.new).is_open
        (λ e. context_at S.at context.new e
        ≡ (content_of page.now.tree.now e.world (apart_at S.at page.now.apart.now e) b
        (band_at S.at cb.now e) (S.at top.now e) (context_at S.at context.old e)).context) }
    ensures boxes { WhereOpen (S.run calc.new).is_open
        (λ e. boxes_at S.at out.new.items e
        ≡ boxes_at S.at out.old.items e
        ++ (content_of page.now.tree.now e.world (apart_at S.at page.now.apart.now e) b
        (band_at S.at cb.now e) (S.at top.now e) (context_at S.at context.old e)).boxes) }
    ensures cause { BlamesButMem (S.run calc.old) (S.run calc.new)
        (AllFit page.now.tree.now (S.run calc.old).is_open (λ e. WalkFits page.now.tree.now e.world
        (apart_at S.at page.now.apart.now e) (before_content b (band_at S.at cb.now e)
        (S.at top.now e) (context_at S.at context.old e)))) }
    ensures agrees { Agree S.at (S.run calc.new).is_open context.new.floats }
{
    let tree = page.tree;
    if has_line(tree, b) {
        in_lines(calc, page, b, cb, top, context, out);
        return;
    }
    if !holds_inline(tree, b) {
        let kids = child_boxes(tree, b);
        children(calc, page, cb, top, context, b, kids, out);
        return;
    }
    match floats_in(tree, b) {
        Ok(floats) => {
            children(calc, page, cb, top, context, b, floats.as_slice(), out);
        }
        Err(_) => calc.stop(),
    }
}
