//! Floats that stand level at one edge, and whether they do at another (CSS 2.1, 9.5.1).
ghost use Rattle.std.specs.Prelude.{◌≡◌, ⊤, IsTrue, false, int_lt};
ghost use Rattle.std.specs.List.{list_any};
ghost use Rattle.std.specs.Option.{option_map_or};
ghost use Rattle.viz_calc.specs.State.{WhereOpen};
ghost use Rattle.viz_calc.specs.Run.{Goes, Blames, Lays};
ghost use Rattle.lay_float.specs.Readings.{box_at, boxes_at as floats_in, option_at};
ghost use Rattle.lay_float.specs.steps.Bands.{is_relevant_side};
ghost use Rattle.lay_margin.specs.Runs.{run_at};
ghost use Rattle.lay_flow.specs.Levels.{IsUpToNamed, IsWithin, StaysFree};
ghost use Rattle.lay_flow.specs.Levels.{edge_with as edge_with_of, hinders as hinders_of};
ghost use Rattle.lay_flow.specs.Low.{IsAsideLow, IsBaseLow, IsRunLow};
ghost use Rattle.lay_flow.specs.Readings.{base_at};

use crate::parts::Base;
use lay_float::PlacedFloat;
use lay_margin::Run;
use lay_tree::styles::float_side;
use viz_base::{BoxTree, Clear, Side, Waiting};
use viz_calc::Steady;

/// Whether an edge is above a height, if there is one.
pub fn is_above<S: Steady>(calc: &mut S, y: &S::Num, level: &Option<S::Num>) -> bool
    ensures { Lays S.run calc.old calc.new (λ e. result)
        (λ e. option_map_or (int_lt (S.at y.now e)) (option_at S.at level.now e) false) (λ e. ⊤) }
{
    match level {
        Some(level) => !calc.le(level, y),
        None => false,
    }
}

/// The border edge at which a run would end that had this margin alone.
fn edge_with<S: Steady>(calc: &mut S, base: &Base<S::Num>, margin: &S::Num) -> S::Num
    ensures { Lays S.run calc.old calc.new (S.at result)
        (λ e. edge_with_of (base_at S.at base.now e) (S.at margin.now e))
        (λ e. IsBaseLow (base_at S.at base.now e) × IsAsideLow (S.at margin.now e)) }
{
    match base {
        Base::Hangs(edge) => calc.add(edge, margin),
        Base::Stands(edge) => calc.copy(edge),
    }
}

/// Whether an edge lies between those at which a run would end that had its least margin alone, or its greatest.
pub fn is_within<S: Steady>(
    calc: &mut S,
    base: &Base<S::Num>,
    run: &Run<S::Num>,
    y: &S::Num,
) -> bool
    ensures goes { Goes (S.run calc.old) (S.run calc.new) }
    ensures value { WhereOpen (S.run calc.new).is_open (λ e. IsTrue result
        → IsWithin (base_at S.at base.now e) (run_at S.at run.now e) (S.at y.now e)) }
    ensures cause { Blames (S.run calc.old) (S.run calc.new) (WhereOpen (S.run calc.old).is_open
        (λ e. IsBaseLow (base_at S.at base.now e) × IsRunLow (run_at S.at run.now e))) }
{
    let high = edge_with(calc, base, &run.neg);
    let low = edge_with(calc, base, &run.pos);
    calc.le(&high, y) && calc.le(y, &low)
}

/// Whether a float is in the way at an edge that isn't at another one: its top is below the edge, or its bottom between
/// the two.
fn hinders<S: Steady>(calc: &mut S, f: &PlacedFloat<S::Num>, from: &S::Num, to: &S::Num) -> bool
    ensures { Lays S.run calc.old calc.new (λ e. result)
        (λ e. hinders_of (S.at from.now e) (S.at to.now e) (box_at S.at f.now e)) (λ e. ⊤) }
{
    !calc.le(&f.outer.top, to) || (!calc.le(&f.outer.bottom, to) && calc.le(&f.outer.bottom, from))
}

/// Whether any float is in the way at an edge that isn't at another one.
fn any_hinders<S: Steady>(
    calc: &mut S,
    floats: &[PlacedFloat<S::Num>],
    from: &S::Num,
    to: &S::Num,
) -> bool
    ensures { Lays S.run calc.old calc.new (λ e. result)
        (λ e. list_any (hinders_of (S.at from.now e) (S.at to.now e)) (floats_in S.at floats.now e))
        (λ e. ⊤) }
{
    for f in floats {
        if hinders(calc, f, from, to) {
            return true;
        }
    }
    false
}

/// Whether floats that stand level at one edge find the context no less free at another.
pub fn stays_free<S: Steady>(
    calc: &mut S,
    floats: &[PlacedFloat<S::Num>],
    least: &Option<S::Num>,
    from: &S::Num,
    to: &S::Num,
) -> bool
    ensures goes { Goes (S.run calc.old) (S.run calc.new) }
    ensures value { WhereOpen (S.run calc.new).is_open (λ e. IsTrue result
        → StaysFree (floats_in S.at floats.now e) (option_at S.at least.now e) (S.at from.now e) (S.at to.now e)) }
    ensures cause { Blames (S.run calc.old) (S.run calc.new) ⊤ }
{
    // Tops only go down: what ends above an edge is in the way nowhere below it.
    if calc.le(from, to) {
        return true;
    }
    !is_above(calc, to, least) && !any_hinders(calc, floats, from, to)
}

#[tactic(auto, unfolding(lay_float::specs::steps::Bands::is_relevant_side))]
/// Whether `clear` names floats of a side (CSS 2.1, 9.5.2).
fn names(clear: Clear, side: Side) -> bool
    ensures { result ≡ is_relevant_side clear side }
{
    match clear {
        Clear::Nothing => false,
        Clear::Left => matches!(side, Side::Left),
        Clear::Right => matches!(side, Side::Right),
        Clear::Both => true,
    }
}

/// The first of these floats, up to the last one that `clear` names, but at least so many, if there are.
pub fn up_to_named<'a, N>(
    tree: &BoxTree,
    clear: Clear,
    floats: &'a [Waiting<N>],
    least: usize,
) -> &'a [Waiting<N>]
    ensures { IsUpToNamed tree.now clear floats.now least result.now }
{
    let mut part = floats;
    while part.len() > least
        && let Some((last, before)) = part.split_last()
    {
        if names(clear, float_side(tree, last.at)) {
            return part;
        }
        part = before;
    }
    part
}
