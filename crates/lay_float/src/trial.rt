//! Floats that are tried, one after another, where they might stand, in units of 1/64 px (CSS 2.1, 9.5.1).
ghost use Rattle.std.specs.Prelude.{◌+ℤ◌, ◌∷◌, [], ◌++◌, ⊤, int_lt};
ghost use Rattle.std.specs.Option.{option_to_list};
ghost use Rattle.viz_calc.specs.State.{AllSmall};
ghost use Rattle.viz_calc.specs.Run.{Lays, LaysButMem};
ghost use Rattle.viz_calc.specs.Renderings.{spot_at};
ghost use Rattle.layout_semantics.specs.Floats.{placed_float, float_spot, with_float_at};
ghost use Rattle.lay_float.specs.Limits.{AreHalf};
ghost use Rattle.lay_float.specs.Readings.{box_at, boxes_at, floats_at, extent_at};
ghost use Rattle.lay_float.specs.steps.Lent.{lent_at};
ghost use Rattle.lay_float.specs.TrialReadings.{coming_at, trial_at};
ghost use Rattle.lay_float.specs.Trials.{reaching, first_tried, next_tried, tried};

use crate::engine::{copy, float_at, float_top};
use crate::floats::{Floats, PlacedFloat};
use std::alloc::Global;
use viz_base::{Band, Clear, Extent, Quad, Side, Spot};
use viz_calc::Steady;

/// Floats that are tried.
#[derive(Drop)]
pub struct Trial<N> {
    /// The floats of the context, in order.
    pub all: Floats<N>,
    /// Those beside which the next one may stand.
    pub near: Floats<N>,
    /// The top of the last one.
    pub level: N,
}

/// A float that comes next.
#[derive(Drop)]
pub struct Coming<'a, N> {
    /// The side to which it floats.
    pub side: Side,
    /// Below which earlier floats it stands (CSS 2.1, 9.5.2).
    pub clear: Clear,
    /// Its outer size.
    pub size: &'a Extent<N>,
    /// The edges of its containing block.
    pub cb: &'a Band<N>,
}

/// A copy of a float.
fn again<S: Steady>(calc: &mut S, f: &PlacedFloat<S::Num>) -> PlacedFloat<S::Num>
    ensures { Lays S.run calc.old calc.new (box_at S.at result) (box_at S.at f.now)
        (λ e. AllSmall (S.at f.now.outer.left e ∷ S.at f.now.outer.top e ∷ S.at f.now.outer.right e
        ∷ S.at f.now.outer.bottom e ∷ [])) }
{
    let left = calc.copy(&f.outer.left);
    let top = calc.copy(&f.outer.top);
    let right = calc.copy(&f.outer.right);
    let bottom = calc.copy(&f.outer.bottom);
    PlacedFloat {
        side: f.side,
        outer: Quad {
            left,
            top,
            right,
            bottom,
        },
    }
}

/// Puts a float behind others.
fn put<S: Steady>(calc: &mut S, floats: &mut Floats<S::Num>, placed: PlacedFloat<S::Num>)
    ensures { LaysButMem S.run calc.old calc.new (λ e. floats.new.placed)
        (λ e. floats.old.placed ++ placed ∷ []) (λ e. ⊤) }
{
    match floats.placed.push(placed) {
        Ok(()) => {}
        Err(_) => calc.stop(),
    }
}

/// Whether a float ends below a height.
fn reaches<S: Steady>(calc: &mut S, f: &PlacedFloat<S::Num>, level: &S::Num) -> bool
    ensures { Lays S.run calc.old calc.new (λ e. result)
        (λ e. int_lt (S.at level.now e) (box_at S.at f.now e).box.bottom) (λ e. ⊤) }
{
    !calc.le(&f.outer.bottom, level)
}

/// Puts a float behind others, if it ends below a height.
fn keep<S: Steady>(calc: &mut S, f: &PlacedFloat<S::Num>, level: &S::Num, out: &mut Floats<S::Num>)
    ensures { LaysButMem S.run calc.old calc.new (floats_at S.at out.new)
        (λ e. floats_at S.at out.old e ++ reaching (S.at level.now e) (box_at S.at f.now e ∷ []))
        (λ e. AllSmall (S.at f.now.outer.left e ∷ S.at f.now.outer.top e ∷ S.at f.now.outer.right e
        ∷ S.at f.now.outer.bottom e ∷ [])) }
{
    if reaches(calc, f, level) {
        let copied = again(calc, f);
        put(calc, out, copied);
    }
}

/// The floats that end below a height.
fn still_open<S: Steady>(
    alloc: Global,
    calc: &mut S,
    floats: &[PlacedFloat<S::Num>],
    level: &S::Num,
) -> Floats<S::Num>
    ensures { LaysButMem S.run calc.old calc.new (floats_at S.at result)
        (λ e. reaching (S.at level.now e) (boxes_at S.at floats.now e))
        (λ e. AreHalf (boxes_at S.at floats.now e) []) }
{
    let mut out = Floats::new(alloc);
    for f in floats {
        keep(calc, f, level, &mut out);
    }
    out
}

/// The place of a float that comes at y among others.
fn spot_among<S: Steady>(
    calc: &mut S,
    f: &Coming<'_, S::Num>,
    floats: &[PlacedFloat<S::Num>],
    least: Option<&S::Num>,
    y: &S::Num,
) -> Spot<S::Num>
    ensures { LaysButMem S.run calc.old calc.new (spot_at S.at result)
        (λ e. float_spot (coming_at S.at f.now e) (boxes_at S.at floats.now e)
        (lent_at S.at least.entry e) (S.at y.now e))
        (λ e. AreHalf (boxes_at S.at floats.now e)
        (S.at f.now.size.now.width e ∷ S.at f.now.cb.now.left e ∷ S.at f.now.cb.now.right e
        ∷ S.at y.now e ∷ option_to_list (lent_at S.at least.entry e))) }
{
    let top = float_top(calc, floats, f.clear, least, y);
    float_at(calc, floats, f.side, f.size, f.cb, &top)
}

/// The outer box of a float at its place.
fn outer_box<S: Steady>(
    calc: &mut S,
    f: &Coming<'_, S::Num>,
    spot: &Spot<S::Num>,
) -> PlacedFloat<S::Num>
    ensures { Lays S.run calc.old calc.new (box_at S.at result)
        (λ e. placed_float f.now.side (extent_at S.at f.now.size.now e) (spot_at S.at spot.now e))
        (λ e. AllSmall
        (S.at spot.now.x e ∷ S.at spot.now.y e ∷ (S.at spot.now.x e +ℤ S.at f.now.size.now.width e)
        ∷ (S.at spot.now.y e +ℤ S.at f.now.size.now.height e) ∷ [])) }
{
    let left = calc.copy(&spot.x);
    let top = calc.copy(&spot.y);
    let right = calc.add(&spot.x, &f.size.width);
    let bottom = calc.add(&spot.y, &f.size.height);
    PlacedFloat {
        side: f.side,
        outer: Quad {
            left,
            top,
            right,
            bottom,
        },
    }
}

/// Adds a float at its place.
fn add<S: Steady>(
    calc: &mut S,
    f: &Coming<'_, S::Num>,
    spot: &Spot<S::Num>,
    floats: &mut Floats<S::Num>,
)
    ensures { LaysButMem S.run calc.old calc.new (floats_at S.at floats.new)
        (λ e. with_float_at (coming_at S.at f.now e) (floats_at S.at floats.old e)
        (spot_at S.at spot.now e)) (λ e. AllSmall
        (S.at spot.now.x e ∷ S.at spot.now.y e ∷ (S.at spot.now.x e +ℤ S.at f.now.size.now.width e)
        ∷ (S.at spot.now.y e +ℤ S.at f.now.size.now.height e) ∷ [])) }
{
    let placed = outer_box(calc, f, spot);
    put(calc, floats, placed);
}

/// Tries a float that comes at y, where it finds its place among those that are open.
fn try_one<S: Steady>(
    calc: &mut S,
    f: &Coming<'_, S::Num>,
    least: Option<&S::Num>,
    y: &S::Num,
    all: Floats<S::Num>,
    near: Floats<S::Num>,
) -> Trial<S::Num>
    ensures { LaysButMem S.run calc.old calc.new (trial_at S.at result)
        (λ e. tried (coming_at S.at f.now e) (floats_at S.at all e) (floats_at S.at near e)
        (lent_at S.at least.entry e) (S.at y.now e))
        (λ e. AreHalf (floats_at S.at near e)
        (S.at f.now.size.now.width e ∷ S.at f.now.size.now.height e ∷ S.at f.now.cb.now.left e
        ∷ S.at f.now.cb.now.right e ∷ S.at y.now e ∷ option_to_list (lent_at S.at least.entry e))) }
{
    let mut all = all;
    let mut near = near;
    let spot = spot_among(calc, f, near.placed.as_slice(), least, y);
    add(calc, f, &spot, &mut all);
    add(calc, f, &spot, &mut near);
    Trial {
        all,
        near,
        level: spot.y,
    }
}

/// Tries the first float, which comes at y, behind the floats of the context.
pub fn begin<S: Steady>(
    alloc: Global,
    calc: &mut S,
    floats: &[PlacedFloat<S::Num>],
    f: &Coming<'_, S::Num>,
    least: Option<&S::Num>,
    y: &S::Num,
) -> Trial<S::Num>
    ensures { LaysButMem S.run calc.old calc.new (trial_at S.at result)
        (λ e. first_tried (coming_at S.at f.now e) (boxes_at S.at floats.now e)
        (lent_at S.at least.entry e) (S.at y.now e))
        (λ e. AreHalf (boxes_at S.at floats.now e)
        (S.at f.now.size.now.width e ∷ S.at f.now.size.now.height e ∷ S.at f.now.cb.now.left e
        ∷ S.at f.now.cb.now.right e ∷ S.at y.now e ∷ option_to_list (lent_at S.at least.entry e))) }
{
    let all = copy(alloc, calc, floats);
    let near = copy(alloc, calc, floats);
    try_one(calc, f, least, y, all, near)
}

/// Tries the next float.
pub fn go_on<S: Steady>(
    alloc: Global,
    calc: &mut S,
    f: &Coming<'_, S::Num>,
    least: Option<&S::Num>,
    before: Trial<S::Num>,
) -> Trial<S::Num>
    ensures { LaysButMem S.run calc.old calc.new (trial_at S.at result)
        (λ e. next_tried (coming_at S.at f.now e) (lent_at S.at least.entry e)
        (trial_at S.at before e)) (λ e. AreHalf (floats_at S.at before.near e)
        (S.at f.now.size.now.width e ∷ S.at f.now.size.now.height e ∷ S.at f.now.cb.now.left e
        ∷ S.at f.now.cb.now.right e ∷ S.at before.level e
        ∷ option_to_list (lent_at S.at least.entry e))) }
{
    let Trial { all, near, level } = before;
    let near = still_open(alloc, calc, near.placed.as_slice(), &level);
    try_one(calc, f, least, &level, all, near)
}
