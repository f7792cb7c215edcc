//! The top of a line (CSS 2.1, 9.5).
ghost use Rattle.std.specs.Prelude.{◌≡◌, None, fold, IsTrue, ⊤, ◌∷◌, []};
ghost use Rattle.viz_calc.specs.Run.{Lays};
ghost use Rattle.lay_float.specs.Readings.{box_at, boxes_at, option_at};
ghost use Rattle.lay_line.specs.Contexts.{context_at};
ghost use Rattle.lay_line.specs.steps.Meeting.{stands_at as stands_in, top_in};
ghost use Rattle.lay_line.specs.steps.Tops.{lower as lower_of, with_float};
ghost use Rattle.viz_calc.specs.State.{AllSmall};
ghost use Rattle.lay_line.specs.Limits.{RoomFits};

use crate::containers::Container;
use crate::meeting::fits;
use lay_float::PlacedFloat;
use lay_float::engine::meets_any;
use viz_calc::{Steady, lesser};

/// A place that is wanted for a line, in units of 1/64 px.
#[derive(Drop)]
pub struct Wanted<'w, 'a, N> {
    /// Whose line it is.
    pub container: &'w Container<'a, N>,
    /// The floats beside which it is.
    pub floats: &'w [PlacedFloat<N>],
    /// From where on.
    pub y: &'w N,
    /// The height of the tallest line of its container.
    pub tall: &'w N,
    /// The width of its first segment.
    pub width: &'w N,
}

/// The lower of the best number so far and one more.
fn lower<S: Steady>(calc: &mut S, best: Option<S::Num>, more: S::Num) -> S::Num
    ensures { Lays S.run calc.old calc.new (S.at result)
        (λ e. lower_of (option_at S.at best e) (S.at more e)) (λ e. ⊤) }
{
    match best {
        Some(best) => lesser(calc, more, best),
        None => more,
    }
}

#[tactic(auto, unfolding(crate::specs::Contexts::context_at, crate::specs::steps::Meeting::stands_at))]
/// Whether the line may stand there: beside no float, or where its first segment fits.
fn stands_at<S: Steady>(calc: &mut S, wanted: &Wanted<'_, '_, S::Num>, top: &S::Num) -> bool
    ensures { Lays S.run calc.old calc.new (λ e. result)
        (λ e. stands_in (context_at S.at wanted.now.container.now e)
        (boxes_at S.at wanted.now.floats.now e) (S.at wanted.now.tall.now e)
        (S.at wanted.now.width.now e) (S.at top.now e))
        (λ e. RoomFits (context_at S.at wanted.now.container.now e)
        (boxes_at S.at wanted.now.floats.now e) (S.at top.now e) (S.at wanted.now.tall.now e)) }
{
    !meets_any(calc, wanted.floats, top, wanted.tall)
        || fits(
            calc,
            wanted.container,
            wanted.floats,
            top,
            wanted.tall,
            wanted.width,
        )
}

/// The highest place so far, with the bottom of one float more.
fn with_bottom<S: Steady>(
    calc: &mut S,
    wanted: &Wanted<'_, '_, S::Num>,
    best: Option<S::Num>,
    f: &PlacedFloat<S::Num>,
) -> Option<S::Num>
    ensures { Lays S.run calc.old calc.new (option_at S.at result)
        (λ e. with_float (stands_in (context_at S.at wanted.now.container.now e)
        (boxes_at S.at wanted.now.floats.now e) (S.at wanted.now.tall.now e)
        (S.at wanted.now.width.now e)) (S.at wanted.now.y.now e) (option_at S.at best e)
        (box_at S.at f.now e)) (λ e. RoomFits (context_at S.at wanted.now.container.now e)
        (boxes_at S.at wanted.now.floats.now e) (S.at f.now.outer.bottom e)
        (S.at wanted.now.tall.now e) × AllSmall (S.at f.now.outer.bottom e ∷ [])) }
{
    if calc.le(&f.outer.bottom, wanted.y) {
        return best;
    }
    if !stands_at(calc, wanted, &f.outer.bottom) {
        return best;
    }
    let bottom = calc.copy(&f.outer.bottom);
    Some(lower(calc, best, bottom))
}

/// The highest place below y, at the bottom of a float.
fn highest_below<S: Steady>(calc: &mut S, wanted: &Wanted<'_, '_, S::Num>) -> Option<S::Num>
    ensures { Lays S.run calc.old calc.new (option_at S.at result)
        (λ e. fold (with_float (stands_in (context_at S.at wanted.now.container.now e)
        (boxes_at S.at wanted.now.floats.now e) (S.at wanted.now.tall.now e)
        (S.at wanted.now.width.now e)) (S.at wanted.now.y.now e)) None
        (boxes_at S.at wanted.now.floats.now e))
        (λ e. RoomFits (context_at S.at wanted.now.container.now e)
        (boxes_at S.at wanted.now.floats.now e) (S.at wanted.now.y.now e)
        (S.at wanted.now.tall.now e)) }
{
    let mut best = None;
    for f in wanted.floats {
        best = with_bottom(calc, wanted, best, f);
    }
    best
}

#[tactic(auto, unfolding(crate::specs::steps::Meeting::top_in))]
/// The highest place from y on where the line's first segment fits, or no float is met.
pub fn line_top<S: Steady>(calc: &mut S, wanted: &Wanted<'_, '_, S::Num>) -> S::Num
    ensures { Lays S.run calc.old calc.new (S.at result)
        (λ e. top_in (context_at S.at wanted.now.container.now e)
        (boxes_at S.at wanted.now.floats.now e) (S.at wanted.now.y.now e)
        (S.at wanted.now.tall.now e) (S.at wanted.now.width.now e))
        (λ e. RoomFits (context_at S.at wanted.now.container.now e)
        (boxes_at S.at wanted.now.floats.now e) (S.at wanted.now.y.now e)
        (S.at wanted.now.tall.now e)) }
{
    if stands_at(calc, wanted, wanted.y) {
        return calc.copy(wanted.y);
    }
    match highest_below(calc, wanted) {
        Some(top) => top,
        None => calc.copy(wanted.y),
    }
}
