//! The greatest of numbers, one after another.
ghost use Rattle.std.specs.Prelude.{⊤};
ghost use Rattle.viz_calc.specs.Run.{Lays};
ghost use Rattle.lay_width.specs.Readings.{option_at};
ghost use Rattle.lay_preferred.specs.steps.Extremes.{larger as larger_of, or_zero as of_or_zero};

use lay_length::lengths::zero;
use viz_calc::{Steady, greater};

/// A number, or a greater one that was there.
pub fn larger<S: Steady>(calc: &mut S, best: Option<S::Num>, width: S::Num) -> S::Num
    ensures { Lays S.run calc.old calc.new (S.at result)
        (λ e. larger_of (option_at S.at best e) (S.at width e)) (λ e. ⊤) }
{
    match best {
        Some(best) => greater(calc, best, width),
        None => width,
    }
}

/// The number, or 0 where there is none.
pub fn or_zero<S: Steady>(calc: &mut S, best: Option<S::Num>) -> S::Num
    ensures { Lays S.run calc.old calc.new (S.at result) (λ e. of_or_zero (option_at S.at best e))
        (λ e. ⊤) }
{
    match best {
        Some(best) => best,
        None => zero(calc),
    }
}
