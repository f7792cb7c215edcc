//! A length between its minimum and its maximum (CSS 2.1, 10.4, 10.7).
ghost use Rattle.std.specs.Prelude.{⊤};
ghost use Rattle.std.specs.Int.{int_min};
ghost use Rattle.std.specs.Option.{option_map_or};
ghost use Rattle.viz_calc.specs.Run.{Lays};
ghost use Rattle.layout_semantics.specs.Lengths.{clamped};
ghost use Rattle.lay_width.specs.Readings.{option_at};

use viz_calc::{Steady, greater, lesser};

/// A length that is above its maximum becomes that.
pub fn no_more<S: Steady>(calc: &mut S, most: Option<S::Num>, length: S::Num) -> S::Num
    ensures { Lays S.run calc.old calc.new (S.at result)
        (λ e. option_map_or (int_min (S.at length e)) (option_at S.at most e) (S.at length e))
        (λ e. ⊤) }
{
    match most {
        Some(most) => lesser(calc, length, most),
        None => length,
    }
}

/// A length after its maximum and then its minimum (CSS 2.1, 10.4, 10.7).
pub fn hold<S: Steady>(calc: &mut S, most: Option<S::Num>, least: S::Num, length: S::Num) -> S::Num
    ensures { Lays S.run calc.old calc.new (S.at result)
        (λ e. clamped (option_at S.at most e) (S.at least e) (S.at length e)) (λ e. ⊤) }
{
    let length = no_more(calc, most, length);
    greater(calc, length, least)
}
