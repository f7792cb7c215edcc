//! Used lengths (CSS 2.1, 4.3.2).
ghost use Rattle.std.specs.Prelude.{pos, [], ◌∷◌};
ghost use Rattle.viz_calc.specs.State.{AllSmall};
ghost use Rattle.viz_calc.specs.Run.{Lays};
ghost use Rattle.viz_base.specs.FontSizes.{fraction};
ghost use Rattle.layout_semantics.specs.Lengths.{used as used_length};
ghost use Rattle.lay_length.specs.Ways.{used_way};

use crate::fonts::size_part;
use viz_base::{BoxTree, Length};
use viz_calc::Steady;

/// The number 0.
pub fn zero<S: Steady>(calc: &mut S) -> S::Num
    ensures { Lays S.run calc.old calc.new (S.at result) (λ e. pos 0) (λ e. AllSmall (pos 0 ∷ [])) }
{
    calc.lit(0)
}

/// So many units of 1/64 px.
pub fn pixels<S: Steady>(calc: &mut S, units: i64) -> S::Num
    ensures { Lays S.run calc.old calc.new (S.at result) (λ e. units) (λ e. AllSmall (units ∷ [])) }
{
    calc.lit(i128::from(units))
}

/// So many millionths of a hundredth of a length.
pub fn percentage<S: Steady>(calc: &mut S, part: i64, whole: &S::Num) -> S::Num
    ensures { Lays S.run calc.old calc.new (S.at result)
        (λ e. fraction part 100000000 (S.at whole.now e))
        (λ e. AllSmall (fraction part 100000000 (S.at whole.now e) ∷ [])) }
{
    calc.scale_floor(whole, part, 100_000_000)
}

/// A length in a containing block of width `cb`, in 1/64 px; `auto` counts 0 (CSS 2.1, 4.3.2).
pub fn used<S: Steady>(calc: &mut S, tree: &BoxTree, length: &Length, cb: &S::Num) -> S::Num
    ensures { Lays S.run calc.old calc.new (S.at result)
        (λ e. used_length tree.now e.world length.now (S.at cb.now e))
        (λ e. AllSmall (used_way tree.now e.world length.now (S.at cb.now e))) }
{
    match length {
        Length::Auto => zero(calc),
        Length::Px(units) => pixels(calc, *units),
        Length::Em { k, node } => size_part(calc, tree, *node, *k, 1_000_000),
        Length::Pct(part) => percentage(calc, *part, cb),
    }
}
