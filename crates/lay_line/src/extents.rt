//! How far a line reaches above and below its baseline (CSS 2.1, 10.8).
ghost use Rattle.std.specs.Prelude.{◌≡◌, ⊤, IsTrue, ◌∷◌, []};
ghost use Rattle.viz_calc.specs.State.{AllSmall};
ghost use Rattle.viz_calc.specs.Run.{Lays};
ghost use Rattle.layout_semantics.specs.LineHeights.{height_of_extent};
ghost use Rattle.lay_line.specs.Readings.{line_extent_at};
ghost use Rattle.lay_line.specs.steps.Filling.{with_extent as extent_with};

use viz_calc::{Steady, greater};

/// How far something reaches above and below a baseline, in units of 1/64 px.
#[derive(Drop)]
pub struct LineExtent<N> {
    pub above: N,
    pub below: N,
}

/// How far two extents reach together.
pub fn with_extent<S: Steady>(
    calc: &mut S,
    extent: LineExtent<S::Num>,
    more: LineExtent<S::Num>,
) -> LineExtent<S::Num>
    ensures { Lays S.run calc.old calc.new (line_extent_at S.at result)
        (λ e. extent_with (line_extent_at S.at extent e) (line_extent_at S.at more e)) (λ e. ⊤) }
{
    let above = greater(calc, more.above, extent.above);
    let below = greater(calc, more.below, extent.below);
    LineExtent { above, below }
}

/// The height of an extent, from its top to its bottom.
pub fn height<S: Steady>(calc: &mut S, extent: &LineExtent<S::Num>) -> S::Num
    ensures { Lays S.run calc.old calc.new (S.at result)
        (λ e. height_of_extent (line_extent_at S.at extent.now e))
        (λ e. AllSmall (height_of_extent (line_extent_at S.at extent.now e) ∷ [])) }
{
    calc.add(&extent.above, &extent.below)
}
