//! How far inline boxes reach above and below a baseline (CSS 2.1, 10.8.1).
ghost use Rattle.std.specs.Prelude.{◌≡◌, ◌+ℤ◌, ◌-ℤ◌, IsTrue, ◌∷◌, []};
ghost use Rattle.viz_base.specs.Numbers.{floor_of};
ghost use Rattle.viz_calc.specs.Run.{Fits, Lays};
ghost use Rattle.layout_semantics.specs.LineHeights.{half_leading as half_leading_of, inline_extent as inline_extent_of};
ghost use Rattle.layout_semantics.specs.Fonts.{line_height as line_height_of, ascent as ascent_of, descent as descent_of};
ghost use Rattle.lay_line.specs.Readings.{line_extent_at};
ghost use Rattle.lay_line.specs.Fits.{LeadingFits, InlineFits};
ghost use Rattle.viz_calc.specs.State.{AllSmall};

use crate::extents::LineExtent;
use lay_length::fonts::{ascent, descent, line_height};
use viz_base::BoxTree;
use viz_calc::Steady;

/// What the line height has over ascent and descent.
fn leading<S: Steady>(calc: &mut S, tree: &BoxTree, node: u32) -> S::Num
    ensures { Lays S.run calc.old calc.new (S.at result)
        (λ e. line_height_of tree.now e.world node -ℤ
        (ascent_of tree.now e.world node +ℤ descent_of tree.now e.world node))
        (λ e. LeadingFits tree.now e.world node) }
{
    let whole = line_height(calc, tree, node);
    let above = ascent(calc, tree, node);
    let below = descent(calc, tree, node);
    let content = calc.add(&above, &below);
    calc.sub(&whole, &content)
}

/// The half of a number, rounded down.
pub fn half<S: Steady>(calc: &mut S, whole: &S::Num) -> S::Num
    ensures { Lays S.run calc.old calc.new (S.at result) (λ e. floor_of (S.at whole.now e) 2)
        (λ e. AllSmall (floor_of (S.at whole.now e) 2 ∷ [])) }
{
    calc.scale_floor(whole, 1, 2)
}

/// Half the leading, rounded down.
fn half_leading<S: Steady>(calc: &mut S, tree: &BoxTree, node: u32) -> S::Num
    ensures { Lays S.run calc.old calc.new (S.at result)
        (λ e. half_leading_of tree.now e.world node)
        (λ e. LeadingFits tree.now e.world node
        × AllSmall (half_leading_of tree.now e.world node ∷ [])) }
{
    let leading = leading(calc, tree, node);
    half(calc, &leading)
}

#[tactic(auto, unfolding(crate::specs::Fits::InlineFits))]
/// An inline box of a node: its line height, half the leading being above its ascent.
pub fn inline_extent<S: Steady>(calc: &mut S, tree: &BoxTree, node: u32) -> LineExtent<S::Num>
    ensures { Lays S.run calc.old calc.new (line_extent_at S.at result)
        (λ e. inline_extent_of tree.now e.world node) (λ e. InlineFits tree.now e.world node) }
{
    let ascent = ascent(calc, tree, node);
    let half = half_leading(calc, tree, node);
    let above = calc.add(&ascent, &half);
    let whole = line_height(calc, tree, node);
    let below = calc.sub(&whole, &above);
    LineExtent { above, below }
}
