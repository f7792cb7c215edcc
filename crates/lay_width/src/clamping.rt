//! Minimum and maximum widths (CSS 2.1, 10.4).
ghost use Rattle.std.specs.Prelude.{pos, None, unwrap_or, ⊤};
ghost use Rattle.viz_base.specs.declared.styles.Style.{Style as StyleOf};
ghost use Rattle.viz_calc.specs.Run.{Lays};
ghost use Rattle.layout_semantics.specs.Lengths.{own};
ghost use Rattle.layout_semantics.specs.Lengths.{used_unless_auto as unless_auto, used_if_absolute as if_absolute};
ghost use Rattle.layout_laws.specs.Terms.{own_minimum};
ghost use Rattle.layout_laws.specs.Terms.{own_maximum as maximum_of};
ghost use Rattle.lay_width.specs.Readings.{option_at};
ghost use Rattle.lay_width.specs.Fitting.{UsedFits, MostFits, ClampFits};
ghost use Rattle.lay_width.specs.steps.Terms.{above as above_of, below as below_of, again as again_of};

use lay_length::fonts::size_part;
use lay_length::lengths::{pixels, used};
use lay_tree::styles::{max_width, min_width};
use viz_base::{BoxTree, Length};
use viz_calc::Steady;

/// A length in a containing block of width `cb`, unless it is `auto`.
pub fn used_unless_auto<S: Steady>(
    calc: &mut S,
    tree: &BoxTree,
    length: &Length,
    cb: &S::Num,
) -> Option<S::Num>
    ensures { Lays S.run calc.old calc.new (option_at S.at result)
        (λ e. unless_auto tree.now e.world length.now (S.at cb.now e))
        (λ e. UsedFits tree.now e.world length.now (S.at cb.now e)) }
{
    match length {
        Length::Auto => None,
        Length::Px(_) | Length::Em { .. } | Length::Pct(_) => Some(used(calc, tree, length, cb)),
    }
}

/// A length, unless it is `auto` or a percentage.
pub fn used_if_absolute<S: Steady>(calc: &mut S, tree: &BoxTree, length: &Length) -> Option<S::Num>
    ensures { Lays S.run calc.old calc.new (option_at S.at result)
        (λ e. if_absolute tree.now e.world length.now)
        (λ e. UsedFits tree.now e.world length.now (pos 0)) }
{
    match length {
        Length::Px(units) => Some(pixels(calc, *units)),
        Length::Em { k, node } => Some(size_part(calc, tree, *node, *k, 1_000_000)),
        Length::Auto | Length::Pct(_) => None,
    }
}

/// The maximum width of a box, where it has one; percentages are of `cb`.
pub fn own_maximum<S: Steady>(calc: &mut S, tree: &BoxTree, b: u32, cb: &S::Num) -> Option<S::Num>
    ensures { Lays S.run calc.old calc.new (option_at S.at result)
        (λ e. maximum_of tree.now e.world b (S.at cb.now e))
        (λ e. MostFits tree.now e.world (own tree.now b (λ (s : StyleOf). s.max_width) None)
        (S.at cb.now e)) }
{
    match max_width(tree, b) {
        Some(most) => used_unless_auto(calc, tree, &most, cb),
        None => None,
    }
}

/// The maximum, where the width is more.
pub fn above<S: Steady>(calc: &mut S, most: Option<S::Num>, width: &S::Num) -> Option<S::Num>
    ensures { Lays S.run calc.old calc.new (option_at S.at result)
        (λ e. above_of (option_at S.at most e) (S.at width.now e)) (λ e. ⊤) }
{
    match most {
        Some(most) => {
            if calc.le(width, &most) {
                None
            } else {
                Some(most)
            }
        }
        None => None,
    }
}

/// The minimum, where what the maximum leaves of the width is less, or that.
pub fn below<S: Steady>(
    calc: &mut S,
    least: S::Num,
    width: &S::Num,
    most: Option<S::Num>,
) -> Option<S::Num>
    ensures { Lays S.run calc.old calc.new (option_at S.at result)
        (λ e. below_of (S.at least e) (S.at width.now e) (option_at S.at most e)) (λ e. ⊤) }
{
    match most {
        Some(most) => {
            if calc.le(&least, &most) {
                Some(most)
            } else {
                Some(least)
            }
        }
        None => {
            if calc.le(&least, width) {
                None
            } else {
                Some(least)
            }
        }
    }
}

/// The width that the terms of a box are to be computed with again, where this one is above its maximum, or
/// then below its minimum.
pub fn again<S: Steady>(
    calc: &mut S,
    tree: &BoxTree,
    b: u32,
    cb: &S::Num,
    width: &S::Num,
) -> Option<S::Num>
    ensures { Lays S.run calc.old calc.new (option_at S.at result)
        (λ e. again_of (maximum_of tree.now e.world b (S.at cb.now e))
        (own_minimum tree.now e.world b (S.at cb.now e)) (S.at width.now e))
        (λ e. ClampFits tree.now e.world b (S.at cb.now e)) }
{
    let most = own_maximum(calc, tree, b, cb);
    let most = above(calc, most, width);
    let least = used(calc, tree, &min_width(tree, b), cb);
    below(calc, least, width, most)
}

/// A width after the maximum and the minimum of a box.
pub fn clamped<S: Steady>(
    calc: &mut S,
    tree: &BoxTree,
    b: u32,
    cb: &S::Num,
    width: S::Num,
) -> S::Num
    ensures { Lays S.run calc.old calc.new (S.at result)
        (λ e. unwrap_or (again_of (maximum_of tree.now e.world b (S.at cb.now e))
        (own_minimum tree.now e.world b (S.at cb.now e)) (S.at width e)) (S.at width e))
        (λ e. ClampFits tree.now e.world b (S.at cb.now e)) }
{
    match again(calc, tree, b, cb, &width) {
        Some(other) => other,
        None => width,
    }
}
