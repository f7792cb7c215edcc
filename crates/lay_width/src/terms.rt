//! The seven horizontal terms of a box (CSS 2.1, 10.3.3).
ghost use Rattle.std.specs.Prelude.{◌≡◌, pos, ◌-ℤ◌, int_le, true, [], ◌∷◌};
ghost use Rattle.std.specs.Int.{int_max};
ghost use Rattle.viz_base.specs.Numbers.{floor_of};
ghost use Rattle.viz_calc.specs.State.{AllSmall};
ghost use Rattle.viz_calc.specs.Run.{Lays};
ghost use Rattle.layout_semantics.specs.Horizontal.{terms_around, sum_of};
ghost use Rattle.layout_semantics.specs.Horizontal.{left_margin as left_margin_of};
ghost use Rattle.lay_width.specs.Readings.{widths_at};
ghost use Rattle.lay_width.specs.Fitting.{EdgesFit, FixedFits, sum_way, room_way, right_way, left_way};
ghost use Rattle.lay_width.specs.steps.Terms.{around, room_between, with_left, fixed_around};

use lay_length::lengths::{used, zero};
use lay_tree::styles::{borders, margins, paddings};
use viz_base::{BoxTree, Widths};
use viz_calc::Steady;

/// The edges of a box around no content, automatic margins being 0; percentages are of `cb`, the width of
/// the containing block (CSS 2.1, 8.3, 8.4).
pub fn edges<S: Steady>(calc: &mut S, tree: &BoxTree, b: u32, cb: &S::Num) -> Widths<S::Num>
    ensures { Lays S.run calc.old calc.new (widths_at S.at result)
        (λ e. terms_around tree.now e.world b (S.at cb.now e) (pos 0))
        (λ e. EdgesFit tree.now e.world b (S.at cb.now e)) }
{
    let margin = margins(tree, b);
    let border = borders(tree, b);
    let padding = paddings(tree, b);
    let margin_left = used(calc, tree, &margin.left, cb);
    let border_left = used(calc, tree, &border.left, cb);
    let padding_left = used(calc, tree, &padding.left, cb);
    let content = zero(calc);
    let padding_right = used(calc, tree, &padding.right, cb);
    let border_right = used(calc, tree, &border.right, cb);
    let margin_right = used(calc, tree, &margin.right, cb);
    Widths {
        margin_left,
        border_left,
        padding_left,
        content,
        padding_right,
        border_right,
        margin_right,
    }
}

/// The edges around so wide a content.
pub fn around<N: Drop>(edges: Widths<N>, content: N) -> Widths<N>
    ensures { result ≡ record edges { content = content } }
{
    Widths { content, ..edges }
}

/// The sum of the seven terms.
pub fn sum<S: Steady>(calc: &mut S, terms: &Widths<S::Num>) -> S::Num
    ensures { Lays S.run calc.old calc.new (S.at result) (λ e. sum_of (widths_at S.at terms.now e))
        (λ e. AllSmall (sum_way (widths_at S.at terms.now e))) }
{
    let right = calc.add(&terms.border_right, &terms.margin_right);
    let right = calc.add(&terms.padding_right, &right);
    let inner = calc.add(&terms.content, &right);
    let inner = calc.add(&terms.padding_left, &inner);
    let inner = calc.add(&terms.border_left, &inner);
    calc.add(&terms.margin_left, &inner)
}

/// The greater of 0 and what `cb` leaves of a sum.
fn left_over<S: Steady>(calc: &mut S, cb: &S::Num, sum: &S::Num) -> S::Num
    ensures { Lays S.run calc.old calc.new (S.at result)
        (λ e. int_max (pos 0) (S.at cb.now e -ℤ S.at sum.now e))
        (λ e. AllSmall (pos 0 ∷ (S.at cb.now e -ℤ S.at sum.now e) ∷ [])) }
{
    let none = zero(calc);
    let rest = calc.sub(cb, sum);
    if calc.le(&none, &rest) { rest } else { none }
}

/// What a containing block of width `cb` leaves between edges, and no less than 0.
pub fn room<S: Steady>(calc: &mut S, edges: &Widths<S::Num>, cb: &S::Num) -> S::Num
    ensures { Lays S.run calc.old calc.new (S.at result)
        (λ e. room_between (widths_at S.at edges.now e) (S.at cb.now e))
        (λ e. AllSmall (sum_way (widths_at S.at edges.now e))
        × AllSmall (room_way (widths_at S.at edges.now e) (S.at cb.now e))) }
{
    let sum = sum(calc, edges);
    left_over(calc, cb, &sum)
}

/// The half of a number, rounded down.
fn half<S: Steady>(calc: &mut S, whole: &S::Num) -> S::Num
    ensures { Lays S.run calc.old calc.new (S.at result) (λ e. floor_of (S.at whole.now e) 2)
        (λ e. AllSmall (floor_of (S.at whole.now e) 2 ∷ [])) }
{
    calc.scale_floor(whole, 1, 2)
}

/// The part of what is left over that an automatic left margin takes: half where the right one is automatic too,
/// else all.
fn share<S: Steady>(calc: &mut S, right_auto: bool, cb: &S::Num, sum: &S::Num) -> S::Num
    ensures { Lays S.run calc.old calc.new (S.at result)
        (λ e. left_margin_of true right_auto true (S.at cb.now e -ℤ S.at sum.now e) (pos 0))
        (λ e. AllSmall ((S.at cb.now e -ℤ S.at sum.now e)
        ∷ floor_of (S.at cb.now e -ℤ S.at sum.now e) 2 ∷ [])) }
{
    let rest = calc.sub(cb, sum);
    if right_auto { half(calc, &rest) } else { rest }
}

/// The left margin of terms of that sum, given as this; where the terms are too wide an automatic one is 0, and
/// that is asked only of an automatic one.
fn left_margin<S: Steady>(
    calc: &mut S,
    left_auto: bool,
    right_auto: bool,
    sum: &S::Num,
    cb: &S::Num,
    given: &S::Num,
) -> S::Num
    ensures { Lays S.run calc.old calc.new (S.at result)
        (λ e. left_margin_of left_auto right_auto (int_le (S.at sum.now e) (S.at cb.now e))
        (S.at cb.now e -ℤ S.at sum.now e) (S.at given.now e))
        (λ e. AllSmall (left_way (S.at sum.now e) (S.at cb.now e) (S.at given.now e))) }
{
    if !left_auto {
        return calc.copy(given);
    }
    if !calc.le(sum, cb) {
        return calc.copy(given);
    }
    share(calc, right_auto, cb, sum)
}

/// The terms with another left margin, and the right margin that makes the sum the containing block's width,
/// where the sum of the terms is this (CSS 2.1, 10.3.3).
fn with_left<S: Steady>(
    calc: &mut S,
    terms: Widths<S::Num>,
    cb: &S::Num,
    sum: &S::Num,
    left: S::Num,
) -> Widths<S::Num>
    ensures { Lays S.run calc.old calc.new (widths_at S.at result)
        (λ e. with_left (widths_at S.at terms e) (S.at cb.now e) (S.at sum.now e) (S.at left e))
        (λ e. AllSmall (right_way (widths_at S.at terms e) (S.at cb.now e) (S.at sum.now e)
        (S.at left e))) }
{
    let inside = calc.sub(sum, &terms.margin_left);
    let inside = calc.sub(&inside, &terms.margin_right);
    let rest = calc.sub(cb, &inside);
    let right = calc.sub(&rest, &left);
    Widths {
        margin_left: left,
        margin_right: right,
        ..terms
    }
}

/// The terms of a block of a fixed width, its margins automatic or not (CSS 2.1, 10.3.3).
pub fn fixed<S: Steady>(
    calc: &mut S,
    left_auto: bool,
    right_auto: bool,
    terms: Widths<S::Num>,
    cb: &S::Num,
) -> Widths<S::Num>
    ensures { Lays S.run calc.old calc.new (widths_at S.at result)
        (λ e. fixed_around left_auto right_auto (widths_at S.at terms e) (S.at cb.now e))
        (λ e. FixedFits left_auto right_auto (widths_at S.at terms e) (S.at cb.now e)) }
{
    let sum = sum(calc, &terms);
    let left = left_margin(calc, left_auto, right_auto, &sum, cb, &terms.margin_left);
    with_left(calc, terms, cb, &sum, left)
}
