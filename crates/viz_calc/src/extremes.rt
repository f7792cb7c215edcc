//! The greater and the lesser of two numbers.
ghost use Rattle.std.specs.Prelude.{⊤};
ghost use Rattle.std.specs.Int.{int_max, int_min};
ghost use Rattle.viz_calc.specs.Run.{Lays};

use crate::Steady;

/// The lesser of two numbers.
pub fn lesser<S: Steady>(calc: &mut S, a: S::Num, b: S::Num) -> S::Num
    ensures { Lays S.run calc.old calc.new (S.at result) (λ e. int_min (S.at a e) (S.at b e))
        (λ e. ⊤) }
{
    if calc.le(&a, &b) { a } else { b }
}

/// The greater of two numbers.
pub fn greater<S: Steady>(calc: &mut S, a: S::Num, b: S::Num) -> S::Num
    ensures { Lays S.run calc.old calc.new (S.at result) (λ e. int_max (S.at a e) (S.at b e))
        (λ e. ⊤) }
{
    if calc.le(&b, &a) { a } else { b }
}

/// The lesser of two numbers that others own.
pub fn smaller<'a, S: Steady>(calc: &mut S, a: &'a S::Num, b: &'a S::Num) -> &'a S::Num
    ensures { Lays S.run calc.old calc.new (S.at result.now)
        (λ e. int_min (S.at a.now e) (S.at b.now e)) (λ e. ⊤) }
{
    if calc.le(a, b) { a } else { b }
}

/// The greater of two numbers that others own.
pub fn larger<'a, S: Steady>(calc: &mut S, a: &'a S::Num, b: &'a S::Num) -> &'a S::Num
    ensures { Lays S.run calc.old calc.new (S.at result.now)
        (λ e. int_max (S.at a.now e) (S.at b.now e)) (λ e. ⊤) }
{
    if calc.le(a, b) { b } else { a }
}
