//! The preferred widths of a block container of blocks, child by child (CSS 2.1, 10.3.5).
ghost use Rattle.std.specs.Prelude.{◌≡◌, ℤ, [], ◌∷◌, ⊤};
ghost use Rattle.viz_calc.specs.World.{Reading};
ghost use Rattle.viz_calc.specs.State.{AllSmall};
ghost use Rattle.viz_calc.specs.Run.{Lays};
ghost use Rattle.lay_width.specs.Readings.{preferred_at, option_at};
ghost use Rattle.lay_preferred.specs.Readings.{column_at};
ghost use Rattle.lay_preferred.specs.steps.Columns.{no_children as none_of, beside as beside_of, with_in_flow as in_flow_of, with_float as float_of, with_child as child_of, whole as whole_of};

use crate::extremes::{larger, or_zero};
use lay_length::lengths::zero;
use viz_base::Preferred;
use viz_calc::{Steady, greater};

/// The greatest widths of children so far, in units of 1/64 px.
#[derive(Drop)]
pub struct Column<N> {
    /// The greatest preferred minimum width.
    pub least: Option<N>,
    /// The greatest preferred width of a child in normal flow, or of floats that follow one another.
    pub most: Option<N>,
    /// The greatest width of floats that follow one another up to here, where the last child is one.
    pub floats: Option<N>,
}

/// None.
pub fn no_children<N>() -> Column<N>
    ensures { (at : N → Reading → ℤ) (e : Reading) → column_at at result e ≡ none_of }
{
    Column {
        least: None,
        most: None,
        floats: None,
    }
}

/// The greatest width of floats that follow one another up to this one.
fn beside<S: Steady>(calc: &mut S, floats: Option<S::Num>, width: S::Num) -> S::Num
    ensures { Lays S.run calc.old calc.new (S.at result)
        (λ e. beside_of (option_at S.at floats e) (S.at width e))
        (λ e. AllSmall (beside_of (option_at S.at floats e) (S.at width e) ∷ [])) }
{
    match floats {
        Some(floats) => {
            let none = zero(calc);
            let before = greater(calc, none, floats);
            calc.add(&before, &width)
        }
        None => width,
    }
}

#[tactic(auto, unfolding(crate::specs::steps::Columns::with_in_flow))]
/// With a child in normal flow more.
fn with_in_flow<S: Steady>(
    calc: &mut S,
    column: Column<S::Num>,
    child: Preferred<S::Num>,
) -> Column<S::Num>
    ensures { Lays S.run calc.old calc.new (column_at S.at result)
        (λ e. in_flow_of (column_at S.at column e) (preferred_at S.at child e)) (λ e. ⊤) }
{
    let least = larger(calc, column.least, child.least);
    let most = larger(calc, column.most, child.most);
    Column {
        least: Some(least),
        most: Some(most),
        floats: None,
    }
}

#[tactic(auto, unfolding(crate::specs::steps::Columns::with_float))]
/// With a float more.
fn with_float<S: Steady>(
    calc: &mut S,
    column: Column<S::Num>,
    child: Preferred<S::Num>,
) -> Column<S::Num>
    ensures { Lays S.run calc.old calc.new (column_at S.at result)
        (λ e. float_of (column_at S.at column e) (preferred_at S.at child e))
        (λ e. AllSmall (beside_of (option_at S.at column.floats e) (S.at child.most e) ∷ [])) }
{
    let least = larger(calc, column.least, child.least);
    let floats = beside(calc, column.floats, child.most);
    let whole = calc.copy(&floats);
    let most = larger(calc, column.most, whole);
    Column {
        least: Some(least),
        most: Some(most),
        floats: Some(floats),
    }
}

/// With a child more of these outer widths.
pub fn with_child<S: Steady>(
    calc: &mut S,
    column: Column<S::Num>,
    floats: bool,
    child: Preferred<S::Num>,
) -> Column<S::Num>
    ensures { Lays S.run calc.old calc.new (column_at S.at result)
        (λ e. child_of (column_at S.at column e) floats (preferred_at S.at child e))
        (λ e. AllSmall (beside_of (option_at S.at column.floats e) (S.at child.most e) ∷ [])) }
{
    if floats {
        with_float(calc, column, child)
    } else {
        with_in_flow(calc, column, child)
    }
}

/// The preferred widths of the whole.
pub fn whole<S: Steady>(calc: &mut S, column: Column<S::Num>) -> Preferred<S::Num>
    ensures { Lays S.run calc.old calc.new (preferred_at S.at result)
        (λ e. whole_of (column_at S.at column e)) (λ e. ⊤) }
{
    let least = or_zero(calc, column.least);
    let most = or_zero(calc, column.most);
    Preferred { least, most }
}
