//! Runs of margins over any arithmetic that goes on after a halt.
ghost use Rattle.std.specs.Prelude.{◌≡◌, ℤ, pos, List, [], ◌∷◌};
ghost use Rattle.viz_calc.specs.State.{AllSmall, WhereOpen};
ghost use Rattle.viz_calc.specs.Run.{Stands, Goes, Fits, Blames, Lays};
ghost use Rattle.layout_semantics.specs.Margins.{collapsed};
ghost use Rattle.lay_margin.specs.Runs.{run_at, no_run, IsRunOf, with_margin, collapse, joined_way, value_way};

use crate::Run;
use viz_calc::{Steady, larger, smaller};

/// The number 0.
fn zero<S: Steady>(calc: &mut S) -> S::Num
    ensures { Lays S.run calc.old calc.new (S.at result) (λ e. pos 0) (λ e. AllSmall (pos 0 ∷ [])) }
{
    calc.lit(0)
}

/// The run of no margins.
pub fn empty<S: Steady>(calc: &mut S) -> Run<S::Num>
    ensures goes { Goes (S.run calc.old) (S.run calc.new) }
    ensures exact { WhereOpen (S.run calc.new).is_open (λ e. run_at S.at result e ≡ no_run) }
    ensures value { WhereOpen (S.run calc.new).is_open (λ e. IsRunOf (run_at S.at result e) []) }
    ensures cause { Blames (S.run calc.old) (S.run calc.new) (Fits (S.run calc.old)
        (λ e. pos 0 ∷ [])) }
{
    let pos = zero(calc);
    let neg = zero(calc);
    Run { pos, neg }
}

/// The run with one margin more.
pub fn joined<S: Steady>(calc: &mut S, run: &Run<S::Num>, margin: &S::Num) -> Run<S::Num>
    ensures goes { Goes (S.run calc.old) (S.run calc.new) }
    ensures exact { WhereOpen (S.run calc.new).is_open
        (λ e. run_at S.at result e ≡ with_margin (run_at S.at run.now e) (S.at margin.now e)) }
    ensures value { WhereOpen (S.run calc.new).is_open (λ e. (margins : List ℤ)
        → IsRunOf (run_at S.at run.now e) margins
        → IsRunOf (run_at S.at result e) (S.at margin.now e ∷ margins)) }
    ensures cause { Blames (S.run calc.old) (S.run calc.new)
        (Fits (S.run calc.old) (λ e. joined_way (run_at S.at run.now e) (S.at margin.now e))) }
{
    let pos = larger(calc, &run.pos, margin);
    let pos = calc.copy(pos);
    let neg = smaller(calc, &run.neg, margin);
    let neg = calc.copy(neg);
    Run { pos, neg }
}

/// The margin that a run's margins collapse to.
pub fn value<S: Steady>(calc: &mut S, run: &Run<S::Num>) -> S::Num
    ensures goes { Goes (S.run calc.old) (S.run calc.new) }
    ensures exact { Stands (S.run calc.new) (S.at result) (λ e. collapse (run_at S.at run.now e)) }
    ensures value { WhereOpen (S.run calc.new).is_open (λ e. (margins : List ℤ)
        → IsRunOf (run_at S.at run.now e) margins → S.at result e ≡ collapsed margins) }
    ensures cause { Blames (S.run calc.old) (S.run calc.new) (Fits (S.run calc.old)
        (λ e. value_way (run_at S.at run.now e))) }
{
    calc.add(&run.pos, &run.neg)
}
