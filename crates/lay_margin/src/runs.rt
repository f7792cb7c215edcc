ghost use Rattle.std.specs.Prelude.{◌≡◌, ℤ, pos, List, [], ◌∷◌, IfOk, IfErr};
ghost use Rattle.viz_calc.specs.State.{Grows, AreOpen, Fits, Cause, WhereOpen};
ghost use Rattle.layout_semantics.specs.Margins.{collapsed};
ghost use Rattle.lay_margin.specs.Runs.{run_at, IsRunOf, joined_way, value_way};

use crate::engine;
use viz_calc::{Calc, Halt, Latch};

/// Margins that adjoin, in 1/64 px: the greatest of them and of 0, and the least (CSS 2.1, 8.3.1).
#[derive(Drop)]
pub struct Run<N> {
    /// The greatest of 0 and the margins.
    pub pos: N,
    /// The least of 0 and the margins.
    pub neg: N,
}

impl<N: Drop> Run<N> {
    /// The run of no margins. `Coeff` where a coefficient passes its limit; `Mem` and `Open` as the calc gives them.
    pub fn empty<C: Calc<Num = N>>(calc: &mut C) -> Result<Self, Halt>
        ensures grows { Grows (C.state calc.old) (C.state calc.new) }
        ensures value { IfOk result (λ r. WhereOpen (C.state calc.new).is_open
            (λ e. IsRunOf (run_at C.at r e) [])) }
        ensures kept { AreOpen (C.state calc.old).kept (C.state calc.new) }
        ensures cause { IfErr result (Cause (C.state calc.old) (C.state calc.new)
            (Fits (C.state calc.old) (λ e. pos 0 ∷ []))) }
    {
        let mut latch = Latch::new(calc);
        let run = engine::empty(&mut latch);
        latch.finish(run)
    }

    /// Joins a margin. Errors as those of `empty`; the run is then as before.
    pub fn join<C: Calc<Num = N>>(&mut self, calc: &mut C, margin: &N) -> Result<(), Halt>
        ensures grows { Grows (C.state calc.old) (C.state calc.new) }
        ensures value { IfOk result (λ _. WhereOpen (C.state calc.new).is_open
            (λ e. (margins : List ℤ) → IsRunOf (run_at C.at self.old e) margins
            → IsRunOf (run_at C.at self.new e) (C.at margin.now e ∷ margins))) }
        ensures unchanged { IfErr result (λ _. self.new ≡ self.old) }
        ensures kept { AreOpen (C.state calc.old).kept (C.state calc.new) }
        ensures cause { IfErr result (Cause (C.state calc.old) (C.state calc.new)
            (Fits (C.state calc.old) (λ e. joined_way (run_at C.at self.old e)
            (C.at margin.now e)))) }
    {
        let mut latch = Latch::new(calc);
        let run = engine::joined(&mut latch, self, margin);
        *self = latch.finish(run)?;
        Ok(())
    }

    /// The margin that the margins collapse to. Errors as those of `empty`.
    pub fn value<C: Calc<Num = N>>(&self, calc: &mut C) -> Result<N, Halt>
        ensures grows { Grows (C.state calc.old) (C.state calc.new) }
        ensures value { IfOk result (λ r. WhereOpen (C.state calc.new).is_open
            (λ e. (margins : List ℤ) → IsRunOf (run_at C.at self.now e) margins
            → C.at r e ≡ collapsed margins)) }
        ensures kept { AreOpen (C.state calc.old).kept (C.state calc.new) }
        ensures cause { IfErr result (Cause (C.state calc.old) (C.state calc.new)
            (Fits (C.state calc.old) (λ e. value_way (run_at C.at self.now e)))) }
    {
        let mut latch = Latch::new(calc);
        let value = engine::value(&mut latch, self);
        latch.finish(value)
    }
}
