//! The public calls on a list of floats over any `Calc`, each its engine within a `Latch` (CSS 2.1, 9.5).
ghost use Rattle.std.specs.Prelude.{◌≡◌, ◌∷◌, [], ◌++◌, IsTrue, IfOk, IfErr, OnErr, is_some};
ghost use Rattle.std.specs.List.{list_any};
ghost use Rattle.viz_calc.specs.World.{Reading};
ghost use Rattle.viz_calc.specs.State.{Grows, AreOpen, CauseButMem, Cause, WhereOpen};
ghost use Rattle.viz_calc.specs.Renderings.{spot_at, band_at as stretch_at};
ghost use Rattle.layout_semantics.specs.Floats.{placed_float, float_at, band_at, is_relevant, lowest_bottom};
ghost use Rattle.lay_float.specs.Agreement.{Agree};
ghost use Rattle.lay_float.specs.Limits.{AreHalf};
ghost use Rattle.lay_float.specs.Places.{IsHighest};
ghost use Rattle.lay_float.specs.Readings.{floats_at, extent_at, option_at};

use crate::engine;
use crate::floats::Floats;
use viz_base::{Band, Clear, Extent, Side, Spot};
use viz_calc::{Calc, Halt, Latch};

impl<N: Drop> Floats<N> {
    /// An equal list. `Mem` for want of memory, and `Coeff` where a coefficient passes its limit.
    pub fn copy<C: Calc<Num = N>>(&self, calc: &mut C) -> Result<Floats<N>, Halt>
        ensures grows { Grows (C.state calc.old) (C.state calc.new) }
        ensures value { IfOk result (λ r. WhereOpen (C.state calc.new).is_open
            (λ e. floats_at C.at r e ≡ floats_at C.at self.now e)) }
        ensures kept { AreOpen (C.state calc.old).kept (C.state calc.new) }
        ensures cause { IfErr result (CauseButMem (C.state calc.old) (C.state calc.new)
            (WhereOpen (C.state calc.old).is_open (λ e. AreHalf (floats_at C.at self.now e) []))) }
        ensures agrees { IfOk result (λ r. Agree C.at (C.state calc.new).is_open r) }
    {
        let mut latch = Latch::new(calc);
        let copied = engine::copy(self.placed.allocator(), &mut latch, self.placed.as_slice());
        latch.finish(copied)
    }

    /// Places a float with its top not above `top` after those that were placed before, and gives its place:
    /// the highest that the rules allow, and then the farthest to its side (CSS 2.1, 9.5.1). After a halt the
    /// list is as it was. Errors as those of `copy`, and `Open` where a comparison is left open.
    pub fn place<C: Calc<Num = N>>(
        &mut self,
        calc: &mut C,
        side: Side,
        size: &Extent<N>,
        cb: &Band<N>,
        top: &N,
    ) -> Result<Spot<N>, Halt>
        requires { Agree C.at (C.state calc.old).is_open self.old }
        ensures grows { Grows (C.state calc.old) (C.state calc.new) }
        ensures value { IfOk result (λ r. WhereOpen (C.state calc.new).is_open
            (λ e. spot_at C.at r e ≡ float_at (floats_at C.at self.old e) side
            (extent_at C.at size.now e) (stretch_at C.at cb.now e) (C.at top.now e))) }
        ensures highest { IfOk result (λ r. WhereOpen (C.state calc.new).is_open
            (λ e. IsHighest (floats_at C.at self.old e) side (C.at size.now.width e)
            (stretch_at C.at cb.now e) (C.at top.now e) (spot_at C.at r e))) }
        ensures appended { IfOk result
            (λ r. WhereOpen (C.state calc.new).is_open
            (λ e. floats_at C.at self.new e
            ≡ floats_at C.at self.old e ++ placed_float side (extent_at C.at size.now e)
            (spot_at C.at r e) ∷ [])) }
        ensures halted { OnErr result (self.new ≡ self.old) }
        ensures kept { AreOpen (C.state calc.old).kept (C.state calc.new) }
        ensures cause { IfErr result (CauseButMem (C.state calc.old) (C.state calc.new)
            (WhereOpen (C.state calc.old).is_open
            (λ e. AreHalf (floats_at C.at self.old e)
            (C.at size.now.width e ∷ C.at size.now.height e ∷ C.at cb.now.left e
            ∷ C.at cb.now.right e ∷ C.at top.now e ∷ [])))) }
        ensures agrees { Agree C.at (C.state calc.new).is_open self.new }
    {
        let mut latch = Latch::new(calc);
        let spot = engine::place(&mut latch, self, side, size, cb, top);
        latch.finish(spot)
    }

    /// What the floats leave of a containing block in the span of height `h` from `y` on; it may end before it
    /// begins (CSS 2.1, 9.5). Errors as those of `place`, `Mem` only from the calc.
    pub fn band<C: Calc<Num = N>>(
        &self,
        calc: &mut C,
        cb: &Band<N>,
        y: &N,
        h: &N,
    ) -> Result<Band<N>, Halt>
        ensures grows { Grows (C.state calc.old) (C.state calc.new) }
        ensures value { IfOk result (λ r. WhereOpen (C.state calc.new).is_open
            (λ e. stretch_at C.at r e ≡ band_at (floats_at C.at self.now e)
            (stretch_at C.at cb.now e) (C.at y.now e) (C.at h.now e))) }
        ensures kept { AreOpen (C.state calc.old).kept (C.state calc.new) }
        ensures cause { IfErr result (Cause (C.state calc.old) (C.state calc.new)
            (WhereOpen (C.state calc.old).is_open
            (λ e. AreHalf (floats_at C.at self.now e)
            (C.at cb.now.left e ∷ C.at cb.now.right e ∷ C.at y.now e ∷ C.at h.now e ∷ [])))) }
    {
        let mut latch = Latch::new(calc);
        let band = engine::band(&mut latch, self.placed.as_slice(), cb, y, h);
        latch.finish(band)
    }

    /// The lowest outer bottom of the floats that `clear` looks at; none exactly where it looks at none (CSS
    /// 2.1, 9.5.2). Errors as those of `band`.
    pub fn bottom<C: Calc<Num = N>>(&self, calc: &mut C, clear: Clear) -> Result<Option<N>, Halt>
        ensures grows { Grows (C.state calc.old) (C.state calc.new) }
        ensures value { IfOk result (λ r. WhereOpen (C.state calc.new).is_open
            (λ e. option_at C.at r e ≡ lowest_bottom clear (floats_at C.at self.now e))) }
        ensures some { IfOk result (λ r. (e : Reading) → is_some r
            ≡ list_any (is_relevant clear) (floats_at C.at self.now e)) }
        ensures kept { AreOpen (C.state calc.old).kept (C.state calc.new) }
        ensures cause { IfErr result (Cause (C.state calc.old) (C.state calc.new)
            (WhereOpen (C.state calc.old).is_open (λ e. AreHalf (floats_at C.at self.now e) []))) }
    {
        let mut latch = Latch::new(calc);
        let bottom = engine::bottom(&mut latch, self.placed.as_slice(), clear);
        latch.finish(bottom)
    }
}
