//! The public calls over any `Calc`, each its engine within a `Latch`.
ghost use Rattle.std.specs.Prelude.{◌≡◌, IfOk, IfErr};
ghost use Rattle.viz_calc.specs.State.{Grows, AreOpen, Cause, WhereOpen};
ghost use Rattle.layout_semantics.specs.Horizontal.{placing_of};
ghost use Rattle.layout_semantics.specs.Horizontal.{widths as widths_of};
ghost use Rattle.lay_width.specs.Readings.{widths_at, preferred_at, AreItsOwn};
ghost use Rattle.lay_width.specs.Fitting.{in_block, WidthsFit};

use crate::engine;
use viz_base::{BoxTree, Preferred, Widths};
use viz_calc::{Calc, Halt, Latch};

/// The used widths and horizontal margins of a box, in 1/64 px, in a containing block of width `cb` (CSS 2.1, 10.3,
/// 10.4). These are its preferred widths, where it is a float or an inline-block; else they do not matter.
///
/// `Coeff` where a coefficient passes its limit; `Mem` and `Open` as the calc gives them.
pub fn widths<C: Calc>(
    calc: &mut C,
    tree: &BoxTree,
    b: u32,
    cb: &C::Num,
    preferred: &Preferred<C::Num>,
) -> Result<Widths<C::Num>, Halt>
    ensures grows { Grows (C.state calc.old) (C.state calc.new) }
    ensures value { IfOk result (λ r. WhereOpen (C.state calc.new).is_open
        (λ e. AreItsOwn tree.now e.world b (preferred_at C.at preferred.now e)
        → widths_at C.at r e ≡ widths_of tree.now e.world b (C.at cb.now e))) }
    ensures kept { AreOpen (C.state calc.old).kept (C.state calc.new) }
    ensures cause { IfErr result (Cause (C.state calc.old) (C.state calc.new)
        (WhereOpen (C.state calc.old).is_open
        (λ e. WidthsFit (in_block tree.now e.world b (C.at cb.now e)) (placing_of tree.now b)
        (preferred_at C.at preferred.now e)))) }
{
    let mut latch = Latch::new(calc);
    let widths = engine::widths(&mut latch, tree, b, cb, preferred);
    latch.finish(widths)
}
