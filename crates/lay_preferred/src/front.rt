//! The public call over any `Calc`, its engine within a `Latch`.
ghost use Rattle.std.specs.Prelude.{◌≡◌, ◌<◌, length, IfOk, IfErr};
ghost use Rattle.viz_calc.specs.State.{Grows, AreOpen, CauseButMem, WhereOpen};
ghost use Rattle.layout_semantics.specs.Preferred.{preferred as preferred_of};
ghost use Rattle.lay_width.specs.Readings.{preferred_at};
ghost use Rattle.lay_preferred.specs.Fitting.{AreSmallBoxes};

use crate::engine;
use crate::found::nothing_found;
use viz_base::{BoxTree, Preferred};
use viz_calc::{Calc, Halt, Latch};

/// The preferred minimum width and the preferred width of what is in a box, in 1/64 px (CSS 2.1, 10.3.5).
///
/// `Mem` for want of memory, `Open` where a comparison is left open, and `Coeff` where a coefficient passes its limit:
/// on a page whose boxes are small by themselves only where the calc counts such a fault.
pub fn preferred<C: Calc>(calc: &mut C, tree: &BoxTree, b: u32) -> Result<Preferred<C::Num>, Halt>
    requires { b < length tree.now.boxes }
    ensures grows { Grows (C.state calc.old) (C.state calc.new) }
    ensures value { IfOk result (λ r. WhereOpen (C.state calc.new).is_open
        (λ e. preferred_at C.at r e ≡ preferred_of tree.now e.world b)) }
    ensures kept { AreOpen (C.state calc.old).kept (C.state calc.new) }
    ensures cause { IfErr result (CauseButMem (C.state calc.old) (C.state calc.new)
        (AreSmallBoxes tree.now (C.state calc.old).is_open)) }
{
    let mut latch = Latch::new(calc);
    let mut found = nothing_found(&mut latch, tree);
    let widths = engine::preferred(&mut latch, tree, b, &mut found);
    latch.finish(widths)
}
