//! The public call, by a calc that may halt, its engine within a `Latch`. Outside cases alone ask it: the layout goes
//! by the engine.
ghost use Rattle.std.specs.Prelude.{◌≡◌, ◌<◌, [], length, IsTrue, IfOk, IfErr, OnErr};
ghost use Rattle.viz_calc.specs.World.{Reading};
ghost use Rattle.viz_calc.specs.State.{Grows, AreOpen, CauseButMem};
ghost use Rattle.layout_semantics.specs.Lines.{lines_in};
ghost use Rattle.lay_float.specs.Agreement.{Agree};
ghost use Rattle.lay_float.specs.Readings.{floats_at};
ghost use Rattle.lay_line.specs.Contexts.{context_at};
ghost use Rattle.lay_line.specs.LinesFit.{LinesFit};
ghost use Rattle.lay_line.specs.Lining.{laid_at, list_at};

use crate::containers::Container;
use crate::lining::{self, Laid};
use lay_float::Floats;
use viz_base::Lines;
use viz_calc::{Calc, Halt, Latch};

/// The lines of a block container, and the floats of its context behind them.
fn laid<C: Calc>(
    calc: &mut C,
    container: &Container<'_, C::Num>,
    y: &C::Num,
    least: &C::Num,
    floats: Floats<C::Num>,
) -> Result<Laid<C::Num>, Halt>
    requires { container.now.at < length container.now.tree.now.boxes }
    ensures grows { Grows (C.state calc.old) (C.state calc.new) }
    ensures value { IfOk result (λ r. (e : Reading) → IsTrue ((C.state calc.new).is_open e) → laid_at C.at r e
        ≡ lines_in (context_at C.at container.now e) (C.at y.now e) (C.at least.now e) (floats_at C.at floats e)) }
    ensures kept { AreOpen (C.state calc.old).kept (C.state calc.new) }
    ensures cause { IfErr result (CauseButMem (C.state calc.old) (C.state calc.new) ((e : Reading)
        → IsTrue ((C.state calc.old).is_open e) → LinesFit (context_at C.at container.now e) (C.at y.now e)
        (C.at least.now e) (floats_at C.at floats e))) }
{
    let mut latch = Latch::new(calc);
    let laid = lining::lines(&mut latch, container, y, least, floats);
    latch.finish(laid)
}

/// The lines of a block container that holds inline content, from y on, in 1/64 px: their entries in order, the bottom
/// and the baseline of the last one. Their floats are placed after those before, none with its top above `least` (CSS
/// 2.1, 9.4.2, 9.5, 10.8).
///
/// `Mem` for want of memory, `Coeff` where a coefficient passes its limit, and `Open` where a comparison is left open;
/// the list of floats is then without any.
pub fn lines<C: Calc>(
    calc: &mut C,
    container: &Container<'_, C::Num>,
    y: &C::Num,
    least: &C::Num,
    floats: &mut Floats<C::Num>,
) -> Result<Lines<C::Num>, Halt>
    requires { container.now.at < length container.now.tree.now.boxes }
    ensures grows { Grows (C.state calc.old) (C.state calc.new) }
    ensures value { IfOk result (λ r. (e : Reading) → IsTrue ((C.state calc.new).is_open e)
        → list_at C.at r floats.new e ≡ lines_in (context_at C.at container.now e) (C.at y.now e) (C.at least.now e)
        (floats_at C.at floats.old e)) }
    ensures halted { OnErr result (floats.new.placed ≡ []) }
    ensures kept { AreOpen (C.state calc.old).kept (C.state calc.new) }
    ensures cause { IfErr result (CauseButMem (C.state calc.old) (C.state calc.new) ((e : Reading)
        → IsTrue ((C.state calc.old).is_open e) → LinesFit (context_at C.at container.now e) (C.at y.now e)
        (C.at least.now e) (floats_at C.at floats.old e))) }
    ensures agrees { Agree C.at (C.state calc.new).is_open floats.new }
{
    let alloc = container.tree.boxes.allocator();
    let before = std::mem::replace(floats, Floats::new(alloc));
    let laid = laid(calc, container, y, least, before)?;
    // A line may have taken floats back, so nothing is known of them.
    *floats = Floats {
        placed: laid.floats.placed,
        ended: None,
    };
    Ok(laid.lines)
}
