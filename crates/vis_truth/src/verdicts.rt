ghost use Rattle.std.specs.Prelude.{◌≡◌, Some, IsTrue, IfOk, IfErr};
ghost use Rattle.viz_calc.specs.State.{Grows, AreOpen, Cause, is_told, WhereOpen};
ghost use Rattle.logic_semantics.specs.Truth.{truth, truth_in};
ghost use Rattle.vis_truth.specs.Names.{places_of};
ghost use Rattle.vis_truth.specs.Scenes.{scene_at, IsTame};

use crate::engine;
use crate::names::Names;
use viz_base::{Formula, Rendering};
use viz_calc::{Calc, Halt, Latch};

/// Whether a formula is true of a rendering.
///
/// It takes no memory of its own. `Halt::Coeff` comes only where the calc's count of such faults rose, if the boxes'
/// edges are at most 2^70 in size and the formula's terms are small; `Halt::Open` only where the calc's own count rose.
pub fn truth<C: Calc>(calc: &mut C, f: &Formula, r: &Rendering<C::Num>) -> Result<bool, Halt>
    ensures grows { Grows (C.state calc.old) (C.state calc.new) }
    ensures value { IfOk result (λ yes. WhereOpen (C.state calc.new).is_open
        (λ e. yes ≡ truth (scene_at C.at r.now e) f.now)) }
    ensures kept { AreOpen (C.state calc.old).kept (C.state calc.new) }
    ensures cause { IfErr result (Cause (C.state calc.old) (C.state calc.new)
        (IsTame (C.state calc.old).is_open C.at r.now f.now)) }
    ensures told { IfErr result (λ halt. IsTrue (is_told C.counts (C.state calc.new) (Some halt))) }
{
    let mut latch = Latch::new(calc);
    let whole = engine::truth(&mut latch, f, r);
    latch.finish(whole)
}

/// The same for a part of a formula, where the names around it stand for these places.
pub fn truth_in<C: Calc>(
    calc: &mut C,
    f: &Formula,
    r: &Rendering<C::Num>,
    names: &Names<'_>,
) -> Result<bool, Halt>
    ensures grows { Grows (C.state calc.old) (C.state calc.new) }
    ensures value { IfOk result (λ yes. WhereOpen (C.state calc.new).is_open
        (λ e. yes ≡ truth_in (scene_at C.at r.now e) f.now (places_of names.now))) }
    ensures kept { AreOpen (C.state calc.old).kept (C.state calc.new) }
    ensures cause { IfErr result (Cause (C.state calc.old) (C.state calc.new)
        (IsTame (C.state calc.old).is_open C.at r.now f.now)) }
{
    let mut latch = Latch::new(calc);
    let yes = engine::holds(&mut latch, f, r, names);
    latch.finish(yes)
}
