//! The public call over any `Calc`, its engine within a `Latch`.
ghost use Rattle.std.specs.Prelude.{◌≡◌, ◌<◌, ℤ, List, ◌++◌, length, IfOk, IfErr};
ghost use Rattle.viz_calc.specs.State.{Grows, AreOpen, AllSmall, CauseButMem, WhereOpen};
ghost use Rattle.viz_calc.specs.Renderings.{band_at};
ghost use Rattle.layout_semantics.specs.Leads.{lead as lead_of};
ghost use Rattle.lay_margin.specs.Readings.{IsLeadAt, passed_by};
ghost use Rattle.lay_margin.specs.Runs.{run_at, IsRunOf};
ghost use Rattle.lay_margin.specs.Fitting.{ends, LeadFits};

use crate::Run;
use crate::leads::whole_lead;
use viz_base::{Band, BoxTree, Lead};
use viz_calc::{Calc, Halt, Latch};

/// Joins the margins that adjoin the top of a box, without its own bottom margin, to a run, in 1/64 px, and gives where
/// they end and which floats wait between them (CSS 2.1, 8.3.1). Boxes up to `past` in document order count as not
/// cleared. After a halt the run is as it was.
///
/// `Mem` for want of memory, `Coeff` where a coefficient passes its limit, and `Open` where a comparison is left open.
pub fn lead<C: Calc>(
    calc: &mut C,
    tree: &BoxTree,
    b: u32,
    cb: &Band<C::Num>,
    past: Option<u32>,
    run: &mut Run<C::Num>,
) -> Result<Lead<C::Num>, Halt>
    requires { b < length tree.now.boxes }
    ensures grows { Grows (C.state calc.old) (C.state calc.new) }
    ensures value { IfOk result (λ r. WhereOpen (C.state calc.new).is_open
        (λ e. IsLeadAt C.at r e (lead_of tree.now e.world (passed_by past)
        (band_at C.at cb.now e) b))) }
    ensures margins { IfOk result (λ r. WhereOpen (C.state calc.new).is_open
        (λ e. (margins : List ℤ) → IsRunOf (run_at C.at run.old e) margins
        → IsRunOf (run_at C.at run.new e)
        (margins ++ (lead_of tree.now e.world (passed_by past)
        (band_at C.at cb.now e) b).margins))) }
    ensures unchanged { IfErr result (λ _. run.new ≡ run.old) }
    ensures kept { AreOpen (C.state calc.old).kept (C.state calc.new) }
    ensures cause { IfErr result (CauseButMem (C.state calc.old) (C.state calc.new)
        (WhereOpen (C.state calc.old).is_open
        (λ e. AllSmall (ends (run_at C.at run.old e))
        × LeadFits tree.now e.world (band_at C.at cb.now e) b))) }
{
    let mut latch = Latch::new(calc);
    let found = whole_lead(&mut latch, tree, b, cb, past, run);
    let found = latch.finish(found)?;
    *run = found.run;
    Ok(found.lead)
}
