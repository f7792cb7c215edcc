//! The truth of a job's formula over any calc.
ghost use Rattle.std.specs.Prelude.{◌≡◌, Some, IsTrue, IfOk, IfErr};
ghost use Rattle.viz_calc.specs.State.{Grows, is_told, WhereOpen};
ghost use Rattle.logic_semantics.specs.Ranges.{holds_at};
ghost use Rattle.cert_check.specs.Truths.{is_true_at, rendering_of};

use lay_flow::render;
use std::alloc::Global;
use vis_truth::{conclusion, truth};
use viz_base::{Formula, Job};
use viz_calc::{Calc, Halt};

/// Whether a formula is true of a page's rendering, laid out over a calc.
fn laid_out<C: Calc>(calc: &mut C, job: &Job, f: &Formula) -> Result<bool, Halt>
    ensures grows { Grows (C.state calc.old) (C.state calc.new) }
    ensures value { IfOk result (λ yes. WhereOpen (C.state calc.new).is_open
        (λ e. yes ≡ holds_at (rendering_of job.now) f.now e.world)) }
    ensures told { IfErr result (λ halt. IsTrue
        (is_told C.counts (C.state calc.new) (Some halt))) }
{
    match render(calc, &job.tree) {
        Ok(rendering) => truth(calc, f, &rendering),
        Err(halt) => Err(halt),
    }
}

/// Whether a job's formula is true of its page's rendering, over a calc. Premises that ask for no box are asked first:
/// where one is false, no page is laid out. A halt is told by the calc's counts, unless it is for want of memory.
pub fn truth_over<C: Calc>(alloc: Global, calc: &mut C, job: &Job) -> Result<bool, Halt>
    ensures grows { Grows (C.state calc.old) (C.state calc.new) }
    ensures value { IfOk result (λ yes. WhereOpen (C.state calc.new).is_open
        (λ e. yes ≡ is_true_at job.now e.world)) }
    ensures told { IfErr result (λ halt. IsTrue
        (is_told C.counts (C.state calc.new) (Some halt))) }
{
    match conclusion(alloc, calc, &job.formula) {
        Ok(Some(left)) => laid_out(calc, job, left),
        Ok(None) => Ok(true),
        Err(halt) => Err(halt),
    }
}
