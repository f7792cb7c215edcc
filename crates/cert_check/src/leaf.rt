//! The verdict on a leaf: its page is laid out once, over all worlds of its path together.
ghost use Rattle.std.specs.Prelude.{◌≡◌, ◌<◌, true, Ok, Some, None, IsTrue, IfOk, IfErr, IfSome, OnOk};
ghost use Rattle.std.specs.Bool.{Decides};
ghost use Rattle.viz_base.specs.Numbers.{Rose};
ghost use Rattle.viz_calc.specs.State.{Grows, is_told, WhereOpen};
ghost use Rattle.sym_calc.specs.Calc.{state_of};
ghost use Rattle.logic_semantics.specs.Ranges.{holds_at};
ghost use Rattle.cert_check.specs.Truths.{is_true_at, rendering_of};
ghost use Rattle.cert_semantics.specs.Paths.{Path};
ghost use Rattle.cert_check.specs.Leaves.{StandsOver, IsLeafVerdict, IsTold, TakesRight, reject_of};

use crate::truths::truth_over;
use crate::verdicts::{Reject, Verdict};
use std::alloc::Global;
use sym_calc::{Sym, Trouble};
use viz_base::{Job, Mem};
use viz_calc::Halt;

/// The rejection of a leaf for a trouble of its calc.
fn reject_of(node: u32, trouble: &Trouble) -> Result<Reject, Mem>
    ensures { IfOk result (λ reject. reject ≡ reject_of node trouble.now) }
{
    Ok(match trouble {
        Trouble::Line(answer, line) => Reject::Line(node, *answer, *line),
        Trouble::Differs(answer, ours, theirs) => {
            Reject::Differs(node, *answer, ours.clone()?, theirs.clone()?)
        }
        Trouble::Short => Reject::Short(node),
    })
}

/// Whether a count rose, or stands at its end, where it cannot rise.
fn is_risen(before: u64, after: u64) -> bool
    ensures { Decides result (Rose before after) }
{
    before < after || after == u64::MAX
}

/// The verdict on a leaf, or None where a number is outside 128 bits, which the calc has counted then.
fn judge_leaf(
    alloc: Global,
    job: &Job,
    node: u32,
    sym: &mut Sym<'_>,
) -> Result<Option<Verdict>, Mem>
    ensures verdict { IfOk result (λ judged. IfSome judged (λ verdict. (path : Path)
        → StandsOver job.now.range path sym.old
        → IsLeafVerdict job.now node path sym.old.tape.now verdict)) }
    ensures grows { Grows (state_of sym.old) (state_of sym.new) }
    ensures told { IfOk result (λ judged. IfSome judged
        (IsTold job.now node sym.old sym.new sym.new.trouble)) }
    ensures right { TakesRight job.now.range sym.old sym.new }
    ensures untroubled { result ≡ Ok None → sym.new.trouble ≡ None }
    ensures counted { result ≡ Ok None → 0 < sym.new.coeffs }
{
    let answer = truth_over(alloc, sym, job);
    if let Some(trouble) = sym.trouble() {
        return Ok(Some(Verdict::Rejected(reject_of(node, trouble)?)));
    }
    match answer {
        Ok(true) => match sym.left() {
            0 => Ok(Some(Verdict::Accepted)),
            count => Ok(Some(Verdict::Rejected(Reject::Left(node, count as u64)))),
        },
        Ok(false) => Ok(Some(Verdict::Rejected(Reject::Unmet(node)))),
        Err(Halt::Coeff) => Ok(None),
        Err(Halt::Mem) => Err(Mem),
        // A comparison that is left open is a trouble of the calc.
        Err(Halt::Open) => unreachable!(),
    }
}

/// The verdict of `check_leaf` over a calc that has counted no number outside 128 bits yet. The only fault is want of
/// memory.
pub fn check_new_leaf(
    alloc: Global,
    job: &Job,
    node: u32,
    sym: &mut Sym<'_>,
) -> Result<Verdict, Mem>
    requires { sym.old.coeffs ≡ 0 }
    ensures verdict { IfOk result (λ verdict. (path : Path) → StandsOver job.now.range path sym.old
        → IsLeafVerdict job.now node path sym.old.tape.now verdict) }
    ensures told { IfOk result (IsTold job.now node sym.old sym.new sym.new.trouble) }
    ensures right { OnOk result (TakesRight job.now.range sym.old sym.new) }
{
    match judge_leaf(alloc, job, node, sym)? {
        Some(verdict) => Ok(verdict),
        None => Ok(Verdict::Rejected(Reject::Coeff(node))),
    }
}

/// The verdict on a leaf of this number, over a calc that stands over the leaf's path and answers: whether the formula
/// is true at each world of the path, and why not. Only the rejections of a leaf come.
///
/// It lays the page out once, over all worlds of the path together. The only fault is want of memory, where the calc
/// has counted no number outside 128 bits before; over one that has, a halt for such a number would be told as want of
/// memory too if it was not counted, of which none is known.
pub fn check_leaf(alloc: Global, job: &Job, node: u32, sym: &mut Sym<'_>) -> Result<Verdict, Mem>
    ensures verdict { IfOk result (λ verdict. (path : Path) → StandsOver job.now.range path sym.old
        → IsLeafVerdict job.now node path sym.old.tape.now verdict) }
    ensures told { IfOk result (IsTold job.now node sym.old sym.new sym.new.trouble) }
    ensures right { OnOk result (TakesRight job.now.range sym.old sym.new) }
{
    let before = sym.coeffs();
    match judge_leaf(alloc, job, node, sym)? {
        Some(verdict) => Ok(verdict),
        None if is_risen(before, sym.coeffs()) => Ok(Verdict::Rejected(Reject::Coeff(node))),
        None => Err(Mem),
    }
}
