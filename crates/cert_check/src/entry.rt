//! The verdict on a certificate that is whole in memory.
ghost use Rattle.std.specs.Prelude.{◌≡◌, ◌↔◌, ◌+◌, ◌<◌, ◌^◌, ℕ, List, length, IsTrue, IfOk};
ghost use Rattle.cert_text.specs.Texts.{CertText};
ghost use Rattle.cert_semantics.specs.Axes.{axis_count};
ghost use Rattle.cert_semantics.specs.Nodes.{nodes_of};
ghost use Rattle.cert_check.specs.Truths.{Holds};
ghost use Rattle.cert_check.specs.Right.{Right, IsPlainlyComputed, AreUnitsAndGrids};
ghost use Rattle.cert_check.specs.Verdicts.{IsVerdict};
ghost use Rattle.cert_check.specs.declared.verdicts.Verdict.TheVariants.{Accepted};

use crate::descent::Descent;
use crate::verdicts::{Reject, Verdict};
use crate::walk::{Stop, check_node};
use cert_text::Cert;
use std::alloc::Global;
use viz_base::{Job, Mem};

/// The verdict on a certificate for a job, whoever made it. A certificate is accepted only where it is right for the
/// job, and each number of its splits' and lemmas' denials and of its grids' paths is in `i128`; the job holds then.
/// One without leaves whose numbers stay in `i128` is accepted exactly where it is right, and those of unit splits and
/// grids do. The only fault is want of memory.
///
/// Each leaf takes one layout of the page, and so does each world of a grid's path, or two where its numbers pass 64
/// bits; each line of a derivation is checked once. The call goes as deep as the certificate's defs, splits and lemmas
/// stand in one another.
pub fn check(alloc: Global, job: &Job, cert: &Cert) -> Result<Verdict, Mem>
    requires few { length (nodes_of job.now.form cert.now) + axis_count job.now.form < 2 ^ 32 }
    ensures verdict { IfOk result (λ verdict. IsVerdict job.now cert.now verdict) }
    ensures exact { IfOk result (λ verdict. IsPlainlyComputed job.now cert.now
        → (verdict ≡ Accepted) ↔ Right job.now cert.now) }
    ensures units { IfOk result (λ verdict. (text : List ℕ) → CertText cert.now text
        → AreUnitsAndGrids job.now cert.now
        → (verdict ≡ Accepted) ↔ Right job.now cert.now) }
    ensures holds { IfOk result (λ verdict. verdict ≡ Accepted → Holds job.now) }
{
    if cert.job != job.digest {
        return Ok(Verdict::Rejected(Reject::OtherJob));
    }
    let mut descent = Descent::new(alloc, job)?;
    match check_node(alloc, &mut descent, &cert.root, 0, Some(job.range)) {
        Ok(_) => Ok(Verdict::Accepted),
        Err(Stop::Mem) => Err(Mem),
        Err(Stop::Rejected(reject)) => Ok(Verdict::Rejected(reject.into_inner())),
    }
}
