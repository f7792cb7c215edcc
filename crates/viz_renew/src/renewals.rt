//! The renewal of a certificate file under a job file.
ghost use Rattle.std.specs.Prelude.{◌≡◌, ℕ, List, IfOk};
ghost use Rattle.cert_file.specs.Files.{AreTexts};
ghost use Rattle.viz_replies.specs.Headline.{IsFalseWherePrinted};
ghost use Rattle.viz_replies.specs.Truths.{IsTrueEverywhere};
ghost use Rattle.viz_renew.specs.Renewals.{IsRenewal, IsReplyToRenew};
ghost use Rattle.viz_renew.specs.steps.Read.{CanRenew};

use crate::files::{FilesRead, read_files};
use crate::parts::{all_stand, renew, texts_of};
use cert_text::Cert;
use std::alloc::Global;
use viz_base::{Job, Mem};
use viz_replies::{Answer, Reply, parts_hold, search_reply};

/// The certificates as they are.
fn unchanged(alloc: Global, certs: &[Cert]) -> Result<Reply, Mem>
    requires { (texts : List ℕ) × AreTexts certs.now texts }
    ensures { IfOk result (λ r. (r.answer ≡ Answer.Done) × AreTexts certs.now r.output.items) }
{
    Ok(Reply {
        answer: Answer::Done,
        output: texts_of(alloc, certs)?,
    })
}

/// What is replied of jobs and certificates, which the bytes of both files spell.
fn renewed(
    alloc: Global,
    bytes: &[u8],
    jobs: &[Job],
    certs: &[Cert],
    turns: u64,
) -> Result<Reply, Mem>
    requires { CanRenew bytes.now jobs.now certs.now }
    ensures { IfOk result
        (λ r. IsRenewal bytes.now jobs.now certs.now turns r.answer r.output.items) }
{
    let stand = all_stand(alloc, jobs, certs)?;
    if stand {
        return unchanged(alloc, certs);
    }
    parts_hold();
    let found = renew(alloc, jobs, certs, turns)?;
    search_reply(alloc, bytes, found)
}

/// What is replied, with its exact output alone.
fn reply_on_files(alloc: Global, job: &[u8], cert: &[u8], turns: u64) -> Result<Reply, Mem>
    ensures { IfOk result (λ r. IsReplyToRenew job.now cert.now turns r.answer r.output.items) }
{
    match read_files(alloc, job, cert)? {
        FilesRead::Read(jobs, certs) => {
            let parts = jobs.as_slice();
            let theirs = certs.as_slice();
            let reply = renewed(alloc, job, parts, theirs, turns);
            drop(jobs);
            drop(certs);
            reply
        }
        FilesRead::Refused(reply) => Ok(reply),
    }
}

/// The renewal of a certificate file under an edited job file, whatever job it was made for: it keeps the certificates
/// that are still right, with the job's digest in place of their own, and proves the other parts anew. It replies as
/// `prove` does with so many turns, but that a renewal may have more grids and leaves than turns. Certificates of form
/// 1 that are all accepted are written as they are, for each count of turns; those of unit splits and grids alone are
/// accepted where they are right.
///
/// What is refused is refused as by `reply_to_kept`. `Mem` is for want of memory; no clause says when.
pub fn reply_to_renew(alloc: Global, job: &[u8], cert: &[u8], turns: u64) -> Result<Reply, Mem>
    // Where certificates are written, the assertion as it is written is true of the rendering at each world of the
    // range,
    ensures proved { IfOk result (λ r. r.answer ≡ Answer.Done → IsTrueEverywhere job.now) }
    // and where it is said to be violated, it is false at the world of the range that is printed, with the boxes there.
    ensures violated { IfOk result (λ r. r.answer ≡ Answer.Violated
        → IsFalseWherePrinted job.now r.output.items) }
    // The answer and the output are those of the reply.
    ensures outcome { IfOk result
        (λ r. IsReplyToRenew job.now cert.now turns r.answer r.output.items) }
{
    parts_hold();
    reply_on_files(alloc, job, cert, turns)
}
