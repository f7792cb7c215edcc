//! What of a certificate file is kept under a job file.
ghost use Rattle.std.specs.Prelude.{◌≡◌, length, IfOk};
ghost use Rattle.viz_renew.specs.Kept.{AddUp, IsKeptReply, IsReplyToKept};
ghost use Rattle.viz_renew.specs.steps.Read.{HaveFewNodes};

use crate::certificates::pieces;
use crate::files::{FilesRead, read_files};
use crate::sums::Sums;
use cert_text::Cert;
use std::alloc::Global;
use viz_base::{Job, Mem};
use viz_replies::{Answer, Reply};

/// The sums over the certificates of all parts.
fn sums(alloc: Global, jobs: &[Job], certs: &[Cert]) -> Result<Sums, Mem>
    requires as_many { length certs.now ≡ length jobs.now }
    requires few { HaveFewNodes certs.now }
    ensures { IfOk result (AddUp jobs.now certs.now) }
{
    let mut sums = Sums::nothing();
    for at in 0..jobs.len() {
        let kept = pieces(alloc, &jobs[at], &certs[at])?;
        sums = sums.plus(kept)?;
    }
    Ok(sums)
}

/// What is replied about the certificates of all parts.
fn kept(alloc: Global, jobs: &[Job], certs: &[Cert]) -> Result<Reply, Mem>
    requires as_many { length certs.now ≡ length jobs.now }
    requires few { HaveFewNodes certs.now }
    ensures { IfOk result (λ r. IsKeptReply jobs.now certs.now r.answer r.output.items) }
{
    let sums = sums(alloc, jobs, certs)?;
    let line = sums.line(alloc)?;
    Ok(Reply {
        answer: Answer::Done,
        output: line,
    })
}

/// How many leaves and grids of a certificate file are kept under a job file, whatever job it was made for: a line with
/// the sums over the parts.
///
/// A job file of more than `JOB_MOST` bytes is refused first, then a certificate file of more than `CERT_MOST`, then
/// the job file, then a certificate file that isn't as many certificates as the job has parts; their digests aren't
/// looked at. `Mem` is for want of memory; no clause says when.
pub fn reply_to_kept(alloc: Global, job: &[u8], cert: &[u8]) -> Result<Reply, Mem>
    ensures { IfOk result (λ r. IsReplyToKept job.now cert.now r.answer r.output.items) }
{
    match read_files(alloc, job, cert)? {
        FilesRead::Read(jobs, certs) => {
            let parts = jobs.as_slice();
            let theirs = certs.as_slice();
            let reply = kept(alloc, parts, theirs);
            drop(jobs);
            drop(certs);
            reply
        }
        FilesRead::Refused(reply) => Ok(reply),
    }
}
