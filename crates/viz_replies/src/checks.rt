//! What is replied of certificate files.
ghost use Rattle.std.specs.Prelude.{◌≡◌, ◌≤◌, length, codes, IfOk};
ghost use Rattle.cert_file.specs.Files.{IsFileVerdict};
ghost use Rattle.viz_replies.specs.Replies.{IsChecked};
ghost use Rattle.viz_replies.specs.steps.Answers.{IsVerdictReply};

use crate::lines::numbered_line;
use crate::rejects::{Wrong, rejection};
use crate::reply::{Answer, Reply, line};
use cert_file::{FileVerdict, check_file};
use std::alloc::Global;
use viz_base::{Job, Mem};

/// Certificate files of more bytes are refused.
pub const CERT_MOST: usize = 67_108_864;

/// The reply about a certificate file of more than `CERT_MOST` bytes.
pub fn long_certificate(alloc: Global) -> Result<Reply, Mem>
    ensures { IfOk result (λ r. (r.answer ≡ Answer.CertRefused)
        × (r.output.items ≡ codes "rejected too-long\n")) }
{
    line(alloc, Answer::CertRefused, b"rejected too-long\n")
}

/// What is replied of a verdict on a certificate file for these jobs.
fn verdict_reply(alloc: Global, jobs: &[Job], verdict: &FileVerdict) -> Result<Reply, Mem>
    requires { (bytes : _) × IsFileVerdict jobs.now bytes verdict.now }
    ensures { IfOk result (λ r. IsVerdictReply jobs.now verdict.now r.answer r.output.items) }
{
    match verdict {
        FileVerdict::Accepted => line(alloc, Answer::Done, b"accepted\n"),
        FileVerdict::Rejected(part, reject) => {
            let wrong = Wrong {
                form: jobs[*part as usize].form,
                parts: jobs.len(),
                part: *part,
                reject,
            };
            rejection(alloc, wrong)
        }
        FileVerdict::Grammar(at) => {
            numbered_line(alloc, Answer::CertRefused, b"rejected grammar", &[*at])
        }
    }
}

/// What `check` replies for the jobs of all parts and the bytes of a certificate file.
pub fn checked(alloc: Global, jobs: &[Job], bytes: &[u8]) -> Result<Reply, Mem>
    requires { length jobs.now ≤ 12 }
    ensures { IfOk result (λ r. IsChecked jobs.now bytes.now r.answer r.output.items) }
{
    if bytes.len() > CERT_MOST {
        return long_certificate(alloc);
    }
    let verdict = check_file(alloc, jobs, bytes)?;
    verdict_reply(alloc, jobs, &verdict)
}
