//! What is replied to a question about a job, given the bytes of its file.
#![tactic(auto)]

ghost use Rattle.std.specs.Prelude.{◌≡◌, IfOk};
ghost use Rattle.viz_replies.specs.Replies.{IsReply};
ghost use Rattle.viz_replies.specs.Headline.{IsFalseWherePrinted};
ghost use Rattle.viz_replies.specs.Truths.{IsTrueEverywhere};

mod checks;
mod faults;
mod generator;
mod jobs;
mod laws;
mod lines;
mod part_laws;
mod printing;
mod question;
mod refusals;
mod rejects;
mod replies;
mod reply;
mod searches;
mod sections;
mod trials;
mod violations;

pub use checks::{CERT_MOST, checked, long_certificate};
pub use faults::GenFault;
pub use generator::{SECTIONS_MOST, generate};
pub use jobs::{JOB_MOST, JobRead, JobsRead, long_job, read_job, read_jobs};
pub use laws::parts_hold;
pub use lines::{numbered_line, push_number};
pub use part_laws::parts_tell;
pub use printing::print;
pub use question::{Question, Screen, Sections};
pub use refusals::refusal;
use replies::reply_on_bytes;
pub use replies::search_reply;
pub use reply::{Answer, Reply};
pub use searches::{Found, part_most, search_part};
use std::alloc::Global;
pub use trials::{reply_to_gen, reply_to_trial};
use viz_base::Mem;

/// The whole reply to a question about the job that the bytes of a job file spell.
pub fn reply_to(alloc: Global, job: &[u8], question: &Question) -> Result<Reply, Mem>
    // Where certificates are accepted, the assertion as it is written is true of the CSS 2.1 rendering at every world
    // of the range, the rendering being by the rules that are met there (Media Queries 3).
    ensures accepted { IfOk result (λ r. (cert : _) → question.now ≡ Question.Check cert
        → r.answer ≡ Answer.Done → IsTrueEverywhere job.now) }
    // So it is where it is said to be proved,
    ensures proved { IfOk result (λ r. (turns : _) → question.now ≡ Question.Prove turns
        → r.answer ≡ Answer.Done → IsTrueEverywhere job.now) }
    // and where it is said to be violated, it is false at the world of the range that is printed, with the boxes there.
    ensures violated { IfOk result (λ r. r.answer ≡ Answer.Violated
        → IsFalseWherePrinted job.now r.output.items) }
    // The answer and the output are those of the reply.
    ensures outcome { IfOk result (λ r. IsReply job.now question.now r.answer r.output.items) }
{
    parts_hold();
    reply_on_bytes(alloc, job, question)
}
