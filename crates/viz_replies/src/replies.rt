//! What is replied to a question, given the bytes of a job file.
ghost use Rattle.std.specs.Prelude.{◌≡◌, ◌++◌, IfOk, OnOk};
ghost use Rattle.viz_replies.specs.Replies.{IsReply, boxes_text, open_line};
ghost use Rattle.viz_replies.specs.Screens.{world_in};
ghost use Rattle.viz_replies.specs.Truths.{IsFalseThere};
ghost use Rattle.viz_replies.specs.steps.Answers.{AreSpelled, CanBeTold, IsSearchReply, IsToldOf};

use crate::checks::checked;
use crate::jobs::{JobRead, JobsRead, read_job, read_jobs};
use crate::laws::parts_hold;
use crate::lines::push_part;
use crate::printing::print;
use crate::question::{Question, Screen};
use crate::reply::{Answer, Reply};
use crate::searches::{Found, search};
use crate::violations::violation;
use lay_flow::render_at;
use page_build::one_answer;
use std::alloc::{AllocError, Global};
use viz_base::{Job, List, Mem, Rect, World};

/// The boxes of a job's page at a screen.
fn boxes(alloc: Global, job: &Job, screen: Screen) -> Result<Reply, Mem>
    ensures { IfOk result (λ r. (r.answer ≡ Answer.Done)
        × (r.output.items ≡ boxes_text job.now (world_in screen job.now.range))) }
{
    let world = screen.world_in(job.range);
    let rendering = render_at(world, &job.tree)?;
    Ok(Reply {
        answer: Answer::Done,
        output: print(alloc, &rendering)?,
    })
}

/// What `lay` replies.
fn laid(alloc: Global, bytes: &[u8], screen: Screen) -> Result<Reply, Mem>
    ensures { IfOk result (λ r. IsReply bytes.now (Question.Lay screen) r.answer r.output.items) }
{
    match read_job(alloc, bytes, screen.w, screen.s)? {
        JobRead::Read(job) => {
            let reply = boxes(alloc, &job, screen);
            drop(job);
            reply
        }
        JobRead::Refused(reply) => Ok(reply),
    }
}

/// The line of a part that is open yet of the range of a job of this form.
fn push_open(out: &mut Vec<u8>, form: u8, part: Rect) -> Result<(), AllocError>
    ensures { OnOk result (out.new.items ≡ out.old.items ++ open_line form part) }
{
    out.extend_from_slice(b"undecided")?;
    push_part(out, form, part)?;
    out.extend_from_slice(b"\n")
}

/// A part that is open yet of the range of a job of this form.
fn left_open(alloc: Global, form: u8, part: Rect) -> Result<Reply, Mem>
    ensures { IfOk result (λ r. (r.answer ≡ Answer.Undecided)
        × (r.output.items ≡ open_line form part)) }
{
    let mut output = Vec::new(alloc);
    push_open(&mut output, form, part)?;
    Ok(Reply {
        answer: Answer::Undecided,
        output,
    })
}

/// A world at which the formula of a part is false, and so the assertion as it is written.
fn violated(alloc: Global, bytes: &[u8], world: World) -> Result<Reply, Mem>
    requires { IsFalseThere bytes.now world }
    ensures { IfOk result (λ r. IsToldOf bytes.now world r.answer r.output.items) }
{
    one_answer();
    match read_job(alloc, bytes, world.w, world.s)? {
        JobRead::Read(job) => {
            let reply = violation(alloc, &job, world);
            drop(job);
            reply
        }
        // The bytes spell a job there, so they are not refused.
        JobRead::Refused(_) => unreachable!(),
    }
}

/// What is replied of a search of the jobs that the bytes spell.
pub fn search_reply(alloc: Global, bytes: &[u8], search: Found) -> Result<Reply, Mem>
    requires { CanBeTold bytes.now search }
    ensures { IfOk result (λ r. IsSearchReply bytes.now search r.answer r.output.items) }
{
    match search {
        Found::Proved(texts) => Ok(Reply {
            answer: Answer::Done,
            output: texts,
        }),
        Found::Violated(world) => violated(alloc, bytes, world),
        Found::Undecided(form, part) => left_open(alloc, form, part),
    }
}

/// What is replied of a search of these jobs, which the bytes spell.
fn searched(alloc: Global, bytes: &[u8], jobs: List<Job>, turns: u64) -> Result<Reply, Mem>
    requires { AreSpelled bytes.now jobs }
    ensures { IfOk result (λ r. IsReply bytes.now (Question.Prove turns) r.answer r.output.items) }
{
    parts_hold();
    let found = search(alloc, jobs.as_slice(), turns);
    drop(jobs);
    search_reply(alloc, bytes, found?)
}

/// What `prove` replies.
fn proved(alloc: Global, bytes: &[u8], turns: u64) -> Result<Reply, Mem>
    ensures { IfOk result (λ r. IsReply bytes.now (Question.Prove turns) r.answer r.output.items) }
{
    match read_jobs(alloc, bytes)? {
        JobsRead::Read(jobs) => searched(alloc, bytes, jobs, turns),
        JobsRead::Refused(reply) => Ok(reply),
    }
}

/// What `check` replies.
fn judged(alloc: Global, bytes: &[u8], cert: &[u8]) -> Result<Reply, Mem>
    ensures { IfOk result (λ r. IsReply bytes.now
        (Question.Check cert.now) r.answer r.output.items) }
{
    match read_jobs(alloc, bytes)? {
        JobsRead::Read(jobs) => {
            let reply = checked(alloc, jobs.as_slice(), cert);
            drop(jobs);
            reply
        }
        JobsRead::Refused(reply) => Ok(reply),
    }
}

/// What is replied to a question, with its exact output alone.
pub fn reply_on_bytes(alloc: Global, bytes: &[u8], question: &Question) -> Result<Reply, Mem>
    ensures { IfOk result (λ r. IsReply bytes.now question.now r.answer r.output.items) }
{
    match question {
        Question::Lay(screen) => laid(alloc, bytes, *screen),
        Question::Prove(turns) => proved(alloc, bytes, *turns),
        Question::Check(cert) => judged(alloc, bytes, cert.as_slice()),
    }
}
