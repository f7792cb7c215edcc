//! Replies about generated jobs, which no file holds.
ghost use Rattle.std.specs.Prelude.{◌≡◌, ◌∷◌, ◌<◌, ◌≤◌, List, length, IfOk};
ghost use Rattle.viz_replies.specs.Generated.{job_text};
ghost use Rattle.viz_replies.specs.Lines.{numbered};
ghost use Rattle.viz_replies.specs.Trials.{IsGenerated, IsTrial, IsTrialOf, IsTrialOn, trial_line};
ghost use Rattle.viz_replies.specs.Headline.{IsFalseWhereNamed};
ghost use Rattle.viz_replies.specs.Truths.{IsTrueEverywhere};
ghost use Rattle.viz_replies.specs.steps.Answers.{IsTrialReply};

use crate::faults::GenFault;
use crate::generator::generate;
use crate::jobs::{JobsRead, read_jobs};
use crate::laws::parts_hold;
use crate::lines::{push_line, push_number};
use crate::question::Sections;
use crate::reply::{Answer, Reply};
use crate::searches::{Found, search};
use std::alloc::Global;
use viz_base::{Job, Mem, world_count};

/// The text of the job that a seed tells.
fn generated(alloc: Global, seed: u64, sections: Sections) -> Result<Vec<u8>, Mem>
    ensures { IfOk result (λ text. text.items ≡ job_text seed sections.count) }
{
    match generate(alloc, seed, sections.count) {
        Ok(text) => Ok(text),
        Err(GenFault::Mem) => Err(Mem),
        Err(GenFault::TooLarge) => unreachable!(),
    }
}

/// The whole reply to `gen`: the text of the job that a seed tells.
pub fn reply_to_gen(alloc: Global, seed: u64, sections: Sections) -> Result<Reply, Mem>
    ensures { IfOk result (λ r. IsGenerated seed sections.count r.answer r.output.items) }
{
    Ok(Reply {
        answer: Answer::Done,
        output: generated(alloc, seed, sections)?,
    })
}

/// The line of a job's trial, which ends with these words and numbers.
fn trial(
    alloc: Global,
    answer: Answer,
    job: &Job,
    words: &[u8],
    numbers: &[u64],
) -> Result<Reply, Mem>
    ensures { IfOk result (λ r. (r.answer ≡ answer)
        × (r.output.items ≡ trial_line job.now (numbered words.now numbers.now))) }
{
    let mut output = Vec::new(alloc);
    output.extend_from_slice(b"trial boxes")?;
    push_number(&mut output, job.tree.boxes.len() as u64)?;
    output.extend_from_slice(b" worlds")?;
    push_number(&mut output, world_count(job.range))?;
    push_line(&mut output, words, numbers)?;
    Ok(Reply { answer, output })
}

/// What is replied of a search on trial, this being the first part's job.
fn search_of_trial(alloc: Global, job: &Job, found: &Found) -> Result<Reply, Mem>
    ensures { IfOk result (λ r. IsTrialReply job.now found.now r.answer r.output.items) }
{
    match found {
        Found::Proved(_) => trial(alloc, Answer::Done, job, b" proved", &[]),
        Found::Violated(world) => {
            let numbers = [u64::from(world.w), u64::from(world.s)];
            trial(alloc, Answer::Violated, job, b" violated", &numbers)
        }
        Found::Undecided(..) => trial(alloc, Answer::Undecided, job, b" undecided", &[]),
    }
}

/// What is replied of the trial of the jobs of all parts.
fn tried(alloc: Global, jobs: &[Job], turns: u64) -> Result<Reply, Mem>
    requires some { 0 < length jobs.now }
    requires few { length jobs.now ≤ 12 }
    ensures { IfOk result (λ r. (job : Job) × (more : List Job) × (jobs.now ≡ job ∷ more)
        × IsTrialOf turns job jobs.now r.answer r.output.items) }
{
    let found = search(alloc, jobs, turns)?;
    let reply = search_of_trial(alloc, &jobs[0], &found);
    drop(found);
    reply
}

/// What is replied of the trial of the jobs that these bytes spell.
fn tried_on_bytes(alloc: Global, bytes: &[u8], turns: u64) -> Result<Reply, Mem>
    ensures { IfOk result (λ r. IsTrialOn bytes.now turns r.answer r.output.items) }
{
    match read_jobs(alloc, bytes)? {
        JobsRead::Read(jobs) => {
            let reply = tried(alloc, jobs.as_slice(), turns);
            drop(jobs);
            reply
        }
        JobsRead::Refused(reply) => Ok(reply),
    }
}

/// What is replied to `trial`, with its exact output alone.
fn reply_of_trial(alloc: Global, seed: u64, sections: Sections, turns: u64) -> Result<Reply, Mem>
    ensures { IfOk result (λ r. IsTrial seed sections.count turns r.answer r.output.items) }
{
    let text = generated(alloc, seed, sections)?;
    tried_on_bytes(alloc, text.as_slice(), turns)
}

/// The whole reply to `trial`: the job that a seed tells is generated, built and proved.
pub fn reply_to_trial(
    alloc: Global,
    seed: u64,
    sections: Sections,
    turns: u64,
) -> Result<Reply, Mem>
    // Where the job is said to be proved, its assertion is true of the CSS 2.1 rendering at every world of its range,
    ensures proved { IfOk result (λ r. r.answer ≡ Answer.Done
        → IsTrueEverywhere (job_text seed sections.count)) }
    // and where it is said to be violated, it is false at the world of the range that is named.
    ensures violated { IfOk result (λ r. r.answer ≡ Answer.Violated
        → IsFalseWhereNamed (job_text seed sections.count) r.output.items) }
    // The answer and the output are those of the reply.
    ensures outcome { IfOk result (λ r. IsTrial seed sections.count turns r.answer r.output.items) }
{
    parts_hold();
    reply_of_trial(alloc, seed, sections, turns)
}
