ghost use Rattle.std.specs.Prelude.{◌≡◌, IfOk};
ghost use Rattle.viz_replies.specs.Jobs.{long_line};
ghost use Rattle.viz_replies.specs.steps.Answers.{AreJobsRead, IsJobRead};

use crate::part_laws::parts_tell;
use crate::refusals::refusal;
use crate::reply::{Answer, Reply, line};
use page_build::{build_at, build_parts};
use std::alloc::Global;
use viz_base::{Job, List, Mem};

/// What the bytes of a job file come to at a viewport's width and a default font size.
#[derive(Drop)]
pub enum JobRead {
    Read(Job),
    /// They spell no job there.
    Refused(Reply),
}

/// What the bytes of a job file come to for all parts of their range.
#[derive(Drop)]
pub enum JobsRead {
    Read(List<Job>),
    /// They spell no jobs.
    Refused(Reply),
}

/// Job files of more bytes are refused.
pub const JOB_MOST: usize = 16_777_216;

/// The reply about a job file of more than `JOB_MOST` bytes.
pub fn long_job(alloc: Global) -> Result<Reply, Mem>
    ensures { IfOk result (λ r. (r.answer ≡ Answer.JobRefused) × (r.output.items ≡ long_line)) }
{
    line(alloc, Answer::JobRefused, b"job-refused too-long\n")
}

/// The job that the bytes of a job file spell at a width and a size, or the reply where they spell none.
pub fn read_job(alloc: Global, bytes: &[u8], w: u32, s: u32) -> Result<JobRead, Mem>
    ensures { IfOk result (IsJobRead bytes.now w s) }
{
    if bytes.len() > JOB_MOST {
        return Ok(JobRead::Refused(long_job(alloc)?));
    }
    match build_at(alloc, bytes, w, s) {
        Ok(job) => Ok(JobRead::Read(job)),
        Err(fault) => Ok(JobRead::Refused(refusal(alloc, fault)?)),
    }
}

/// The jobs that the bytes of a job file spell, or the reply where they spell none.
pub fn read_jobs(alloc: Global, bytes: &[u8]) -> Result<JobsRead, Mem>
    ensures { IfOk result (AreJobsRead bytes.now) }
{
    if bytes.len() > JOB_MOST {
        return Ok(JobsRead::Refused(long_job(alloc)?));
    }
    parts_tell();
    match build_parts(alloc, bytes) {
        Ok(jobs) => Ok(JobsRead::Read(jobs)),
        Err(fault) => Ok(JobsRead::Refused(refusal(alloc, fault)?)),
    }
}
