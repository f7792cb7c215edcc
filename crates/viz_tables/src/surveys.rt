//! The survey of a job file.
ghost use Rattle.std.specs.Prelude.{◌≡◌, ◌≢◌, ◌<◌, length, IfOk, MatchResult};
ghost use Rattle.std.specs.List.{AllByRecursion};
ghost use Rattle.viz_base.specs.Jobs.{IsRange};
ghost use Rattle.viz_base.specs.declared.jobs.Job.{Job};
ghost use Rattle.page_build.specs.Jobs.{AreRefusedWith};
ghost use Rattle.viz_tables.specs.Surveys.{IsSurvey};
ghost use Rattle.viz_tables.specs.Searches.{AreSurveyed, HaveRange};

use crate::joining::lines_of;
use crate::words::Line;
use page_build::{JobRefusal, build_with};
use std::alloc::Global;
use viz_base::{Job, List, Mem, Rect};
use viz_replies::parts_tell;

/// The range that jobs have, of which there is one.
fn range_of(jobs: &[Job]) -> Rect
    requires some { 0 < length jobs.now }
    requires ranges { HaveRange jobs.now }
    ensures range { IsRange result }
    ensures ranges { AllByRecursion (λ (job : Job). job.range ≡ result) jobs.now }
{
    jobs[0].range
}

/// What is said of the widths of the range of jobs, of which there is one.
fn surveyed(alloc: Global, jobs: List<Job>, turns: u64) -> Result<List<Line>, Mem>
    requires some { 0 < length jobs }
    requires ranges { HaveRange jobs }
    ensures { IfOk result (AreSurveyed jobs turns) }
{
    let range = range_of(jobs.as_slice());
    lines_of(alloc, jobs, range, turns)
}

/// At which widths of a job file's range an assertion holds, which stands there in place of the member `assert`.
///
/// The lines go from the least width to the greatest. One that holds says that the assertion is true of the page's
/// rendering at each default font size and height of the range, at each of its widths; one that fails, that it is false
/// at some of them at each of its widths. One is undecided only where there are fewer turns than `2 * Q - 1`, Q being
/// the worlds of one width. Refusals are those of `build_with`.
pub fn survey(
    alloc: Global,
    bytes: &[u8],
    assertion: &str,
    turns: u64,
) -> Result<List<Line>, JobRefusal>
    ensures { MatchResult result (IsSurvey assertion.now bytes.now turns)
        (λ refusal. refusal ≢ JobRefusal.Mem → AreRefusedWith assertion.now bytes.now refusal) }
{
    parts_tell();
    let jobs = build_with(alloc, bytes, assertion)?;
    let lines = surveyed(alloc, jobs, turns)?;
    Ok(lines)
}
