ghost use Rattle.std.specs.Prelude.{◌≡◌, length};
ghost use Rattle.std.specs.Str.{chars};

use crate::faults::Fault;
use crate::scribes::Scribe;
use page_build::{build_at, build_parts};
use page_json::{JobFault, read_job};
use serde_json::Value;
use viz_base::{Job, RawJob};

/// How many characters a text has.
pub fn count_of(text: &str) -> usize
    ensures { result ≡ length (chars text.now) }
{
    text.chars().count()
}

impl From<JobFault> for Fault {
    fn from(fault: JobFault) -> Self {
        match fault {
            JobFault::Mem => Fault::Mem,
            _ => Fault::NoCase,
        }
    }
}

/// The job that stands in a case, for its page.
pub fn job_of(scribe: &mut Scribe, case: &Value) -> Option<RawJob> {
    let text = scribe.text_at(case, 1);
    let job = read_job(scribe.alloc(), text.as_bytes());
    scribe.kept(job)
}

/// The job that stands in a case, at a viewport's width and a default font size in pixels.
pub fn built_at(scribe: &mut Scribe, case: &Value, w: u32, s: u32) -> Option<Job> {
    let text = scribe.text_at(case, 1);
    let job = build_at(scribe.alloc(), text.as_bytes(), w, s);
    scribe.kept(job)
}

/// The job that stands in a case, whose range has one part.
pub fn built(scribe: &mut Scribe, case: &Value) -> Option<Job> {
    let text = scribe.text_at(case, 1);
    let jobs = build_parts(scribe.alloc(), text.as_bytes());
    scribe.kept(jobs)?.into_vec().pop()
}
