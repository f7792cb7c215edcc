//! Job files: what their members say, within the limits of the profile.
#![tactic(auto)]

ghost use Rattle.std.specs.Option.{ok_or, option_copied};
ghost use Rattle.std.specs.Prelude.{IfOk};
ghost use Rattle.serde_json.specs.View.{view};
ghost use Rattle.viz_base.specs.Answers.{Gives};
ghost use Rattle.page_json.specs.Faults.{refusal_of};
ghost use Rattle.page_json.specs.Jobs.{IsWithinLimits, job_under, ranged, raw_job, raw_job_with, raw_of, value_of};
ghost use Rattle.page_json.specs.Seen.{AreWithinLimits, parts_seen};

mod elements;
mod faults;
mod fonts;
mod jobs;
mod limits;
mod places;
mod values;

use crate::jobs::{Parts, parts_under};
use crate::limits::{in_range, limited};
use crate::values::text_at;
pub use faults::JobFault;
use serde_json::Value;
use std::alloc::Global;
use viz_base::{Page, RawJob, Rect, Text};

/// The JSON value of the bytes.
fn value_of(alloc: Global, bytes: &[u8]) -> Result<Value, JobFault>
    ensures { Gives view refusal_of result (ok_or (value_of bytes.now) JobFault.NotJson) }
{
    match Value::from_slice(alloc, bytes) {
        Ok(value) => Ok(value),
        Err(fault) => {
            if fault.is_memory() {
                Err(JobFault::Mem)
            } else {
                Err(JobFault::NotJson)
            }
        }
    }
}

/// The job of parts within their limits.
fn ranged(alloc: Global, parts: Parts<'_>) -> Result<RawJob, JobFault>
    requires { AreWithinLimits parts }
    ensures gives { Gives raw_of refusal_of result (ranged (parts_seen parts.entry)) }
    ensures limits { IfOk result (λ job. IsWithinLimits (raw_of job)) }
{
    if !in_range(&parts) {
        return Err(JobFault::Range);
    }
    Ok(RawJob {
        form: parts.form,
        range: Rect {
            wl: parts.widths.0 as u32,
            wh: parts.widths.1 as u32,
            sl: parts.sizes.0 as u32,
            sh: parts.sizes.1 as u32,
            hl: parts.heights.0 as u32,
            hh: parts.heights.1 as u32,
        },
        fonts: parts.fonts,
        css: parts.css,
        page: Page {
            nodes: parts.page.nodes,
        },
        formula: Text::from_text(alloc, parts.formula)?,
    })
}

/// What a value says as a job file, this being the text of its assertion if there is one.
fn job_under(alloc: Global, value: &Value, assertion: Option<&str>) -> Result<RawJob, JobFault>
    ensures gives { Gives raw_of refusal_of result
        (job_under (option_copied assertion.entry) (view value.now)) }
    ensures limits { IfOk result (λ job. IsWithinLimits (raw_of job)) }
{
    let parts = parts_under(alloc, value, assertion)?;
    limited(&parts)?;
    ranged(alloc, parts)
}

/// What the bytes of a job file say. Faults in this order: `Mem`; `NotJson`; `Shape`, the first part that is
/// missing, of another form or against a rule, with the number of its font, sheet or node, else 0; `Limit`, the
/// first count beyond its limit; `Range`.
pub fn read_job(alloc: Global, bytes: &[u8]) -> Result<RawJob, JobFault>
    ensures gives { Gives raw_of refusal_of result (raw_job bytes.now) }
    ensures limits { IfOk result (λ job. IsWithinLimits (raw_of job)) }
{
    let value = value_of(alloc, bytes)?;
    job_under(alloc, &value, text_at(&value, "assert"))
}

/// What the bytes of a job file say whose member `assert` is the text `assertion`, whether it is there or not, and
/// whatever it is. Faults are those of `read_job`; it has none of a `Shape` of `assert`.
pub fn read_job_with(alloc: Global, bytes: &[u8], assertion: &str) -> Result<RawJob, JobFault>
    ensures gives { Gives raw_of refusal_of result (raw_job_with assertion.now bytes.now) }
    ensures limits { IfOk result (λ job. IsWithinLimits (raw_of job)) }
{
    let value = value_of(alloc, bytes)?;
    job_under(alloc, &value, Some(assertion))
}
