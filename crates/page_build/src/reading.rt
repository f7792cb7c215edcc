//! What the bytes of a job file say.
ghost use Rattle.std.specs.Prelude.{◌≡◌, ◌≢◌, ℕ, MatchResult, Ok, Err};
ghost use Rattle.page_media.specs.Features.{features_of};
ghost use Rattle.page_json.specs.Jobs.{IsWithinLimits, raw_job, raw_job_with, raw_of};
ghost use Rattle.page_build.specs.Jobs.{IsRefusedCss};
ghost use Rattle.page_build.specs.Seen.{IsFileOf, IsUnread};

use crate::faults::JobRefusal;
use crate::files::JobFile;
use crate::sheets::all_sheets;
use page_json::{read_job, read_job_with};
use page_media::features;
use sha2::{Digest, Sha256};
use std::alloc::Global;
use viz_base::{Feature, List, RawJob, Sheet};

/// The features that these sheets ask for.
fn asked_by(alloc: Global, sheets: &[Sheet]) -> Result<List<Feature>, JobRefusal>
    ensures { MatchResult result (λ asked. features_of sheets.now ≡ Ok asked)
        (λ refusal. refusal ≢ JobRefusal.Mem
        → (number : ℕ) × (place : ℕ) × (features_of sheets.now ≡ Err (number, place))
        × (refusal ≡ JobRefusal.TooManyQueries number place)) }
{
    Ok(features(alloc, sheets)?)
}

/// What the bytes of a job file say, which are read as this.
fn file_of(alloc: Global, bytes: &[u8], raw: RawJob) -> Result<JobFile, JobRefusal>
    requires { IsWithinLimits (raw_of raw) }
    ensures { MatchResult result (IsFileOf (Ok (raw_of raw)) bytes.now)
        (λ refusal. refusal ≢ JobRefusal.Mem → IsRefusedCss raw.css refusal) }
{
    let sheets = all_sheets(alloc, raw.css.as_slice())?;
    let features = asked_by(alloc, sheets.as_slice())?;
    let digest = Sha256::digest(bytes);
    Ok(JobFile {
        digest,
        raw,
        sheets,
        features,
    })
}

/// What the bytes of a job file say.
pub(crate) fn read_file(alloc: Global, bytes: &[u8]) -> Result<JobFile, JobRefusal>
    ensures { MatchResult result (IsFileOf (raw_job bytes.now) bytes.now)
        (λ refusal. refusal ≢ JobRefusal.Mem → IsUnread (raw_job bytes.now) refusal) }
{
    let raw = read_job(alloc, bytes)?;
    file_of(alloc, bytes, raw)
}

/// What the bytes of a job file say under another assertion.
pub(crate) fn read_file_with(
    alloc: Global,
    bytes: &[u8],
    assertion: &str,
) -> Result<JobFile, JobRefusal>
    ensures { MatchResult result (IsFileOf (raw_job_with assertion.now bytes.now) bytes.now)
        (λ refusal. refusal ≢ JobRefusal.Mem
        → IsUnread (raw_job_with assertion.now bytes.now) refusal) }
{
    let raw = read_job_with(alloc, bytes, assertion)?;
    file_of(alloc, bytes, raw)
}
