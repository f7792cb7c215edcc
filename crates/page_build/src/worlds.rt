//! The job at one width and size.
ghost use Rattle.std.specs.Prelude.{◌≡◌, ◌≢◌, IfOk, MatchResult};
ghost use Rattle.page_json.specs.Jobs.{raw_of};
ghost use Rattle.page_media.specs.Queries.{is_met, met_sheets};
ghost use Rattle.page_build.specs.Jobs.{IsBuiltAt, IsJobAt, IsNotBuiltAt, IsRefusedAt};
ghost use Rattle.page_build.specs.Seen.{IsAsked};

use crate::building::{job_with, laid_under};
use crate::faults::JobRefusal;
use crate::files::JobFile;
use crate::formulas::formula_of;
use crate::reading::read_file;
use page_media::{chosen, chosen_are_met, features_are_all, signs};
use std::alloc::Global;
use viz_base::{Job, List, Mem, Sheet, World};

/// The sheets of a file with their rules that are met at a width and a size.
fn met_at(alloc: Global, file: &JobFile, w: u32, s: u32) -> Result<List<Sheet>, Mem>
    requires { IsAsked file.now }
    ensures { IfOk result (λ sheets. sheets ≡ met_sheets (is_met w s) file.now.sheets.items) }
{
    features_are_all();
    chosen_are_met();
    let signs = signs(alloc, &file.features, &World { w, s, h: 0 })?;
    chosen(alloc, file.sheets.as_slice(), &file.features, &signs)
}

/// The job of a file at a width and a size.
fn job_at(alloc: Global, file: &JobFile, w: u32, s: u32) -> Result<Job, JobRefusal>
    requires { IsAsked file.now }
    ensures given { MatchResult result (IsBuiltAt (raw_of file.now.raw) w s)
        (λ refusal. refusal ≢ JobRefusal.Mem → IsNotBuiltAt (raw_of file.now.raw) w s refusal) }
    ensures digest { IfOk result (λ job. job.digest ≡ file.now.digest) }
{
    let raw = &file.raw;
    let sheets = met_at(alloc, file, w, s)?;
    let laid = laid_under(alloc, raw, sheets.as_slice())?;
    let formula = formula_of(alloc, raw.formula.as_str(), &raw.page, laid.from.as_slice())?;
    Ok(job_with(file, laid, formula))
}

/// The job that the bytes of a job file spell at a viewport's width and a default font size, in pixels: its page with
/// its generated content, laid into boxes by the rules of its style sheets that are met there, behind the default one
/// (CSS 2.1, chapters 4 to 6, 9.2, 12.1; Media Queries 3), the worlds, and the assertion as it is written. Lengths are
/// in units of 1/64 px. The digest is SHA-256 of the bytes. The strings of the assertion are matched on the page as it
/// is written.
///
/// The refusal is that of the first of these that refuses: the file, its style sheets by number, the count of features
/// that they ask for, the selectors, the values that win at the nodes, at their `:before` and at their `:after`, the
/// amount of generated content, the boxes, the assertion. `Mem` is for want of memory; no clause says when, nor which
/// of these come before it.
pub fn build_at(alloc: Global, bytes: &[u8], w: u32, s: u32) -> Result<Job, JobRefusal>
    ensures { MatchResult result (IsJobAt bytes.now w s)
        (λ refusal. refusal ≢ JobRefusal.Mem → IsRefusedAt bytes.now w s refusal) }
{
    let file = read_file(alloc, bytes)?;
    job_at(alloc, &file, w, s)
}
