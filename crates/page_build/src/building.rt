//! What the rules of some sheets make of a job's page.
ghost use Rattle.std.specs.Prelude.{◌≡◌, ◌≢◌, ◌+◌, true, length, IfOk, MatchResult, Ok, List as Seq};
ghost use Rattle.css_semantics.specs.Winners.{AreWinners};
ghost use Rattle.viz_base.specs.Formulas.{has_small_terms, is_bound_in};
ghost use Rattle.page_json.specs.Jobs.{IsWithinLimits, raw_of};
ghost use Rattle.page_pseudo.specs.Growth.{growth_of};
ghost use Rattle.page_build.specs.Jobs.{HasGrowth, IsRefusedPage, IsRefusedTree, texts_of};
ghost use Rattle.page_build.specs.Seen.{IsLaid, IsJobWith};

use crate::content::grown_under;
use crate::faults::JobRefusal;
use crate::files::JobFile;
use crate::sheets::all_texts;
use crate::trees::tree_of;
use page_pseudo::Grown;
use std::alloc::Global;
use viz_base::{BoxTree, Formula, Job, List, RawJob, Sheet};

/// The boxes of a page with its generated content, and the number of each of its nodes on the page as it is written.
#[derive(Drop)]
pub(crate) struct Laid {
    pub tree: BoxTree,
    pub from: List<Option<u32>>,
}

/// The page of what a file says, with its generated content, under these sheets.
fn grown_of(alloc: Global, raw: &RawJob, sheets: &[Sheet]) -> Result<Grown, JobRefusal>
    requires { length sheets.now ≡ length raw.now.css + 1 }
    ensures given { MatchResult result
        (λ g. HasGrowth raw.now.page.nodes (texts_of (raw_of raw.now)) sheets.now
        (Ok (growth_of g))) (λ refusal. refusal ≢ JobRefusal.Mem
        → IsRefusedPage raw.now.page.nodes (texts_of (raw_of raw.now)) sheets.now refusal) }
    ensures lists { IfOk result (λ g. AreWinners g.page.nodes g.cascaded.winners) }
{
    let texts = all_texts(alloc, raw.css.as_slice())?;
    grown_under(alloc, &raw.page, texts.as_slice(), sheets)
}

/// The boxes of what a file says, under these sheets.
pub(crate) fn laid_under(alloc: Global, raw: &RawJob, sheets: &[Sheet]) -> Result<Laid, JobRefusal>
    requires within { IsWithinLimits (raw_of raw.now) }
    requires sheets { length sheets.now ≡ length raw.now.css + 1 }
    ensures { MatchResult result (IsLaid (raw_of raw.now) sheets.now)
        (λ refusal. refusal ≢ JobRefusal.Mem → IsRefusedTree (raw_of raw.now) sheets.now refusal) }
{
    let grown = grown_of(alloc, raw, sheets)?;
    let tree = tree_of(alloc, &grown, &raw.fonts)?;
    Ok(Laid {
        tree,
        from: grown.from,
    })
}

/// The job of a file with these boxes and this assertion.
pub(crate) fn job_with(file: &JobFile, laid: Laid, formula: Formula) -> Job
    requires laid { (sheets : Seq Sheet) × IsLaid (raw_of file.now.raw) sheets laid }
    requires bound { is_bound_in formula 0 ≡ true }
    requires small { has_small_terms formula ≡ true }
    ensures { IsJobWith file.now laid.tree formula result }
{
    let raw = &file.raw;
    Job {
        digest: file.digest,
        form: raw.form,
        range: raw.range,
        tree: laid.tree,
        formula,
    }
}
