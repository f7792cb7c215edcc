//! The jobs of the parts of a range.
ghost use Rattle.std.specs.Prelude.{◌≡◌, ◌≢◌, ℕ, true, IfOk, MatchResult, OnOk, Ok, Err};
ghost use Rattle.std.specs.List.{AllByRecursion};
ghost use Rattle.viz_base.specs.Formulas.{has_small_terms, is_bound_in};
ghost use Rattle.vis_read.specs.Texts.{IsFormulaText};
ghost use Rattle.page_json.specs.Jobs.{raw_of};
ghost use Rattle.page_media.specs.Guards.{guarded};
ghost use Rattle.page_media.specs.Parts.{few_parts_of};
ghost use Rattle.page_build.specs.Renumbering.{number_in, renumbered};
ghost use Rattle.page_build.specs.Jobs.{AreBuilt, AreJobsOf, AreJobsWith, AreNotBuilt, AreRefusedAs, AreRefusedWith, ArePartsOf, HaveTrees, IsFirstPartRefused, IsPartOf, IsRefusedTree, chosen_by};
ghost use Rattle.page_build.specs.Seen.{IsAsked, IsLaid};

use crate::building::{Laid, job_with, laid_under};
use crate::faults::JobRefusal;
use crate::files::JobFile;
use crate::formulas::written;
use crate::reading::{read_file, read_file_with};
use crate::renumbering::renumbered;
use page_media::{chosen, guard, parts};
use std::alloc::Global;
use viz_base::{Feature, Formula, Job, List, Mem, Rect};

/// The boxes of the part of a file where the features have these signs.
fn laid_part(alloc: Global, file: &JobFile, signs: &List<bool>) -> Result<Laid, JobRefusal>
    requires { IsAsked file.now }
    ensures { MatchResult result
        (IsLaid (raw_of file.now.raw) (chosen_by file.now.features signs.now file.now.sheets.items))
        (λ refusal. refusal ≢ JobRefusal.Mem → IsRefusedTree (raw_of file.now.raw)
        (chosen_by file.now.features signs.now file.now.sheets.items) refusal) }
{
    let sheets = chosen(alloc, file.sheets.as_slice(), &file.features, signs)?;
    laid_under(alloc, &file.raw, sheets.as_slice())
}

/// Refuses a file with a part that gets no boxes.
fn lay_parts(alloc: Global, file: &JobFile, parts: &[List<bool>]) -> Result<(), JobRefusal>
    requires { IsAsked file.now }
    ensures { MatchResult result (λ _. HaveTrees
        (raw_of file.now.raw) file.now.sheets.items file.now.features parts.now)
        (λ refusal. refusal ≢ JobRefusal.Mem
        → IsFirstPartRefused
        (raw_of file.now.raw) file.now.sheets.items file.now.features parts.now refusal) }
{
    for signs in parts {
        laid_part(alloc, file, signs)?;
    }
    Ok(())
}

/// The assertion where the features have these signs, over a page whose nodes have these numbers where it is written.
fn guarded(
    alloc: Global,
    features: &List<Feature>,
    signs: &List<bool>,
    from: &[Option<u32>],
    formula: &Formula,
) -> Result<Formula, Mem>
    requires bound { is_bound_in formula.now 0 ≡ true }
    requires small { has_small_terms formula.now ≡ true }
    ensures given { IfOk result (λ all. all
        ≡ guarded features.now signs.now (renumbered (number_in from.now) formula.now)) }
    ensures bound { IfOk result (λ all. is_bound_in all 0 ≡ true) }
    ensures small { IfOk result (λ all. has_small_terms all ≡ true) }
{
    let over_grown = renumbered(alloc, from, formula)?;
    guard(alloc, features, signs, over_grown)
}

/// The job of a part, this being the assertion as it is written.
fn part(
    alloc: Global,
    file: &JobFile,
    signs: &List<bool>,
    formula: &Formula,
) -> Result<Job, JobRefusal>
    requires asked { IsAsked file.now }
    requires spelled { IsFormulaText file.now.raw.page.nodes file.now.raw.formula formula.now }
    requires bound { is_bound_in formula.now 0 ≡ true }
    requires small { has_small_terms formula.now ≡ true }
    ensures given { MatchResult result
        (IsPartOf (raw_of file.now.raw) file.now.sheets.items file.now.features signs.now)
        (λ refusal. refusal ≢ JobRefusal.Mem → IsRefusedTree (raw_of file.now.raw)
        (chosen_by file.now.features signs.now file.now.sheets.items) refusal) }
    ensures digest { IfOk result (λ job. job.digest ≡ file.now.digest) }
{
    let laid = laid_part(alloc, file, signs)?;
    let formula = guarded(alloc, &file.features, signs, laid.from.as_slice(), formula)?;
    Ok(job_with(file, laid, formula))
}

/// The jobs of parts, this being the assertion as it is written.
fn all_parts(
    alloc: Global,
    file: &JobFile,
    parts: &[List<bool>],
    formula: &Formula,
) -> Result<List<Job>, JobRefusal>
    requires asked { IsAsked file.now }
    requires spelled { IsFormulaText file.now.raw.page.nodes file.now.raw.formula formula.now }
    requires bound { is_bound_in formula.now 0 ≡ true }
    requires small { has_small_terms formula.now ≡ true }
    ensures given { MatchResult result
        (ArePartsOf (raw_of file.now.raw) file.now.sheets.items file.now.features parts.now)
        (λ refusal. refusal ≢ JobRefusal.Mem
        → IsFirstPartRefused
        (raw_of file.now.raw) file.now.sheets.items file.now.features parts.now refusal) }
    ensures digest { IfOk result (AllByRecursion (λ (job : Job). job.digest ≡ file.now.digest)) }
{
    let mut jobs = List::new(alloc);
    for signs in parts {
        jobs.push(part(alloc, file, signs, formula)?)?;
    }
    Ok(jobs)
}

/// The jobs of the parts of a file. An assertion is refused where each part has its boxes.
fn jobs_of(alloc: Global, file: &JobFile, parts: &[List<bool>]) -> Result<List<Job>, JobRefusal>
    requires asked { IsAsked file.now }
    requires few { few_parts_of file.now.features file.now.raw.range ≡ Ok parts.now }
    ensures given { MatchResult result (AreBuilt (raw_of file.now.raw))
        (λ refusal. refusal ≢ JobRefusal.Mem → AreNotBuilt (raw_of file.now.raw) refusal) }
    ensures digest { IfOk result (AllByRecursion (λ (job : Job). job.digest ≡ file.now.digest)) }
{
    let raw = &file.raw;
    match written(alloc, raw.formula.as_str(), &raw.page) {
        Ok(formula) => all_parts(alloc, file, parts, &formula),
        Err(refusal) => {
            lay_parts(alloc, file, parts)?;
            Err(refusal)
        }
    }
}

/// The parts of a range, by the signs of the features there.
fn parts_of(
    alloc: Global,
    features: &List<Feature>,
    range: &Rect,
) -> Result<List<List<bool>>, JobRefusal>
    ensures { MatchResult result (λ all. few_parts_of features.now range.now ≡ Ok all)
        (λ refusal. refusal ≢ JobRefusal.Mem
        → (count : ℕ) × (few_parts_of features.now range.now ≡ Err count)
        × (refusal ≡ JobRefusal.TooManyParts count)) }
{
    Ok(parts(alloc, features, range)?)
}

/// The jobs of a file.
fn jobs_in(alloc: Global, file: &JobFile) -> Result<List<Job>, JobRefusal>
    requires { IsAsked file.now }
    ensures given { MatchResult result (AreBuilt (raw_of file.now.raw))
        (λ refusal. refusal ≢ JobRefusal.Mem → AreNotBuilt (raw_of file.now.raw) refusal) }
    ensures digest { IfOk result (AllByRecursion (λ (job : Job). job.digest ≡ file.now.digest)) }
{
    let parts = parts_of(alloc, &file.features, &file.raw.range)?;
    jobs_of(alloc, file, parts.as_slice())
}

/// The jobs that the bytes of a job file spell, one for each part of the range: the worlds at which the same of the
/// features are met that the style sheets ask for (Media Queries 3), in the order of the first of these worlds by width
/// and then size. Each is over the whole range, of the rules that are met in its part, with the assertion where the
/// world is one of the part, and true elsewhere. Else it is as `build_at` has it.
///
/// The refusal is that of the first of these that refuses: the file, its style sheets by number, the count of features,
/// the count of parts, which is at most 12, then each part by its selectors, the values that win at the nodes, at their
/// `:before` and at their `:after`, the amount of generated content and the boxes, and then the assertion. `Mem` is for
/// want of memory; no clause says when, nor which of these come before it.
pub fn build_parts(alloc: Global, bytes: &[u8]) -> Result<List<Job>, JobRefusal>
    ensures { MatchResult result (AreJobsOf bytes.now)
        (λ refusal. refusal ≢ JobRefusal.Mem → AreRefusedAs bytes.now refusal) }
{
    let file = read_file(alloc, bytes)?;
    jobs_in(alloc, &file)
}

/// The jobs that the bytes of a job file spell under another assertion: as `build_parts` has it, the text `formula`
/// standing in place of the member `assert`, whether there is one or not, and whatever it is.
///
/// Refusals are those of `build_parts`, but for a `Shape` of `assert`. One of the text itself comes where the file is
/// refused for nothing else.
pub fn build_with(alloc: Global, bytes: &[u8], formula: &str) -> Result<List<Job>, JobRefusal>
    ensures { MatchResult result (AreJobsWith formula.now bytes.now)
        (λ refusal. refusal ≢ JobRefusal.Mem → AreRefusedWith formula.now bytes.now refusal) }
{
    let file = read_file_with(alloc, bytes, formula)?;
    jobs_in(alloc, &file)
}
