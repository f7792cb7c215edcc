//! What is said of each width about the formulas of several jobs.
ghost use Rattle.std.specs.Prelude.{◌≡◌, ◌+◌, [], ◌∷◌, length, replicate, IfOk};
ghost use Rattle.std.specs.List.{AllByRecursion};
ghost use Rattle.viz_base.specs.Jobs.{IsRange};
ghost use Rattle.viz_base.specs.declared.jobs.Job.{Job};
ghost use Rattle.viz_replies.specs.Parts.{are_true_at};
ghost use Rattle.viz_tables.specs.Words.{AreLinesOf, AreRight, both, undecided_line};
ghost use Rattle.viz_tables.specs.Joins.{both_words};

use crate::lining::joined;
use crate::sweep::{push_words, words_of};
use crate::words::{Line, Word};
use std::alloc::Global;
use viz_base::{Job, List, Mem, Rect};

/// What is said of an assertion that consists of two.
fn both(a: Word, b: Word) -> Word
    ensures { result ≡ both a b }
{
    match (a, b) {
        (Word::Fails, _) | (_, Word::Fails) => Word::Fails,
        (Word::Holds, Word::Holds) => Word::Holds,
        _ => Word::Undecided,
    }
}

/// What is said of each width about an assertion that consists of two.
fn both_words(alloc: Global, a: &[Word], b: &[Word]) -> Result<List<Word>, Mem>
    requires { length a.now ≡ length b.now }
    ensures { IfOk result (λ words. words ≡ both_words a.now b.now) }
{
    let mut words = List::new(alloc);
    for at in 0..a.len() {
        words.push(both(a[at], b[at]))?;
    }
    Ok(words)
}

/// What is said of so many widths about no formula.
fn true_words(alloc: Global, count: u32) -> Result<List<Word>, Mem>
    ensures { IfOk result (λ words. words ≡ replicate count Word.Holds) }
{
    let mut words = List::new(alloc);
    push_words(&mut words, Word::Holds, count)?;
    Ok(words)
}

/// What is said of each width of a range about the formulas of jobs over it.
fn all_words(alloc: Global, jobs: Vec<Job>, range: Rect, turns: u64) -> Result<List<Word>, Mem>
    requires ranges { AllByRecursion (λ (job : Job). job.range ≡ range) jobs.items }
    requires range { IsRange range }
    ensures count { IfOk result (λ words. range.wl + length words ≡ range.wh + 1) }
    ensures right { IfOk result (AreRight range (are_true_at jobs.items) turns range.wl) }
{
    let mut jobs = jobs;
    match jobs.pop() {
        None => true_words(alloc, range.wh - range.wl + 1),
        Some(job) => {
            let own = words_of(alloc, job, turns)?;
            let others = all_words(alloc, jobs, range, turns)?;
            both_words(alloc, others.as_slice(), own.as_slice())
        }
    }
}

/// The line that says of all widths of a range that the turns did not tell.
fn undecided(alloc: Global, range: Rect) -> Result<List<Line>, Mem>
    ensures { IfOk result (λ lines. lines ≡ undecided_line range ∷ []) }
{
    let mut lines = List::new(alloc);
    lines.push(Line {
        wl: range.wl,
        wh: range.wh,
        word: Word::Undecided,
    })?;
    Ok(lines)
}

/// What is said of the widths of a range about the formulas of jobs over it, in lines from the least width on.
///
/// A line says that all formulas are true at each world of its widths, or that at each of its widths one is false at a
/// world, or that the turns did not tell, which comes only where there are fewer than two a world of one width, less
/// one. With no turns there is one line. The only fault is want of memory.
pub fn lines_of(alloc: Global, jobs: List<Job>, range: Rect, turns: u64) -> Result<List<Line>, Mem>
    requires range { IsRange range }
    requires ranges { AllByRecursion (λ (job : Job). job.range ≡ range) jobs }
    ensures lines { IfOk result (AreLinesOf range (are_true_at jobs) turns) }
    ensures unturned { turns ≡ 0 → IfOk result (λ lines. lines ≡ undecided_line range ∷ []) }
{
    if turns == 0 {
        return undecided(alloc, range);
    }
    let words = all_words(alloc, jobs.into_vec(), range, turns)?;
    joined(alloc, words.as_slice(), range.wl)
}
