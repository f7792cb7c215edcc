//! What is said of each width of a range.
ghost use Rattle.std.specs.Prelude.{◌≡◌, ◌+◌, ◌++◌, length, replicate, IfOk, OnOk};
ghost use Rattle.cert_check.specs.Truths.{is_true_at};
ghost use Rattle.viz_tables.specs.Words.{AreRight};

use crate::searching::next;
use crate::words::Word;
use std::alloc::{AllocError, Global};
use viz_base::{Job, List, Mem, World};

/// Says the same of so many more widths.
pub(crate) fn push_words(words: &mut List<Word>, word: Word, count: u32) -> Result<(), AllocError>
    ensures { OnOk result (words.new ≡ words.old ++ replicate count word) }
{
    for _pushed in 0..count {
        words.push(word)?;
    }
    Ok(())
}

/// What is said of each width of a job's range about its formula.
fn swept(alloc: Global, job: &mut Job, turns: u64) -> Result<List<Word>, Mem>
    ensures same { job.new ≡ job.old }
    ensures count { IfOk result (λ words. job.old.range.wl + length words ≡ job.old.range.wh + 1) }
    ensures right { IfOk result (AreRight job.old.range
        (is_true_at job.old) turns job.old.range.wl) }
{
    let mut words = List::new(alloc);
    let mut start = World {
        w: job.range.wl,
        s: job.range.sl,
        h: job.range.hl,
    };
    loop {
        let stretch = next(alloc, job, start, turns)?;
        push_words(&mut words, stretch.word, stretch.end.w - start.w + 1)?;
        if stretch.end.w == job.range.wh {
            return Ok(words);
        }
        start = World {
            w: stretch.end.w + 1,
            s: stretch.end.s,
            h: stretch.end.h,
        };
    }
}

/// What is said of each width of a job's range about its formula.
pub(crate) fn words_of(alloc: Global, job: Job, turns: u64) -> Result<List<Word>, Mem>
    ensures count { IfOk result (λ words. job.range.wl + length words ≡ job.range.wh + 1) }
    ensures right { IfOk result (AreRight job.range (is_true_at job) turns job.range.wl) }
{
    let mut job = job;
    swept(alloc, &mut job, turns)
}
