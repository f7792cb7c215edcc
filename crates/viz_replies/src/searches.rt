//! Searches of the jobs of all parts.
ghost use Rattle.std.specs.Prelude.{◌≡◌, ◌≤◌, ◌<◌, length, IfOk};
ghost use Rattle.viz_replies.specs.Replies.{part_most};
ghost use Rattle.viz_replies.specs.steps.Searches.{IsSearch, IsStep};
ghost use Rattle.prove_search.specs.Outcomes.{plain_most};

use crate::checks::CERT_MOST;
use prove_search::{Outcome, prove_within};
use std::alloc::Global;
use viz_base::{Job, Mem, Rect, World};

/// What a search of all parts comes to.
#[derive(Drop)]
pub enum Found {
    /// All are proved by certificates of these texts, one behind another.
    Proved(Vec<u8>),
    /// The formula of a part is false at a world.
    Violated(World),
    /// A rectangle of a part, of a job of this form, is open yet.
    Undecided(u8, Rect),
}

/// How many bytes a certificate of one of so many parts may have.
pub fn part_most(parts: usize) -> u64
    requires some { 0 < parts }
    requires few { parts ≤ 12 }
    ensures given { result ≡ part_most parts }
    ensures enough { plain_most ≤ result }
{
    CERT_MOST as u64 / parts as u64
}

/// Searches the job of a part, and puts the text of its certificate behind those of the parts before it; or why there
/// is none.
pub fn search_part(
    alloc: Global,
    job: &Job,
    turns: u64,
    most: u64,
    texts: &mut Vec<u8>,
) -> Result<Option<Found>, Mem>
    requires { plain_most ≤ most }
    ensures { IfOk result (IsStep turns most job.now texts.old.items texts.new.items) }
{
    match prove_within(alloc, job, turns, most)? {
        Outcome::Proved(text) => {
            texts.extend_from_slice(text.as_slice())?;
            Ok(None)
        }
        Outcome::Violated(world) => Ok(Some(Found::Violated(world))),
        Outcome::Undecided(part) => Ok(Some(Found::Undecided(job.form, part))),
    }
}

/// Searches the jobs of all parts, each with so many turns, up to the first that is not proved.
pub fn search(alloc: Global, jobs: &[Job], turns: u64) -> Result<Found, Mem>
    requires some { 0 < length jobs.now }
    requires few { length jobs.now ≤ 12 }
    ensures { IfOk result (IsSearch turns jobs.now) }
{
    let most = part_most(jobs.len());
    let mut texts = Vec::new(alloc);
    for job in jobs {
        if let Some(end) = search_part(alloc, job, turns, most, &mut texts)? {
            return Ok(end);
        }
    }
    Ok(Found::Proved(texts))
}
