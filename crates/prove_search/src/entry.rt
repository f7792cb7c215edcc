//! Proves a job with a number of turns: by the search where its finding is confirmed, else by halves and grids.
ghost use Rattle.std.specs.Prelude.{◌≡◌, ◌*◌, ◌+◌, ◌^◌, ◌≤◌, IfOk};
ghost use Rattle.viz_base.specs.Worlds.{world_count};
ghost use Rattle.cert_check.specs.Truths.{Holds};
ghost use Rattle.prove_search.specs.Outcomes.{IsOutcome, Decides, plain_most};
ghost use Rattle.prove_search.specs.declared.outcome.Outcome.TheVariants.{Undecided};

use crate::gates::{MOST_BYTES, confirmed};
use crate::outcome::Outcome;
use crate::plain::prove_plainly;
use path_search::seek;
use std::alloc::Global;
use viz_base::{Job, Mem};

/// A certificate of a job, whose text has at most `most` bytes, or a world of its range at which its formula is false,
/// or a part of the range that the turns left open.
///
/// With turns it searches first, and takes what the search finds only where it is confirmed: a certificate where the
/// checker accepts it. Else it goes through the range by halves and grids with all turns, which decides it with
/// `2 * R - 1` turns, R being the worlds of the range. Where R is at most 64, one turn decides, and a certificate is
/// one grid. With no turn the whole range is open. The only fault is want of memory.
#[tactic(auto, using(crate::proofs::Lemmas::with_more))]
pub fn prove_within(alloc: Global, job: &Job, turns: u64, most: u64) -> Result<Outcome, Mem>
    requires enough { plain_most ≤ most }
    ensures outcome { IfOk result (IsOutcome job.now turns most) }
    ensures decides { IfOk result
        (λ outcome. 2 * world_count job.now.range ≤ turns + 1 → Decides outcome (Holds job.now)) }
    ensures unturned { turns ≡ 0 → IfOk result (λ outcome. outcome ≡ Undecided job.now.range) }
{
    if turns > 0 {
        let finding = seek(alloc, job, turns)?;
        if let Some(outcome) = confirmed(alloc, job, finding, turns, most)? {
            return Ok(outcome);
        }
    }
    prove_plainly(alloc, job, turns)
}

/// A certificate of a job, or a world of its range at which its formula is false, or a part of the range that the
/// turns left open: `prove_within` 64 MiB.
pub fn prove(alloc: Global, job: &Job, turns: u64) -> Result<Outcome, Mem>
    ensures outcome { IfOk result (IsOutcome job.now turns (2 ^ 26)) }
    ensures decides { IfOk result
        (λ outcome. 2 * world_count job.now.range ≤ turns + 1 → Decides outcome (Holds job.now)) }
    ensures unturned { turns ≡ 0 → IfOk result (λ outcome. outcome ≡ Undecided job.now.range) }
{
    prove_within(alloc, job, turns, MOST_BYTES)
}
