//! The search by halves and grids, which decides every job with enough turns.
ghost use Rattle.std.specs.Prelude.{◌≡◌, ◌*◌, ◌+◌, ◌<◌, ◌≤◌, IsTrue, IfOk};
ghost use Rattle.cert_text.specs.declared.certificate.CertNode.TheVariants.{Split};
ghost use Rattle.cert_text.specs.Texts.{job_has_text};
ghost use Rattle.viz_base.specs.Rectangles.{IsProper, IsWithin};
ghost use Rattle.viz_base.specs.Worlds.{world_count};
ghost use Rattle.cert_check.specs.Truths.{Holds};
ghost use Rattle.prove_search.specs.steps.Finds.{IsFinding};
ghost use Rattle.cert_semantics.specs.Units.{row_up_to};
ghost use Rattle.prove_search.specs.Outcomes.{IsOutcome, Decides, plain_most};
ghost use Rattle.prove_search.specs.declared.outcome.Outcome.TheVariants.{Undecided};

use crate::outcome::Outcome;
use cert_check::first_untrue;
use cert_semantics::variable_of;
use cert_text::{Cert, CertNode, write_cert};
use lin_proof::Row;
use std::alloc::Global;
use viz_base::{Axis, Boxed, Job, Mem, Rect, World, halves_of, world_count};

/// The most worlds of a part that is gone through.
pub const MOST_WORLDS: u64 = 64;

/// A rectangle that is decided: the formula is true at each of its worlds.
#[derive(Drop)]
pub struct Closed {
    /// The node that decides it.
    pub node: CertNode,
    /// The turns that are left.
    pub left: u64,
}

/// Why a rectangle is not closed.
#[derive(Drop)]
pub enum Stop {
    /// Want of memory, and nothing else.
    Mem,
    /// The formula is false at this world of the rectangle.
    Violated(World),
    /// The turns did not do; this part of the rectangle is open yet.
    Undecided(Rect),
}

impl From<Mem> for Stop {
    ghost use Rattle.std.specs.Prelude.{◌≡◌};
    ghost use Rattle.prove_search.specs.declared.plain.Stop.TheVariants.{Mem};

    ghost from_gives = { λ _ stop. stop ≡ Mem };

    fn from(_: Mem) -> Self {
        Stop::Mem
    }
}

/// Goes through a rectangle's worlds in one turn.
fn close(alloc: Global, job: &Job, rect: Rect, turns: u64) -> Result<Closed, Stop>
    requires within { IsWithin job.now.range rect }
    requires proper { IsProper rect }
    requires small { world_count rect ≤ 64 }
    requires turn { 0 < turns }
    ensures { IsFinding job.now rect turns result }
{
    match first_untrue(alloc, job, rect)? {
        Some(world) => Err(Stop::Violated(world)),
        None => Ok(Closed {
            node: CertNode::Grid,
            left: turns - 1,
        }),
    }
}

/// The node that is decided by the first where a world is at most the middle on an axis, and by the second where it is
/// above.
fn split(
    alloc: Global,
    axis: Axis,
    middle: u32,
    first: CertNode,
    second: CertNode,
) -> Result<CertNode, Mem>
    ensures { IfOk result (λ node. node ≡ Split (row_up_to axis middle) first second) }
{
    let first = Boxed::new(alloc, first)?;
    let second = Boxed::new(alloc, second)?;
    let row = Row::of_term(alloc, i128::from(middle), variable_of(axis), -1)?;
    let row = Boxed::new(alloc, row)?;
    Ok(CertNode::Split(row, first, second))
}

/// Decides a rectangle: one of at most 64 worlds in one turn, a greater one by its halves after a turn for the split.
fn decide(alloc: Global, job: &Job, rect: Rect, turns: u64) -> Result<Closed, Stop>
    requires within { IsWithin job.now.range rect }
    requires proper { IsProper rect }
    ensures { IsFinding job.now rect turns result }
{
    if turns == 0 {
        return Err(Stop::Undecided(rect));
    }
    if world_count(rect) <= MOST_WORLDS {
        return close(alloc, job, rect, turns);
    }
    let halves = halves_of(rect);
    let first = decide(alloc, job, halves.first, turns - 1)?;
    // Turns that the first half leaves go to the second, so 2R - 1 turns do.
    let second = decide(alloc, job, halves.second, first.left)?;
    let node = split(alloc, halves.axis, halves.middle, first.node, second.node)?;
    Ok(Closed {
        node,
        left: second.left,
    })
}

/// The certificate of form 1 that names a job by its digest and decides its whole range by a node. A digest has a
/// spelling.
fn certificate(digest: &[u8; 32], root: CertNode) -> Cert
    ensures parts { result ≡ record { form = 1; job = digest.now; root = root } }
    ensures spelled { IsTrue (job_has_text digest.now) }
{
    // This read tells that they are bytes.
    let _bytes = digest.as_slice();
    Cert {
        form: 1,
        job: *digest,
        root,
    }
}

/// Searches by halves and grids for a certificate of a job, or for a world of its range at which its formula is false.
///
/// A turn takes one part of the range that is open yet, the whole range first. A part of at most 64 worlds
/// is gone through, a greater one is halved on a longest side. With R worlds in the range,
/// `2 * R - 1` turns decide, and one does where R is at most 64. With less than a turn for each 64 worlds the whole
/// range is open, and nothing is gone through. Each world takes at most two layouts of the page and two
/// truths of the formula. The only fault is want of memory.
pub fn prove_plainly(alloc: Global, job: &Job, turns: u64) -> Result<Outcome, Mem>
    ensures outcome { IfOk result (IsOutcome job.now turns plain_most) }
    ensures decides { IfOk result
        (λ outcome. 2 * world_count job.now.range ≤ turns + 1 → Decides outcome (Holds job.now)) }
    ensures unturned { turns ≡ 0 → IfOk result (λ outcome. outcome ≡ Undecided job.now.range) }
{
    // So few turns never come to an end, and a turn takes as long as 64 layouts.
    if world_count(job.range) > MOST_WORLDS.saturating_mul(turns) {
        return Ok(Outcome::Undecided(job.range));
    }
    match decide(alloc, job, job.range, turns) {
        Ok(closed) => {
            let cert = certificate(&job.digest, closed.node);
            Ok(Outcome::Proved(write_cert(alloc, &cert)?))
        }
        Err(Stop::Violated(world)) => Ok(Outcome::Violated(world)),
        Err(Stop::Undecided(rect)) => Ok(Outcome::Undecided(rect)),
        Err(Stop::Mem) => Err(Mem),
    }
}
