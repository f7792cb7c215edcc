//! The widths of a range from one on of which the same is said.
ghost use Rattle.std.specs.Prelude.{◌≡◌, ◌≤◌, ◌<◌, ℕ, false, IfOk, IfSome};
ghost use Rattle.viz_base.specs.Worlds.{IsInRange};
ghost use Rattle.cert_check.specs.Truths.{is_true_at};
ghost use Rattle.viz_tables.specs.Searches.{IsFound, IsSought, IsStretch, IsTried, at_width, found_of, left_open, part_of};

use crate::words::Word;
use cert_check::holds_at;
use prove_search::{Outcome, prove_within};
use std::alloc::Global;
use viz_base::{Job, Mem, Rect, World, middle};

/// The most bytes of a certificate that a search may find; none is kept.
const MOST_BYTES: u64 = 67_108_864;

/// The widths up to that of a world of which the same is said. Where it fails, it does so at the world's size and
/// height.
#[derive(Clone, Copy)]
pub(crate) struct Stretch {
    pub end: World,
    pub word: Word,
}

/// What comes of a try to say the same of widths.
#[derive(Clone, Copy)]
pub(crate) enum Tried {
    Found(Stretch),
    /// They are too many: a try up to the width of this world is next.
    Shorter(World),
}

/// What a search over widths found.
#[derive(Clone, Copy)]
pub(crate) enum Found {
    /// The formula is true at each of their worlds.
    True,
    /// It is false at this one.
    FalseAt(World),
    /// The turns did not do.
    Open,
}

/// The turns for a search over so many widths: two a width for each turn that is given.
fn turns_for(turns: u64, widths: u32) -> u64
    ensures { turns ≤ result }
{
    let many = turns.saturating_mul(2 * u64::from(widths));
    many.max(turns)
}

/// Searches over the widths of a job's range from one to another.
fn search(alloc: Global, job: &mut Job, wl: u32, wh: u32, turns: u64) -> Result<Outcome, Mem>
    requires least { job.old.range.wl ≤ wl }
    requires widths { wl ≤ wh }
    requires most { wh ≤ job.old.range.wh }
    ensures same { job.new ≡ job.old }
    ensures found { IfOk result (IsFound job.old (part_of job.old.range wl wh) turns) }
{
    let whole = job.range;
    job.range = Rect {
        wl,
        wh,
        sl: whole.sl,
        sh: whole.sh,
        hl: whole.hl,
        hh: whole.hh,
    };
    let outcome = prove_within(alloc, job, turns, MOST_BYTES);
    job.range = whole;
    outcome
}

/// What an outcome tells beside its certificate.
fn found_of(outcome: Outcome) -> Found
    ensures { result ≡ found_of outcome }
{
    match outcome {
        Outcome::Proved(_) => Found::True,
        Outcome::Violated(world) => Found::FalseAt(world),
        Outcome::Undecided(_) => Found::Open,
    }
}

/// What a search over the widths of a job's range from one to another finds.
fn sought(alloc: Global, job: &mut Job, wl: u32, wh: u32, turns: u64) -> Result<Found, Mem>
    requires least { job.old.range.wl ≤ wl }
    requires widths { wl ≤ wh }
    requires most { wh ≤ job.old.range.wh }
    ensures same { job.new ≡ job.old }
    ensures found { IfOk result (IsSought job.old (part_of job.old.range wl wh) turns) }
{
    let outcome = search(alloc, job, wl, wh, turns)?;
    Ok(found_of(outcome))
}

/// The first of the widths from `first` to that of a world at all of which a job's formula is false, at the world's
/// size and height.
fn fails_from(alloc: Global, job: &Job, world: World, first: u32) -> Result<u32, Mem>
    requires inside { IsInRange job.now.range world }
    requires untrue { is_true_at job.now world ≡ false }
    requires range { job.now.range.wl ≤ first }
    requires least { first ≤ world.w }
    ensures bounds { IfOk result (λ w. (first ≤ w) × (w ≤ world.w)) }
    ensures untrue { IfOk result (λ w. is_true_at job.now (at_width w world) ≡ false) }
{
    let mut w = world.w;
    while w > first {
        let before = World {
            w: w - 1,
            s: world.s,
            h: world.h,
        };
        if holds_at(alloc, job, before)? {
            return Ok(w);
        }
        w -= 1;
    }
    Ok(w)
}

/// The last of the widths from that of a world on at all of which a job's formula is false, at the world's size and
/// height.
fn fails_to(alloc: Global, job: &Job, world: World) -> Result<u32, Mem>
    requires inside { IsInRange job.now.range world }
    requires untrue { is_true_at job.now world ≡ false }
    ensures bounds { IfOk result (λ w. (world.w ≤ w) × (w ≤ job.now.range.wh)) }
    ensures untrue { IfOk result (λ w. (x : ℕ) → world.w ≤ x → x ≤ w
        → is_true_at job.now (at_width x world) ≡ false) }
{
    let mut w = world.w;
    while w < job.range.wh {
        let behind = World {
            w: w + 1,
            s: world.s,
            h: world.h,
        };
        if holds_at(alloc, job, behind)? {
            return Ok(w);
        }
        w += 1;
    }
    Ok(w)
}

/// The widths from that of a world on at which a job's formula fails as it does there.
fn failing(alloc: Global, job: &Job, world: World, turns: u64) -> Result<Stretch, Mem>
    requires inside { IsInRange job.now.range world }
    requires untrue { is_true_at job.now world ≡ false }
    ensures { IfOk result (IsStretch job.now turns world.w) }
{
    let last = fails_to(alloc, job, world)?;
    Ok(Stretch {
        end: World {
            w: last,
            s: world.s,
            h: world.h,
        },
        word: Word::Fails,
    })
}

/// What comes of a violation at a world, in a try from a width on.
fn violated(alloc: Global, job: &Job, w: u32, world: World, turns: u64) -> Result<Tried, Mem>
    requires inside { IsInRange job.now.range world }
    requires untrue { is_true_at job.now world ≡ false }
    requires range { job.now.range.wl ≤ w }
    requires least { w ≤ world.w }
    ensures { IfOk result (IsTried job.now turns w world) }
{
    let first = fails_from(alloc, job, world, w)?;
    if first == w {
        let start = World {
            w,
            s: world.s,
            h: world.h,
        };
        return Ok(Tried::Found(failing(alloc, job, start, turns)?));
    }
    Ok(Tried::Shorter(World {
        w: first - 1,
        s: world.s,
        h: world.h,
    }))
}

/// What comes of a search that left widths open, from one on up to that of a world.
fn left_open(w: u32, end: World) -> Tried
    requires { w ≤ end.w }
    ensures { result ≡ left_open w end }
{
    if w == end.w {
        Tried::Found(Stretch {
            end,
            word: Word::Undecided,
        })
    } else {
        Tried::Shorter(World {
            w: middle(w, end.w),
            s: end.s,
            h: end.h,
        })
    }
}

/// Tries to say the same of the widths of a job's range from one on up to that of a world.
fn attempt(alloc: Global, job: &mut Job, w: u32, end: World, turns: u64) -> Result<Tried, Mem>
    requires end { IsInRange job.old.range end }
    requires range { job.old.range.wl ≤ w }
    requires least { w ≤ end.w }
    ensures same { job.new ≡ job.old }
    ensures tried { IfOk result (IsTried job.old turns w end) }
{
    let many = turns_for(turns, end.w - w + 1);
    let found = sought(alloc, job, w, end.w, many)?;
    match found {
        Found::True => Ok(Tried::Found(Stretch {
            end,
            word: Word::Holds,
        })),
        Found::FalseAt(world) => violated(alloc, job, w, world, turns),
        Found::Open => Ok(left_open(w, end)),
    }
}

/// The first of two worlds at which a job's formula is false.
fn first_false(alloc: Global, job: &Job, a: World, b: World) -> Result<Option<World>, Mem>
    requires first { IsInRange job.now.range a }
    requires second { IsInRange job.now.range b }
    requires width { a.w ≡ b.w }
    ensures { IfOk result (λ found. IfSome found
        (λ world. IsInRange job.now.range world × (world.w ≡ a.w)
        × (is_true_at job.now world ≡ false))) }
{
    if !holds_at(alloc, job, a)? {
        return Ok(Some(a));
    }
    if !holds_at(alloc, job, b)? {
        return Ok(Some(b));
    }
    Ok(None)
}

/// The widths from that of a world on of which the same is said, up to that of another.
fn searched(alloc: Global, job: &mut Job, start: World, turns: u64) -> Result<Stretch, Mem>
    requires { IsInRange job.old.range start }
    ensures same { job.new ≡ job.old }
    ensures stretch { IfOk result (IsStretch job.old turns start.w) }
{
    let mut end = World {
        w: job.range.wh,
        s: start.s,
        h: start.h,
    };
    loop {
        match attempt(alloc, job, start.w, end, turns)? {
            Tried::Found(stretch) => return Ok(stretch),
            Tried::Shorter(other) => end = other,
        }
    }
}

/// The widths from that of a world on of which the same is said.
///
/// A layout at the world's size and height comes first, and one at the greatest: where a stretch of widths fails, it
/// does mostly so up to the width at which the greatest size does not.
pub(crate) fn next(alloc: Global, job: &mut Job, start: World, turns: u64) -> Result<Stretch, Mem>
    requires { IsInRange job.old.range start }
    ensures same { job.new ≡ job.old }
    ensures stretch { IfOk result (IsStretch job.old turns start.w) }
{
    let greatest = World {
        w: start.w,
        s: job.range.sh,
        h: job.range.hh,
    };
    match first_false(alloc, job, start, greatest)? {
        Some(world) => failing(alloc, job, world, turns),
        None => searched(alloc, job, start, turns),
    }
}
