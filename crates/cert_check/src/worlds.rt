//! The truth of a job's formula at one world, and the first world of a rectangle at which it is false.
ghost use Rattle.std.specs.Prelude.{◌≡◌, IsTrue, IfOk, MatchOption};
ghost use Rattle.viz_base.specs.Formulas.{has_small_terms};
ghost use Rattle.viz_base.specs.Worlds.{IsInRange};
ghost use Rattle.viz_base.specs.Rectangles.{IsWithin};
ghost use Rattle.logic_semantics.specs.Ranges.{holds_at as holds_there};
ghost use Rattle.cert_check.specs.Truths.{is_true_at, rendering_of, IsTrueIn, IsFirstUntrueIn};

use crate::look::{Look, first_world};
use crate::narrow::Narrow;
use crate::truths::truth_over;
use lay_flow::render_at;
use std::alloc::Global;
use vis_truth::{conclusion, truth};
use viz_base::{Formula, Job, Mem, Rect, World};
use viz_calc::{Halt, Plain};

/// Whether a formula with small terms is true of a page's rendering at a world of the job's range.
fn laid_out_at(job: &Job, f: &Formula, world: World) -> Result<bool, Mem>
    requires in_range { IsInRange job.now.range world }
    requires small { IsTrue (has_small_terms f.now) }
    ensures { IfOk result (λ yes. yes ≡ holds_there (rendering_of job.now) f.now world) }
{
    let rendering = render_at(world, &job.tree)?;
    let mut calc = Plain::new(world);
    match truth(&mut calc, f, &rendering) {
        Ok(yes) => Ok(yes),
        Err(_) => unreachable!(),
    }
}

/// Whether a job's formula is true of its page's rendering at a world of the job's range, by numbers of 128 bits.
fn exactly_at(alloc: Global, job: &Job, world: World) -> Result<bool, Mem>
    requires in_range { IsInRange job.now.range world }
    ensures { IfOk result (λ yes. yes ≡ is_true_at job.now world) }
{
    let mut calc = Plain::new(world);
    match conclusion(alloc, &mut calc, &job.formula) {
        Ok(Some(left)) => laid_out_at(job, left, world),
        Ok(None) => Ok(true),
        Err(_) => unreachable!(),
    }
}

/// Whether a job's formula is true of its page's rendering at a world of the job's range.
///
/// It lays the page out once, or again where 64 bits are too few for its numbers, and not at all where a premise is
/// false that asks for no box, and copies nothing of the job. The only fault is want of memory.
pub fn holds_at(alloc: Global, job: &Job, world: World) -> Result<bool, Mem>
    requires in_range { IsInRange job.now.range world }
    ensures { IfOk result (λ yes. yes ≡ is_true_at job.now world) }
{
    match truth_over(alloc, &mut Narrow::new(world), job) {
        Ok(answer) => Ok(answer),
        Err(Halt::Mem) => Err(Mem),
        Err(_) => exactly_at(alloc, job, world),
    }
}

/// The test whether a job's formula is false at a world.
#[derive(Drop)]
struct Untrue<'a> {
    alloc: Global,
    job: &'a Job,
}

impl Look for Untrue<'_> {
    ghost use Rattle.cert_check.specs.steps.Worlds.{is_untrue};

    ghost range = { λ look. look.job.now.range };

    ghost passes = { λ look. is_untrue look.job.now };

    fn passes(&self, world: World) -> Result<bool, Mem> {
        Ok(!holds_at(self.alloc, self.job, world)?)
    }
}

/// The first world of a rectangle in a job's range, by width, then by size, and then by height, at which the formula is
/// false; None where it is true at each. The only fault is want of memory.
pub fn first_untrue(alloc: Global, job: &Job, rect: Rect) -> Result<Option<World>, Mem>
    requires within { IsWithin job.now.range rect }
    ensures { IfOk result (λ found. MatchOption found (IsTrueIn job.now rect)
        (IsFirstUntrueIn job.now rect)) }
{
    first_world(&Untrue { alloc, job }, rect)
}
