//! The worlds for which a grid is rejected: a number of its path is outside `i128` there, or the formula is false.
ghost use Rattle.std.specs.Prelude.{◌≡◌, IfOk, IsTrue};
ghost use Rattle.viz_base.specs.Rectangles.{IsWithin};
ghost use Rattle.cert_check.specs.steps.Worlds.{first_world};
ghost use Rattle.cert_check.specs.steps.Grids.{are_above_zero, is_outside, is_untrue_on};

use crate::descent::Above;
use crate::look::{Look, first_world};
use crate::numbers::place_of;
use crate::worlds::holds_at;
use std::alloc::Global;
use viz_base::{Job, Mem, Rect, World};

/// The test whether a number on a path is outside `i128` at a world.
#[derive(Drop)]
struct Outside<'a> {
    alloc: Global,
    job: &'a Job,
    above: &'a [Above],
    ghost above_zero: { IsTrue (are_above_zero above.now) },
}

impl Look for Outside<'_> {
    ghost use Rattle.cert_check.specs.steps.Grids.{is_outside};

    ghost range = { λ look. look.job.now.range };

    ghost passes = { λ look. is_outside look.job.now.form look.above.now };

    fn passes(&self, world: World) -> Result<bool, Mem> {
        let place = place_of(self.alloc, self.job.form, self.above, world)?;
        Ok(place.is_none())
    }
}

/// The test whether a world is on a path and the formula is false there. Its page is laid out only if it is on the
/// path.
#[derive(Drop)]
struct UntrueOn<'a> {
    alloc: Global,
    job: &'a Job,
    above: &'a [Above],
    ghost above_zero: { IsTrue (are_above_zero above.now) },
}

impl Look for UntrueOn<'_> {
    ghost use Rattle.cert_check.specs.steps.Grids.{is_untrue_on};

    ghost range = { λ look. look.job.now.range };

    ghost passes = { λ look. is_untrue_on look.job.now look.above.now };

    fn passes(&self, world: World) -> Result<bool, Mem> {
        match place_of(self.alloc, self.job.form, self.above, world)? {
            Some(true) => Ok(!holds_at(self.alloc, self.job, world)?),
            _ => Ok(false),
        }
    }
}

/// The first world of a rectangle, by width, size and height, at which a number on the path is outside `i128`.
pub fn first_outside(
    alloc: Global,
    job: &Job,
    above: &[Above],
    rect: Rect,
) -> Result<Option<World>, Mem>
    requires above { IsTrue (are_above_zero above.now) }
    requires within { IsWithin job.now.range rect }
    ensures { IfOk result (λ found. found ≡ first_world (is_outside job.now.form above.now) rect) }
{
    first_world(&Outside { alloc, job, above }, rect)
}

/// The first world of a rectangle, by width, size and height, that is on the path and at which the formula is false.
pub fn first_untrue(
    alloc: Global,
    job: &Job,
    above: &[Above],
    rect: Rect,
) -> Result<Option<World>, Mem>
    requires above { IsTrue (are_above_zero above.now) }
    requires within { IsWithin job.now.range rect }
    ensures { IfOk result (λ found. found ≡ first_world (is_untrue_on job.now above.now) rect) }
{
    first_world(&UntrueOn { alloc, job, above }, rect)
}
