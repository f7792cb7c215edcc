//! What is replied where a job's assertion is false at a world.
ghost use Rattle.std.specs.Prelude.{◌≡◌, ◌++◌, ◌≤◌, IfOk, OnOk};
ghost use Rattle.viz_replies.specs.Print.{printed};
ghost use Rattle.vis_truth.specs.Scenes.{IsBoundedRendering};
ghost use Rattle.viz_replies.specs.Replies.{violation_text};
ghost use Rattle.viz_replies.specs.steps.Violations.{blame_lines_of, violation_lines_of};
ghost use Rattle.viz_base.specs.declared.limits.TheConstants.{MOST_PIXELS, MOST_SIZE};

use crate::lines::{push_blamed, push_world};
use crate::printing::print;
use crate::reply::{Answer, Reply};
use lay_flow::render_at;
use std::alloc::Global;
use vis_truth::blame;
use viz_base::{Job, Mem, Rendering, World};

/// A line for each box of this rendering that the formula blames.
fn push_blame(
    alloc: Global,
    out: &mut Vec<u8>,
    job: &Job,
    world: World,
    rendering: &Rendering<i128>,
) -> Result<(), Mem>
    requires bounded { IsBoundedRendering rendering.now }
    ensures { OnOk result (out.new.items
        ≡ out.old.items ++ blame_lines_of job.now world rendering.now) }
{
    if u32::try_from(rendering.boxes.len()).is_err() {
        return Err(Mem);
    }
    let blamed = blame(alloc, &job.formula, rendering, &world)?;
    Ok(push_blamed(out, blamed.as_slice())?)
}

/// The boxes of this rendering.
fn push_boxes(alloc: Global, out: &mut Vec<u8>, rendering: &Rendering<i128>) -> Result<(), Mem>
    ensures { OnOk result (out.new.items ≡ out.old.items ++ printed rendering.now) }
{
    let boxes = print(alloc, rendering)?;
    Ok(out.extend_from_slice(boxes.as_slice())?)
}

/// A world, whom the formula blames there, and the boxes, by this rendering.
fn push_violation(
    alloc: Global,
    out: &mut Vec<u8>,
    job: &Job,
    world: World,
    rendering: &Rendering<i128>,
) -> Result<(), Mem>
    requires bounded { IsBoundedRendering rendering.now }
    ensures { OnOk result (out.new.items
        ≡ out.old.items ++ violation_lines_of job.now world rendering.now) }
{
    out.extend_from_slice(b"violated")?;
    push_world(out, job.form, world)?;
    out.extend_from_slice(b"\n")?;
    push_blame(alloc, out, job, world, rendering)?;
    push_boxes(alloc, out, rendering)
}

/// The reply about a world, by its rendering.
fn violation_by(
    alloc: Global,
    job: &Job,
    world: World,
    rendering: &Rendering<i128>,
) -> Result<Reply, Mem>
    requires bounded { IsBoundedRendering rendering.now }
    ensures { IfOk result (λ r. (r.answer ≡ Answer.Violated)
        × (r.output.items ≡ violation_lines_of job.now world rendering.now)) }
{
    let mut output = Vec::new(alloc);
    push_violation(alloc, &mut output, job, world, rendering)?;
    Ok(Reply {
        answer: Answer::Violated,
        output,
    })
}

/// A world at which the formula is false.
pub fn violation(alloc: Global, job: &Job, world: World) -> Result<Reply, Mem>
    requires narrow { world.w ≤ MOST_PIXELS }
    requires sized { world.s ≤ MOST_SIZE }
    requires low { world.h ≤ MOST_PIXELS }
    ensures { IfOk result (λ r. (r.answer ≡ Answer.Violated)
        × (r.output.items ≡ violation_text job.now world)) }
{
    let rendering = render_at(world, &job.tree)?;
    let reply = violation_by(alloc, job, world, &rendering);
    drop(rendering);
    reply
}
