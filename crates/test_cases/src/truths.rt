ghost use Rattle.std.specs.Prelude.{◌≤◌};

use crate::formulas::{formula, kind_at};
use serde_json::Value;
use test_scribe::{Scribe, job_of};
use vis_truth::truth;
use viz_base::{Formula, List, Placed, Quad, Rendering, World};
use viz_calc::Plain;

/// The rectangle whose edges stand at a place and behind it.
fn quad(scribe: &mut Scribe, value: &Value, place: usize) -> Quad<i128>
    requires { place ≤ 100 }
{
    Quad {
        left: scribe.units_at(value, place),
        top: scribe.units_at(value, place + 1),
        right: scribe.units_at(value, place + 2),
        bottom: scribe.units_at(value, place + 3),
    }
}

/// A box: kind, node, and the edges of its four rectangles.
fn placed(scribe: &mut Scribe, value: &Value) -> Placed<i128> {
    Placed {
        kind: kind_at(scribe, value, 0),
        node: scribe.number_at(value, 1),
        margin: quad(scribe, value, 2),
        border: quad(scribe, value, 6),
        padding: quad(scribe, value, 10),
        content: quad(scribe, value, 14),
    }
}

fn rendering(scribe: &mut Scribe, values: &[Value]) -> Rendering<i128> {
    let mut boxes = List::new(scribe.alloc());
    for value in values {
        let placed = placed(scribe, value);
        scribe.put(&mut boxes, placed);
    }
    Rendering { boxes }
}

/// Whether the formula is true of the rendering at a world.
pub fn tell_truth(
    scribe: &mut Scribe,
    world: World,
    formula: &Formula,
    rendering: &Rendering<i128>,
) {
    match truth(&mut Plain::new(world), formula, rendering) {
        Ok(yes) => scribe.truth(yes),
        Err(halt) => scribe.fail(halt.into()),
    }
}

/// Whether the formula is true of the rendering, at a case's world.
fn judge(scribe: &mut Scribe, case: &Value, formula: &Formula, rendering: &Rendering<i128>) {
    let world = World {
        w: scribe.number_at(case, 3),
        s: scribe.number_at(case, 4),
        h: scribe.number_at(case, 5),
    };
    tell_truth(scribe, world, formula, rendering);
}

/// Whether the formula of a case is true of its rendering.
fn judge_rendering(scribe: &mut Scribe, case: &Value, formula: &Formula) {
    let values = scribe.list_at(case, 6);
    let rendering = rendering(scribe, values);
    judge(scribe, case, formula, &rendering);
}

/// The formula whose steps a case has, for its page.
fn formula_of(scribe: &mut Scribe, case: &Value) -> Option<Formula> {
    let steps = scribe.list_at(case, 2);
    let job = job_of(scribe, case)?;
    formula(scribe, &job.page, steps)
}

/// Whether the formula is true of the rendering at the world.
pub fn answer(scribe: &mut Scribe, case: &Value) {
    if let Some(formula) = formula_of(scribe, case) {
        judge_rendering(scribe, case, &formula);
    }
}
