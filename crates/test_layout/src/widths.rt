ghost use Rattle.std.specs.Prelude.{◌<◌, IfSome, length};

use lay_preferred::preferred;
use lay_width::widths;
use serde_json::Value;
use test_scribe::{Fault, Scribe};
use viz_base::{BoxTree, Job, Preferred};
use viz_calc::Plain;

/// The place of a box of a tree, which stands at the head of a value.
pub fn box_in(scribe: &mut Scribe, tree: &BoxTree, value: &Value) -> Option<u32>
    ensures { IfSome result (λ b. b < length tree.now.boxes) }
{
    let b = scribe.number_at(value, 0);
    if (b as usize) < tree.boxes.len() {
        Some(b)
    } else {
        scribe.fail(Fault::NoCase);
        None
    }
}

/// The preferred widths of a box.
fn preferred_in(
    scribe: &mut Scribe,
    calc: &mut Plain,
    tree: &BoxTree,
    value: &Value,
) -> Option<Preferred<i128>> {
    let b = box_in(scribe, tree, value)?;
    scribe.kept(preferred(calc, tree, b))
}

/// Tells the preferred widths of a box.
pub fn tell_preferred(scribe: &mut Scribe, calc: &mut Plain, tree: &BoxTree, value: &Value) {
    if let Some(widths) = preferred_in(scribe, calc, tree, value) {
        scribe.row(&[widths.least, widths.most]);
    }
}

/// Tells the widths and horizontal margins of a box, in a containing block of a width.
pub fn tell_widths(scribe: &mut Scribe, calc: &mut Plain, job: &Job, value: &Value) {
    let b = scribe.number_at(value, 0);
    let cb = scribe.units_at(value, 1);
    let Some(preferred) = preferred_in(scribe, calc, &job.tree, value) else {
        return;
    };
    let widths = widths(calc, &job.tree, b, &cb, &preferred);
    if let Some(widths) = scribe.kept(widths) {
        scribe.row(&[
            widths.margin_left,
            widths.border_left,
            widths.padding_left,
            widths.content,
            widths.padding_right,
            widths.border_right,
            widths.margin_right,
        ]);
    }
}
