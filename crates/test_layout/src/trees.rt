use crate::leads::tell_lead;
use crate::lengths::{tell_fonts, tell_used, tell_word};
use crate::lines::tell_lines;
use crate::widths::{tell_preferred, tell_widths};
use serde_json::Value;
use test_scribe::{Fault, Scribe, built_at};
use viz_base::{Job, World};
use viz_calc::Plain;

/// What one call on the box tree of a job gives.
fn call(scribe: &mut Scribe, name: &str, calc: &mut Plain, job: &Job, value: &Value) {
    match name {
        "used" => tell_used(scribe, calc, &job.tree, value),
        "fonts" => tell_fonts(scribe, calc, &job.tree, value),
        "words" => tell_word(scribe, calc, &job.tree, value),
        "widths" => tell_widths(scribe, calc, job, value),
        "preferred" => tell_preferred(scribe, calc, &job.tree, value),
        "lines" => tell_lines(scribe, calc, &job.tree, value),
        "lead" => tell_lead(scribe, calc, &job.tree, value),
        _ => scribe.fail(Fault::NoCase),
    }
}

/// What the calls of a case on the box tree of a job give.
fn calls(scribe: &mut Scribe, name: &str, calc: &mut Plain, job: &Job, values: &[Value]) {
    scribe.open();
    for value in values {
        call(scribe, name, calc, job, value);
    }
    scribe.close();
}

/// What the calls of a case give: a job whose page has the box tree, the world, and a list of what to call it with.
pub fn answer(scribe: &mut Scribe, name: &str, case: &Value) {
    let w = scribe.number_at(case, 2);
    let s = scribe.number_at(case, 3);
    let values = scribe.list_at(case, 4);
    if let Some(job) = built_at(scribe, case, w, s) {
        let h = job.range.hl;
        let mut calc = Plain::new(World { w, s, h });
        calls(scribe, name, &mut calc, &job, values);
    }
}
