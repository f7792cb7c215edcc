use crate::widths::box_in;
use lay_margin::{Run, lead};
use serde_json::Value;
use test_scribe::Scribe;
use viz_base::{Band, BoxTree, Lead, LeadEnd};
use viz_calc::Plain;

/// The box up to which none counts as cleared, or null.
fn passed(scribe: &mut Scribe, value: &Value) -> Option<u32> {
    let box_passed = scribe.at(value, 2);
    if box_passed.is_null() {
        None
    } else {
        Some(scribe.natural(box_passed))
    }
}

fn end(scribe: &mut Scribe, end: LeadEnd) {
    match end {
        LeadEnd::Through => scribe.member("[\"Through\"]"),
        LeadEnd::Solid(b) => scribe.tagged("Solid", &[b]),
        LeadEnd::Cleared(b) => scribe.tagged("Cleared", &[b]),
    }
}

fn tell(scribe: &mut Scribe, run: &Run<i128>, lead: &Lead<i128>) {
    scribe.open();
    scribe.numbers(&[run.pos, run.neg]);
    scribe.open();
    for float in lead.waiting.as_slice() {
        scribe.number(float.at);
    }
    scribe.close();
    end(scribe, lead.end);
    scribe.close();
}

/// Tells of a box, the width of its containing block, and the box up to which none counts as cleared or null: the
/// greatest and the least of 0 and the margins that adjoin its top, the floats between them, and where they end.
pub fn tell_lead(scribe: &mut Scribe, calc: &mut Plain, tree: &BoxTree, value: &Value) {
    let cb = Band {
        left: 0,
        right: scribe.units_at(value, 1),
    };
    let past = passed(scribe, value);
    let mut run = Run { pos: 0, neg: 0 };
    if let Some(b) = box_in(scribe, tree, value) {
        let lead = lead(calc, tree, b, &cb, past, &mut run);
        if let Some(lead) = scribe.kept(lead) {
            tell(scribe, &run, &lead);
        }
    }
}
