use lay_margin::Run;
use serde_json::Value;
use test_scribe::Scribe;
use viz_base::World;
use viz_calc::Plain;

fn join(scribe: &mut Scribe, calc: &mut Plain, run: &mut Run<i128>, margins: &[Value]) {
    for margin in margins {
        let margin = i128::from(scribe.integer(margin));
        if let Err(halt) = run.join(calc, &margin) {
            scribe.fail(halt.into());
        }
    }
}

/// The greatest and the least of margins and 0, and what the margins collapse to.
pub fn collapsed(scribe: &mut Scribe, case: &Value) {
    let mut calc = Plain::new(World {
        w: 320,
        s: 16,
        h: 600,
    });
    let empty = Run::empty(&mut calc);
    if let Some(mut run) = scribe.kept(empty) {
        let margins = scribe.list_at(case, 1);
        join(scribe, &mut calc, &mut run, margins);
        if let Some(value) = scribe.kept(run.value(&mut calc)) {
            scribe.row(&[run.pos, run.neg, value]);
        }
    }
}
