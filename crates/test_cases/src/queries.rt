//! Width queries: the features that sheets ask for, the parts of a range, and the rules and formulas of a part.
use crate::cascades::{sheets, texts};
use crate::formulas::formula;
use crate::sheets::tell_feature;
use crate::truths::tell_truth;
use page_media::{MediaFault, chosen, features, guard, parts, signs};
use serde_json::Value;
use std::alloc::Global;
use test_scribe::{Fault, Scribe, job_of};
use viz_base::{Bound, Feature, Formula, List, Rect, Rendering, Rule, Sheet, World};

// ---- what a case has

/// The bound of a feature.
fn bound_at(scribe: &mut Scribe, feature: &Value) -> Bound {
    let value = scribe.at(feature, 1);
    let number = scribe.integer_at(value, 1);
    match scribe.text_at(value, 0) {
        "Px" => Bound::Px(number),
        "Em" => Bound::Em(number),
        _ => {
            scribe.fail(Fault::NoCase);
            Bound::Px(0)
        }
    }
}

/// Features: of each whether its bound is the most, and the bound.
fn features_at(scribe: &mut Scribe, case: &Value, place: usize) -> List<Feature> {
    let mut found = List::new(scribe.alloc());
    for value in scribe.list_at(case, place) {
        let most = scribe.flag_at(value, 0);
        let bound = bound_at(scribe, value);
        scribe.put(&mut found, Feature { most, bound });
    }
    found
}

/// Whether each of some features is met.
fn signs_at(scribe: &mut Scribe, case: &Value, place: usize) -> List<bool> {
    let mut found = List::new(scribe.alloc());
    for value in scribe.list_at(case, place) {
        let sign = scribe.flag(value);
        scribe.put(&mut found, sign);
    }
    found
}

/// A world of this height, of its width and its default font size.
fn world_of(scribe: &mut Scribe, value: &Value, h: u32) -> World {
    World {
        w: scribe.number_at(value, 0),
        s: scribe.number_at(value, 1),
        h,
    }
}

/// A range of widths and default font sizes.
fn range_of(scribe: &mut Scribe, case: &Value) -> Rect {
    let widths = scribe.at(case, 2);
    let sizes = scribe.at(case, 3);
    Rect {
        wl: scribe.number_at(widths, 0),
        wh: scribe.number_at(widths, 1),
        sl: scribe.number_at(sizes, 0),
        sh: scribe.number_at(sizes, 1),
        hl: 0,
        hh: 0,
    }
}

// ---- what is told

fn refusal(scribe: &mut Scribe, fault: MediaFault) {
    match fault {
        MediaFault::TooManyQueries { sheet, at } => {
            scribe.refused("TooManyQueries", &[sheet, at]);
        }
        MediaFault::TooManyParts(count) => scribe.refused("TooManyParts", &[count]),
        MediaFault::Mem => scribe.fail(Fault::Mem),
    }
}

fn tell_features(scribe: &mut Scribe, features: &[Feature]) {
    scribe.open();
    for feature in features {
        tell_feature(scribe, *feature);
    }
    scribe.close();
}

fn tell_signs(scribe: &mut Scribe, signs: &[bool]) {
    scribe.open();
    for sign in signs {
        scribe.truth(*sign);
    }
    scribe.close();
}

fn tell_parts(scribe: &mut Scribe, parts: &[List<bool>]) {
    scribe.open();
    for signs in parts {
        tell_signs(scribe, signs.as_slice());
    }
    scribe.close();
}

// ---- calls

/// The features that sheets of an author ask for, or why they are too many.
pub fn tell_asked(scribe: &mut Scribe, case: &Value) {
    let authors = scribe.list_at(case, 1);
    let texts = texts(scribe, authors);
    let sheets = sheets(scribe, texts.as_slice());
    match features(scribe.alloc(), sheets.as_slice()) {
        Ok(features) => tell_features(scribe, features.as_slice()),
        Err(fault) => refusal(scribe, fault),
    }
}

/// The sheets with their rules that are met at a world.
fn met_at(alloc: Global, sheets: &[Sheet], world: &World) -> Result<List<Sheet>, MediaFault> {
    let features = features(alloc, sheets)?;
    let signs = signs(alloc, &features, world)?;
    Ok(chosen(alloc, sheets, &features, &signs)?)
}

/// The sheets with their rules that are met where a range begins.
pub fn met(scribe: &mut Scribe, sheets: &[Sheet], range: &Rect) -> Option<List<Sheet>> {
    let world = World {
        w: range.wl,
        s: range.sl,
        h: range.hl,
    };
    let met = met_at(scribe.alloc(), sheets, &world);
    scribe.kept(met)
}

/// Which of the features are met at a world.
fn tell_signs_at(scribe: &mut Scribe, features: &List<Feature>, value: &Value) {
    let world = world_of(scribe, value, 0);
    let signs = signs(scribe.alloc(), features, &world);
    if let Some(signs) = scribe.kept(signs) {
        tell_signs(scribe, signs.as_slice());
    }
}

/// Which features are met at each of a case's worlds.
pub fn tell_met(scribe: &mut Scribe, case: &Value) {
    let features = features_at(scribe, case, 1);
    scribe.open();
    for value in scribe.list_at(case, 2) {
        tell_signs_at(scribe, &features, value);
    }
    scribe.close();
}

/// The parts of a range by features, or why they are too many.
pub fn tell_split(scribe: &mut Scribe, case: &Value) {
    let features = features_at(scribe, case, 1);
    let range = range_of(scribe, case);
    match parts(scribe.alloc(), &features, &range) {
        Ok(parts) => tell_parts(scribe, parts.as_slice()),
        Err(fault) => refusal(scribe, fault),
    }
}

/// Whether a rule is among those that are left.
fn is_left(left: &[Rule], rule: &Rule) -> bool {
    left.iter().any(|one| one.at == rule.at)
}

/// The places of the rules of a sheet that are left.
fn tell_places(scribe: &mut Scribe, all: &Sheet, left: &Sheet) {
    scribe.open();
    for (place, rule) in all.rules.as_slice().iter().enumerate() {
        if is_left(left.rules.as_slice(), rule) {
            scribe.number(place);
        }
    }
    scribe.close();
}

/// The places of the rules that are left, sheet by sheet, of all but the default one.
fn tell_left(scribe: &mut Scribe, all: &[Sheet], left: &[Sheet]) {
    scribe.open();
    for (all, left) in all.iter().zip(left).skip(1) {
        tell_places(scribe, all, left);
    }
    scribe.close();
}

/// The rules of sheets of an author that are chosen where features have given signs.
pub fn tell_chosen(scribe: &mut Scribe, case: &Value) {
    let authors = scribe.list_at(case, 1);
    let texts = texts(scribe, authors);
    let sheets = sheets(scribe, texts.as_slice());
    let features = features_at(scribe, case, 2);
    let signs = signs_at(scribe, case, 3);
    let left = chosen(scribe.alloc(), sheets.as_slice(), &features, &signs);
    if let Some(left) = scribe.kept(left) {
        tell_left(scribe, sheets.as_slice(), left.as_slice());
    }
}

/// The truth of a formula of no box at each of a case's worlds.
fn tell_truths(scribe: &mut Scribe, case: &Value, formula: &Formula) {
    let boxes = List::new(scribe.alloc());
    let rendering = Rendering { boxes };
    let h = scribe.number_at(case, 5);
    scribe.open();
    for value in scribe.list_at(case, 6) {
        let world = world_of(scribe, value, h);
        tell_truth(scribe, world, formula, &rendering);
    }
    scribe.close();
}

/// The formula of a case where its features have given signs.
fn guarded(scribe: &mut Scribe, case: &Value) -> Option<Formula> {
    let job = job_of(scribe, case)?;
    let features = features_at(scribe, case, 2);
    let signs = signs_at(scribe, case, 3);
    let steps = scribe.list_at(case, 4);
    let formula = formula(scribe, &job.page, steps)?;
    let all = guard(scribe.alloc(), &features, &signs, formula);
    scribe.kept(all)
}

/// The truth of a guarded formula at each of a case's worlds.
pub fn tell_guarded(scribe: &mut Scribe, case: &Value) {
    if let Some(formula) = guarded(scribe, case) {
        tell_truths(scribe, case, &formula);
    }
}
