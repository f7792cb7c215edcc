use css_syntax::{SheetFault, read_declarations, read_sheet};
use serde_json::Value;
use test_scribe::{Fault, Scribe};
use viz_base::{Bound, Decl, Feature, MediaEntry, Rule};

/// The feature of a width: whether it is the most, and its bound.
pub fn tell_feature(scribe: &mut Scribe, feature: Feature) {
    scribe.open();
    scribe.truth(feature.most);
    match feature.bound {
        Bound::Px(units) => scribe.tagged("Px", &[units]),
        Bound::Em(millionths) => scribe.tagged("Em", &[millionths]),
    }
    scribe.close();
}

/// Entries of a media list: whether each is negated, whether its medium is met, and its features.
fn tell_media(scribe: &mut Scribe, entries: &[MediaEntry]) {
    scribe.open();
    for entry in entries {
        scribe.open();
        scribe.truth(entry.negated);
        scribe.truth(entry.on);
        scribe.open();
        for feature in entry.features.as_slice() {
            tell_feature(scribe, *feature);
        }
        scribe.close();
        scribe.close();
    }
    scribe.close();
}

/// Declarations: name, the value's slice, and whether it is important.
fn tell_decls(scribe: &mut Scribe, decls: &[Decl]) {
    scribe.open();
    for decl in decls {
        scribe.open();
        scribe.quoted(decl.name.as_str());
        scribe.numbers(&[decl.at, decl.len]);
        scribe.truth(decl.important);
        scribe.close();
    }
    scribe.close();
}

/// Rulesets: the selector's slice, the declarations, and the media list that it stands under, or null.
fn tell_rules(scribe: &mut Scribe, rules: &[Rule]) {
    scribe.open();
    for rule in rules {
        scribe.open();
        scribe.numbers(&[rule.at, rule.len]);
        tell_decls(scribe, rule.decls.as_slice());
        match &rule.media {
            Some(entries) => tell_media(scribe, entries.as_slice()),
            None => scribe.null(),
        }
        scribe.close();
    }
    scribe.close();
}

fn refusal(scribe: &mut Scribe, fault: &SheetFault) {
    match fault {
        SheetFault::Import(at) => scribe.refused("Import", &[*at]),
        SheetFault::MediaQuery(at) => scribe.refused("MediaQuery", &[*at]),
        SheetFault::TooManyRules => scribe.word("TooManyRules"),
        SheetFault::Mem => scribe.fail(Fault::Mem),
    }
}

/// The rulesets of a sheet, or what refuses it.
pub fn sheet(scribe: &mut Scribe, case: &Value) {
    let text = scribe.text_at(case, 1);
    match read_sheet(scribe.alloc(), text) {
        Ok(sheet) => tell_rules(scribe, sheet.rules.as_slice()),
        Err(fault) => refusal(scribe, &fault),
    }
}

/// The declarations of a style attribute.
pub fn declarations(scribe: &mut Scribe, case: &Value) {
    let text = scribe.text_at(case, 1);
    match read_declarations(scribe.alloc(), text) {
        Ok(decls) => tell_decls(scribe, decls.as_slice()),
        Err(fault) => scribe.fail(fault.into()),
    }
}
