use css_value::{ValueFault, read_declaration};
use serde_json::Value as Case;
use test_scribe::{Fault, Scribe};
use viz_base::{List, Setting, Text, Value};

fn families(scribe: &mut Scribe, names: &[Text]) {
    scribe.open();
    scribe.word("Names");
    scribe.open();
    for name in names {
        scribe.quoted(name.as_str());
    }
    scribe.close();
    scribe.close();
}

/// The text of generated content.
fn characters(scribe: &mut Scribe, text: &Text) {
    scribe.open();
    scribe.word("Chars");
    scribe.quoted(text.as_str());
    scribe.close();
}

/// A value that is a number.
fn numbered(scribe: &mut Scribe, kind: &str, number: i64) {
    scribe.tagged(kind, &[number]);
}

/// A value: its kind, and what it holds.
fn tell(scribe: &mut Scribe, value: &Value) {
    match value {
        Value::Inherit => scribe.member("[\"Inherit\"]"),
        Value::Word(place) => numbered(scribe, "Word", i64::from(*place)),
        Value::Px(units) => numbered(scribe, "Px", *units),
        Value::Em(millionths) => numbered(scribe, "Em", *millionths),
        Value::Pct(millionths) => numbered(scribe, "Pct", *millionths),
        Value::Number(millionths) => numbered(scribe, "Number", *millionths),
        Value::Names(names) => families(scribe, names.as_slice()),
        Value::Chars(text) => characters(scribe, text),
    }
}

/// The property of a setting and its value.
pub fn setting(scribe: &mut Scribe, setting: &Setting) {
    scribe.name(&setting.prop);
    tell(scribe, &setting.value);
}

fn settings(scribe: &mut Scribe, settings: &[Setting]) {
    scribe.open();
    for one in settings {
        scribe.open();
        setting(scribe, one);
        scribe.close();
    }
    scribe.close();
}

fn settled(scribe: &mut Scribe, declared: &Result<List<Setting>, ValueFault>) {
    match declared {
        Ok(found) => settings(scribe, found.as_slice()),
        Err(ValueFault::Ignored) => scribe.word("Ignored"),
        Err(ValueFault::Unsupported(prop)) => {
            scribe.raw("\"Unsupported ");
            scribe.debug(prop);
            scribe.raw("\"");
        }
        Err(ValueFault::Mem) => scribe.fail(Fault::Mem),
    }
}

/// The settings of a declaration, or why it has none.
pub fn answer(scribe: &mut Scribe, case: &Case) {
    let name = scribe.text_at(case, 1);
    let text = scribe.text_at(case, 2);
    settled(scribe, &read_declaration(scribe.alloc(), name, text));
}
