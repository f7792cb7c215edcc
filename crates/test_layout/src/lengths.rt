use lay_length::{ascent, descent, font_size, line_height, text_width, used};
use serde_json::Value;
use test_scribe::{Fault, Scribe, count_of};
use viz_base::{BoxTree, Length, MOST_CHARACTERS};
use viz_calc::{Halt, Plain};

/// A length: its kind, and then its numbers.
fn length(scribe: &mut Scribe, value: &Value) -> Length {
    match scribe.text_at(value, 0) {
        "Auto" => Length::Auto,
        "Px" => Length::Px(scribe.integer_at(value, 1)),
        "Em" => Length::Em {
            k: scribe.integer_at(value, 1),
            node: scribe.number_at(value, 2),
        },
        "Pct" => Length::Pct(scribe.integer_at(value, 1)),
        _ => {
            scribe.fail(Fault::NoCase);
            Length::Auto
        }
    }
}

fn tell(scribe: &mut Scribe, units: Result<i128, Halt>) {
    match units {
        Ok(units) => scribe.number(units),
        Err(halt) => scribe.fail(halt.into()),
    }
}

/// Tells what is used of a length, in a containing block of a width.
pub fn tell_used(scribe: &mut Scribe, calc: &mut Plain, tree: &BoxTree, value: &Value) {
    let length_at = scribe.at(value, 0);
    let length = length(scribe, length_at);
    let cb = scribe.units_at(value, 1);
    tell(scribe, used(calc, tree, &length, &cb));
}

/// Tells the font size, line height, ascent and descent of a node.
pub fn tell_fonts(scribe: &mut Scribe, calc: &mut Plain, tree: &BoxTree, value: &Value) {
    let node = scribe.number_at(value, 0);
    scribe.open();
    tell(scribe, font_size(calc, tree, node));
    tell(scribe, line_height(calc, tree, node));
    tell(scribe, ascent(calc, tree, node));
    tell(scribe, descent(calc, tree, node));
    scribe.close();
}

/// Tells the width, at a node, of a text as one word.
pub fn tell_word(scribe: &mut Scribe, calc: &mut Plain, tree: &BoxTree, value: &Value) {
    let node = scribe.number_at(value, 0);
    let text = scribe.text_at(value, 1);
    if count_of(text) <= MOST_CHARACTERS {
        tell(scribe, text_width(calc, tree, node, text));
    } else {
        scribe.fail(Fault::NoCase);
    }
}
