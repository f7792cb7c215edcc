use crate::widths::box_in;
use lay_float::Floats;
use lay_line::containers::Container;
use lay_line::lines;
use serde_json::Value;
use test_scribe::Scribe;
use viz_base::{Band, BoxTree, Entry, Kind, Lines};
use viz_calc::Plain;

/// The left and the top edge of a line's content, or of a piece of a text, or nothing of another entry.
fn corner(scribe: &mut Scribe, entry: &Entry<i128>) {
    if let Entry::Here(placed) = entry {
        let content = &placed.content;
        match placed.kind {
            Kind::Line => scribe.tagged("Line", &[content.left, content.top]),
            Kind::Chars => scribe.tagged("Chars", &[content.left, content.top]),
            _ => (),
        }
    }
}

/// The corners of the lines and texts, and the bottom.
fn tell(scribe: &mut Scribe, lines: &Lines<i128>) {
    scribe.open();
    for entry in lines.entries.as_slice() {
        corner(scribe, entry);
    }
    scribe.number(lines.bottom);
    scribe.close();
}

/// The lines of a block container without floats and atomic boxes, in a containing block of a width.
pub fn tell_lines(scribe: &mut Scribe, calc: &mut Plain, tree: &BoxTree, value: &Value) {
    let cb = Band {
        left: 0,
        right: scribe.units_at(value, 1),
    };
    if let Some(at) = box_in(scribe, tree, value) {
        let container = Container {
            tree,
            at,
            inner: &[],
            cb: &cb,
        };
        let lines = lines(calc, &container, &0, &0, &mut Floats::new(scribe.alloc()));
        if let Some(lines) = scribe.kept(lines) {
            tell(scribe, &lines);
        }
    }
}
