use test_scribe::Scribe;
use viz_base::{Length, LineHeight, Sides, Size, Style, Valign};

/// A length; an absolute one is its number of 1/64 px.
fn length(scribe: &mut Scribe, length: &Length) {
    match length {
        Length::Auto => scribe.word("Auto"),
        Length::Px(units) => scribe.number(*units),
        Length::Em { k, node } => scribe.tagged("Em", &[*k, i64::from(*node)]),
        Length::Pct(part) => scribe.tagged("Pct", &[*part]),
    }
}

/// The lengths of four sides.
fn sides(scribe: &mut Scribe, sides: &Sides<Length>) {
    scribe.open();
    length(scribe, &sides.top);
    length(scribe, &sides.right);
    length(scribe, &sides.bottom);
    length(scribe, &sides.left);
    scribe.close();
}

fn size(scribe: &mut Scribe, size: &Size) {
    match size {
        Size::Same => scribe.word("Same"),
        Size::Default { num, den } => {
            scribe.tagged("Default", &[i128::from(*num), i128::from(*den)]);
        }
        Size::Px(units) => scribe.tagged("Px", &[*units]),
        Size::Parent { num, den } => scribe.tagged("Parent", &[i128::from(*num), i128::from(*den)]),
    }
}

fn line(scribe: &mut Scribe, line: &LineHeight) {
    match line {
        LineHeight::Own { num, den } => {
            scribe.tagged("Own", &[i128::from(*num), i128::from(*den)]);
        }
        LineHeight::Px(units) => scribe.tagged("Px", &[*units]),
        LineHeight::OfNode { node, num, den } => scribe.tagged(
            "OfNode",
            &[i128::from(*node), i128::from(*num), i128::from(*den)],
        ),
    }
}

fn valign(scribe: &mut Scribe, valign: &Valign) {
    match valign {
        Valign::Raise(raise) => {
            scribe.open();
            scribe.word("Raise");
            length(scribe, raise);
            scribe.close();
        }
        word => scribe.name(word),
    }
}

/// What says which box a style makes.
fn placing(scribe: &mut Scribe, style: &Style) {
    scribe.name(&style.display);
    match style.float {
        Some(side) => scribe.name(&side),
        None => scribe.null(),
    }
    scribe.name(&style.clear);
    scribe.truth(style.clips);
}

/// A size with its minimum and its maximum, or null.
fn bounded(scribe: &mut Scribe, size: &Length, least: &Length, most: &Option<Length>) {
    length(scribe, size);
    length(scribe, least);
    match most {
        Some(most) => length(scribe, most),
        None => scribe.null(),
    }
}

/// What a style says of texts and lines.
fn lettering(scribe: &mut Scribe, style: &Style) {
    size(scribe, &style.size);
    scribe.number(style.font);
    line(scribe, &style.line);
    valign(scribe, &style.valign);
    scribe.name(&style.align);
    scribe.truth(style.wraps);
}

/// The members of a style in their order.
pub fn style(scribe: &mut Scribe, style: &Style) {
    scribe.open();
    placing(scribe, style);
    bounded(scribe, &style.width, &style.min_width, &style.max_width);
    bounded(scribe, &style.height, &style.min_height, &style.max_height);
    sides(scribe, &style.margin);
    sides(scribe, &style.padding);
    sides(scribe, &style.border);
    lettering(scribe, style);
    scribe.close();
}
