ghost use Rattle.std.specs.Prelude.{◌≡◌, IfErr, Ok, OnOk};
ghost use Rattle.std.specs.List.{find, list_all};
ghost use Rattle.viz_base.specs.declared.settings.Value.TheVariants.{Word};
ghost use Rattle.css_semantics.specs.Values.{then_on};
ghost use Rattle.css_semantics.specs.Shorthands.{each_line, is_line, is_line_part, joined, lines, value_or, written_lines};
ghost use Rattle.css_value.specs.Classes.{class_has, set_by};
ghost use Rattle.viz_base.specs.Answers.{Gives};
ghost use Rattle.css_value.specs.Faults.{Fails, refusal_of};

use crate::classes::{Class, class_has, find, is_at_most_one};
use crate::fault::ValueFault;
use crate::sides::{inherit, set};
use crate::values::{is_inherit, part_value};
use css_semantics::{Part, Refusal};
use std::alloc::Global;
use viz_base::{List, Prop, Setting, Value};

fn is_line_part(part: &Part) -> bool
    ensures { result ≡ is_line_part part.now }
{
    class_has(Class::LineWidth, part)
        || class_has(Class::LineStyle, part)
        || class_has(Class::Colour, part)
}

fn are_line_parts(parts: &[Part]) -> bool
    ensures { result ≡ list_all is_line_part parts.now }
{
    parts.iter().all(|part| is_line_part(part))
}

/// Whether the parts are a width, a style and a colour in any order, or some of them.
fn is_line(parts: &[Part]) -> bool
    ensures { result ≡ is_line parts.now }
{
    parts.len() > 0
        && are_line_parts(parts)
        && is_at_most_one(Class::LineWidth, parts)
        && is_at_most_one(Class::LineStyle, parts)
        && is_at_most_one(Class::Colour, parts)
}

/// The value that the part of the class gives a property, or the keyword at this place where no part is of the class.
fn line_value(class: Class, place: u8, prop: Prop, parts: &[Part]) -> Result<Value, Refusal>
    ensures { result ≡ value_or (Word place) prop (find (class_has class) parts.now) }
{
    match find(class, parts) {
        Some(part) => part_value(prop, part),
        None => Ok(Value::Word(place)),
    }
}

/// Adds a setting of each of the properties from the part of the class, or by the keyword at this place.
fn set_lines(
    settings: &mut List<Setting>,
    class: Class,
    place: u8,
    parts: &[Part],
    props: &[Prop],
) -> Result<(), ValueFault>
    ensures ok { OnOk result (joined settings.old (set_by class place parts.now props.now)
        ≡ Ok settings.new) }
    ensures fault { IfErr result (λ fault. Fails fault
        (joined settings.old (set_by class place parts.now props.now))) }
{
    for prop in props {
        let value = line_value(class, place, *prop, parts)?;
        set(settings, *prop, value)?;
    }
    Ok(())
}

fn written_lines(
    alloc: Global,
    widths: &[Prop],
    styles: &[Prop],
    parts: &[Part],
) -> Result<List<Setting>, ValueFault>
    ensures { Gives (λ x. x) refusal_of result (written_lines widths.now styles.now parts.now) }
{
    let mut settings = List::new(alloc);
    set_lines(&mut settings, Class::LineWidth, 1, parts, widths)?;
    set_lines(&mut settings, Class::LineStyle, 0, parts, styles)?;
    Ok(settings)
}

/// What the value of a shorthand for borders gives (CSS 2.1, 8.5.4).
pub fn lines(
    alloc: Global,
    widths: &[Prop],
    styles: &[Prop],
    parts: &[Part],
) -> Result<List<Setting>, ValueFault>
    ensures { Gives (λ x. x) refusal_of result (lines widths.now styles.now parts.now) }
{
    if is_inherit(parts) {
        let mut settings = List::new(alloc);
        inherit(&mut settings, widths)?;
        inherit(&mut settings, styles)?;
        Ok(settings)
    } else if is_line(parts) {
        written_lines(alloc, widths, styles, parts)
    } else {
        Err(ValueFault::Ignored)
    }
}
