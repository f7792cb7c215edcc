ghost use Rattle.std.specs.Prelude.{◌≡◌, ◌≤◌, None, Some, Ok, length, MatchOption};
ghost use Rattle.std.specs.List.{prefix_len};
ghost use Rattle.css_semantics.specs.Shorthands.{font, font_from_size, font_names, front_len, height_behind, is_before_size, is_front, is_system, named_font, system_font, written_font};
ghost use Rattle.viz_base.specs.Answers.{Gives};
ghost use Rattle.css_value.specs.Faults.{refusal_of};

use crate::classes::{Class, class_has, is_at_most_one};
use crate::families::families;
use crate::fault::ValueFault;
use crate::sides::{inherit, set};
use crate::values::{is_inherit, is_keyword, part_value};
use css_semantics::{AT_MEDIUM_SIZE, AT_NORMAL, Part};
use std::alloc::Global;
use viz_base::{List, Prop, Setting, Value};

/// Whether a part may stand before the size.
fn is_before_size(part: &Part) -> bool
    ensures { result ≡ is_before_size part.now }
{
    class_has(Class::FontStyle, part)
        || class_has(Class::FontVariant, part)
        || class_has(Class::FontWeight, part)
        || is_keyword("normal", part)
}

/// How many parts stand before the size.
fn front_len(parts: &[Part]) -> usize
    ensures is { result ≡ front_len parts.now }
    ensures within { result ≤ length parts.now }
{
    for (at, part) in parts.iter().enumerate() {
        if !is_before_size(part) {
            return at;
        }
    }
    parts.len()
}

/// Whether these parts may stand together before the size.
fn is_front(parts: &[Part]) -> bool
    ensures { result ≡ is_front parts.now }
{
    is_at_most_one(Class::FontStyle, parts)
        && is_at_most_one(Class::FontVariant, parts)
        && is_at_most_one(Class::FontWeight, parts)
        && parts.len() <= 3
}

/// The settings of a font of this size and line height, whose family the parts name.
fn named_font(
    alloc: Global,
    size: Value,
    height: Value,
    parts: &[Part],
) -> Result<List<Setting>, ValueFault>
    ensures { Gives (λ x. x) refusal_of result (named_font size height (font_names parts.now)) }
{
    if is_inherit(parts) {
        return Err(ValueFault::Ignored);
    }
    let Some(names) = families(alloc, parts)? else {
        return Err(ValueFault::Ignored);
    };
    let mut settings = List::new(alloc);
    set(&mut settings, Prop::FontSize, size)?;
    set(&mut settings, Prop::FontFamily, Value::Names(names))?;
    set(&mut settings, Prop::LineHeight, height)?;
    Ok(settings)
}

/// The line height behind a `/`, and what follows it.
fn height_behind(parts: &[Part]) -> Option<(&Part, &[Part])>
    ensures { MatchOption result (height_behind parts.now ≡ None)
        (λ p. height_behind parts.now ≡ Some (p.0.now, p.1.now)) }
{
    match parts {
        [Part::Solidus, height, rest @ ..] => Some((height, rest)),
        _ => None,
    }
}

fn font_from_size(alloc: Global, parts: &[Part]) -> Result<List<Setting>, ValueFault>
    ensures { Gives (λ x. x) refusal_of result (font_from_size parts.now) }
{
    let Some((size, after)) = parts.split_first() else {
        return Err(ValueFault::Ignored);
    };
    let size = part_value(Prop::FontSize, size)?;
    match height_behind(after) {
        Some((height, names)) => {
            let height = part_value(Prop::LineHeight, height)?;
            named_font(alloc, size, height, names)
        }
        None => named_font(alloc, size, Value::Word(AT_NORMAL), after),
    }
}

fn written_font(alloc: Global, parts: &[Part]) -> Result<List<Setting>, ValueFault>
    ensures { Gives (λ x. x) refusal_of result (written_font parts.now) }
{
    let (front, rest) = parts.split_at(front_len(parts));
    if is_front(front) {
        font_from_size(alloc, rest)
    } else {
        Err(ValueFault::Ignored)
    }
}

/// Whether the value is the name of a system font.
fn is_system(parts: &[Part]) -> bool
    ensures { result ≡ is_system parts.now }
{
    match parts {
        [part] => {
            is_keyword("caption", part)
                || is_keyword("icon", part)
                || is_keyword("menu", part)
                || is_keyword("message-box", part)
                || is_keyword("small-caption", part)
                || is_keyword("status-bar", part)
        }
        _ => false,
    }
}

fn system_font(alloc: Global) -> Result<List<Setting>, ValueFault>
    ensures { Gives (λ x. x) refusal_of result (Ok system_font) }
{
    let mut settings = List::new(alloc);
    set(&mut settings, Prop::FontSize, Value::Word(AT_MEDIUM_SIZE))?;
    set(
        &mut settings,
        Prop::FontFamily,
        Value::Names(List::new(alloc)),
    )?;
    set(&mut settings, Prop::LineHeight, Value::Word(AT_NORMAL))?;
    Ok(settings)
}

/// What the value of `font` gives (CSS 2.1, 15.8).
pub fn font(alloc: Global, parts: &[Part]) -> Result<List<Setting>, ValueFault>
    ensures { Gives (λ x. x) refusal_of result (font parts.now) }
{
    if is_inherit(parts) {
        let mut settings = List::new(alloc);
        inherit(
            &mut settings,
            &[Prop::FontSize, Prop::FontFamily, Prop::LineHeight],
        )?;
        Ok(settings)
    } else if is_system(parts) {
        system_font(alloc)
    } else {
        written_font(alloc, parts)
    }
}
