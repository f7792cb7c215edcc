ghost use Rattle.std.specs.Prelude.{◌≡◌, ◌≤◌, length};
ghost use Rattle.std.specs.List.{count_by, find};
ghost use Rattle.std.specs.Option.{option_copied};
ghost use Rattle.css_semantics.specs.Shorthands.{is_at_most_one, is_colour, is_hundreds, is_line_style, is_line_width, is_one_of, is_style_word, is_variant_word, is_weight};
ghost use Rattle.css_value.specs.Classes.{class_has};

use crate::values::{is_keyword, part_value};
use css_semantics::Part;
use viz_base::Prop;

/// What a part may be in a shorthand whose parts stand in any order.
#[derive(Clone, Copy)]
pub enum Class {
    LineWidth,
    LineStyle,
    Colour,
    FontStyle,
    FontVariant,
    FontWeight,
}

fn is_line_width(part: &Part) -> bool
    ensures { result ≡ is_line_width part.now }
{
    part_value(Prop::BorderTopWidth, part).is_ok()
}

fn is_line_style(part: &Part) -> bool
    ensures { result ≡ is_line_style part.now }
{
    part_value(Prop::BorderTopStyle, part).is_ok()
}

fn is_colour(part: &Part) -> bool
    ensures { result ≡ is_colour part.now }
{
    match part {
        Part::Word(_) => !is_line_width(part) && !is_line_style(part),
        Part::Colour => true,
        Part::Function(matched) => *matched,
        _ => false,
    }
}

fn is_style_word(part: &Part) -> bool
    ensures { result ≡ is_style_word part.now }
{
    is_keyword("italic", part) || is_keyword("oblique", part)
}

/// Whether a count of millionths is 100 to 900 by hundreds.
fn is_hundreds(n: i64) -> bool
    ensures { result ≡ is_hundreds n }
{
    match u64::try_from(n) {
        Ok(n) => n % 100_000_000 == 0 && 1 <= n && n <= 900_000_000,
        Err(_) => false,
    }
}

fn is_weight(part: &Part) -> bool
    ensures { result ≡ is_weight part.now }
{
    match part {
        Part::Number(n) => is_hundreds(*n),
        _ => is_keyword("bold", part) || is_keyword("bolder", part) || is_keyword("lighter", part),
    }
}

/// Whether a part is of the class.
pub fn class_has(class: Class, part: &Part) -> bool
    ensures { result ≡ class_has class part.now }
{
    match class {
        Class::LineWidth => is_line_width(part),
        Class::LineStyle => is_line_style(part),
        Class::Colour => is_colour(part),
        Class::FontStyle => is_style_word(part),
        Class::FontVariant => is_keyword("small-caps", part),
        Class::FontWeight => is_weight(part),
    }
}

/// How many of the parts are of the class.
fn count_of(class: Class, parts: &[Part]) -> usize
    ensures is { result ≡ count_by (class_has class) parts.now }
    ensures within { result ≤ length parts.now }
{
    let mut count = 0;
    for part in parts {
        if class_has(class, part) {
            count += 1;
        }
    }
    count
}

/// Whether no two of the parts are of the class.
pub fn is_at_most_one(class: Class, parts: &[Part]) -> bool
    ensures { result ≡ is_at_most_one (class_has class) parts.now }
{
    count_of(class, parts) <= 1
}

/// The first part of the class.
pub fn find(class: Class, parts: &[Part]) -> Option<&Part>
    ensures { option_copied result ≡ find (class_has class) parts.now }
{
    for part in parts {
        if class_has(class, part) {
            return Some(part);
        }
    }
    None
}
