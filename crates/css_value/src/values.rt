ghost use Rattle.std.specs.Prelude.{◌≡◌};
ghost use Rattle.css_semantics.specs.Values.{half, is_inherit, is_keyword, is_negative, is_zero, judged, longhand, number_value, one_part, part_value, setting, whole_value, word_value};
ghost use Rattle.viz_base.specs.Answers.{Gives};
ghost use Rattle.css_value.specs.Faults.{refusal_of};

use crate::families::families;
use crate::fault::ValueFault;
use crate::names::{is_among, place_among};
use crate::rows::row;
use crate::strings::text_or_one;
use css_semantics::{Part, Refusal, Takes};
use css_token::same_name;
use std::alloc::Global;
use viz_base::{List, Prop, Setting, Value};

fn is_negative(n: i64) -> bool
    ensures { result ≡ is_negative n }
{
    n < 0
}

fn is_zero(n: i64) -> bool
    ensures { result ≡ is_zero n }
{
    n == 0
}

/// Half of a number, towards zero.
fn half(n: i64) -> i64
    ensures { result ≡ half n }
{
    n / 2
}

/// The value of a keyword.
fn word_value(prop: Prop, word: &str) -> Result<Value, Refusal>
    ensures { result ≡ word_value prop word.now }
{
    let row = row(prop);
    match place_among(row.words, word) {
        Some(place) => Ok(Value::Word(place)),
        None if is_among(row.refused, word) => Err(Refusal::Unsupported(prop)),
        None => Err(Refusal::Ignored),
    }
}

/// The value, if the property takes the number that was written and what it comes to.
fn judged(prop: Prop, takes: Takes, written: i64, n: i64, value: Value) -> Result<Value, Refusal>
    ensures { result ≡ judged prop takes written n value }
{
    match takes {
        Takes::Nothing => Err(Refusal::Ignored),
        Takes::All => Ok(value),
        Takes::NotNegative => {
            if is_negative(written) {
                Err(Refusal::Ignored)
            } else {
                Ok(value)
            }
        }
        Takes::ZeroAlone => {
            if is_zero(n) {
                Ok(value)
            } else {
                Err(Refusal::Unsupported(prop))
            }
        }
    }
}

/// The value of a number without a unit.
fn number_value(prop: Prop, takes: Takes, n: i64) -> Result<Value, Refusal>
    ensures { result ≡ number_value prop takes n }
{
    match takes {
        Takes::Nothing => {
            if is_zero(n) {
                judged(prop, row(prop).lengths, n, n, Value::Px(n))
            } else {
                Err(Refusal::Ignored)
            }
        }
        Takes::All | Takes::NotNegative | Takes::ZeroAlone => {
            judged(prop, takes, n, n, Value::Number(n))
        }
    }
}

/// The value that a part gives a property.
pub fn part_value(prop: Prop, part: &Part) -> Result<Value, Refusal>
    ensures { result ≡ part_value prop part.now }
{
    match part {
        Part::Word(word) => word_value(prop, word.as_str()),
        Part::Number(n) => number_value(prop, row(prop).numbers, *n),
        Part::Percentage(n) => judged(prop, row(prop).percentages, *n, *n, Value::Pct(*n)),
        Part::Px(n) => judged(prop, row(prop).lengths, *n, *n, Value::Px(*n)),
        Part::Em(n) => judged(prop, row(prop).lengths, *n, *n, Value::Em(*n)),
        Part::Ex(n) => judged(prop, row(prop).lengths, *n, half(*n), Value::Em(half(*n))),
        Part::Quoted(_)
        | Part::Comma
        | Part::Solidus
        | Part::Colour
        | Part::Function(_)
        | Part::Uri
        | Part::Other => Err(Refusal::Ignored),
    }
}

/// Whether a part is this word, in any ASCII case.
pub fn is_keyword(word: &str, part: &Part) -> bool
    ensures { result ≡ is_keyword word.now part.now }
{
    match part {
        Part::Word(text) => same_name(text.as_str(), word),
        _ => false,
    }
}

/// Whether the value is `inherit` alone.
pub fn is_inherit(parts: &[Part]) -> bool
    ensures { result ≡ is_inherit parts.now }
{
    match parts {
        [part] => is_keyword("inherit", part),
        _ => false,
    }
}

/// The value of a property that takes one part; several are ignored (4.2).
pub fn one_part(prop: Prop, parts: &[Part]) -> Result<Value, Refusal>
    ensures { result ≡ one_part prop parts.now }
{
    match parts {
        [part] => part_value(prop, part),
        _ => Err(Refusal::Ignored),
    }
}

fn whole_value(alloc: Global, prop: Prop, parts: &[Part]) -> Result<Value, ValueFault>
    ensures { Gives (λ x. x) refusal_of result (whole_value prop parts.now) }
{
    if is_inherit(parts) {
        Ok(Value::Inherit)
    } else if row(prop).families {
        match families(alloc, parts)? {
            Some(names) => Ok(Value::Names(names)),
            None => Err(ValueFault::Ignored),
        }
    } else if row(prop).strings {
        text_or_one(alloc, prop, parts)
    } else {
        Ok(one_part(prop, parts)?)
    }
}

/// What the value of a property of the table gives.
pub fn longhand(alloc: Global, prop: Prop, parts: &[Part]) -> Result<List<Setting>, ValueFault>
    ensures { Gives (λ x. x) refusal_of result (longhand prop parts.now) }
{
    let value = whole_value(alloc, prop, parts)?;
    let mut settings = List::new(alloc);
    settings.push(Setting { prop, value })?;
    Ok(settings)
}
