ghost use Rattle.std.specs.Prelude.{◌≡◌, flat_map, IfOk};
ghost use Rattle.std.specs.List.{list_all, list_any};
ghost use Rattle.css_semantics.specs.Values.{are_strings, is_other_content, is_quoted, quoted, text_or_one};
ghost use Rattle.viz_base.specs.Answers.{Gives};
ghost use Rattle.css_value.specs.Faults.{refusal_of};

use crate::fault::ValueFault;
use crate::names::is_among;
use crate::rows::row;
use crate::values::one_part;
use css_semantics::Part;
use std::alloc::Global;
use viz_base::{Mem, Prop, Text, Value};

fn is_quoted(part: &Part) -> bool
    ensures { result ≡ is_quoted part.now }
{
    matches!(part, Part::Quoted(_))
}

fn are_all_quoted(parts: &[Part]) -> bool
    ensures { result ≡ list_all is_quoted parts.now }
{
    parts.iter().all(|part| is_quoted(part))
}

/// Whether a value is one or more strings.
fn are_strings(parts: &[Part]) -> bool
    ensures { result ≡ are_strings parts.now }
{
    !parts.is_empty() && are_all_quoted(parts)
}

/// What a string says, and nothing of any other part.
fn quoted(part: &Part) -> &str
    ensures { result.now ≡ quoted part.now }
{
    match part {
        Part::Quoted(text) => text.as_str(),
        _ => "",
    }
}

/// What strings say, one after another.
fn joined(alloc: Global, parts: &[Part]) -> Result<Text, Mem>
    ensures { IfOk result (λ text. text ≡ flat_map quoted parts.now) }
{
    let mut text = Text::new(alloc);
    for part in parts {
        text.push_str(quoted(part))?;
    }
    Ok(text)
}

/// Whether a part stands for content that is no string: a function, a URI, or a keyword that is refused by name.
fn is_other_content(prop: Prop, part: &Part) -> bool
    ensures { result ≡ is_other_content prop part.now }
{
    match part {
        Part::Word(word) => is_among(row(prop).refused, word.as_str()),
        Part::Function(_) | Part::Uri => true,
        _ => false,
    }
}

fn have_other_content(prop: Prop, parts: &[Part]) -> bool
    ensures { result ≡ list_any (is_other_content prop) parts.now }
{
    parts.iter().any(|part| is_other_content(prop, part))
}

/// The value of a property that may be a text (CSS 2.1, 12.2).
pub fn text_or_one(alloc: Global, prop: Prop, parts: &[Part]) -> Result<Value, ValueFault>
    ensures { Gives (λ x. x) refusal_of result (text_or_one prop parts.now) }
{
    if are_strings(parts) {
        Ok(Value::Chars(joined(alloc, parts)?))
    } else if have_other_content(prop, parts) {
        // A page that asks for such content isn't laid out without it, so the value is not dropped.
        Err(ValueFault::Unsupported(prop))
    } else {
        Ok(one_part(prop, parts)?)
    }
}
