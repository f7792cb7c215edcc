//! Which text a pseudo-element has, and which nodes may have one.
ghost use Rattle.std.specs.Prelude.{◌≡◌, length, option_map};
ghost use Rattle.std.specs.Str.{chars};
ghost use Rattle.css_semantics.specs.ComputedValues.{winner};
ghost use Rattle.viz_base.specs.Pages.{is_element};
ghost use Rattle.viz_base.specs.declared.settings.Prop.TheVariants.{Content};
ghost use Rattle.page_pseudo.specs.Generated.{generated, tag_of, takes_content, text_of};
ghost use Rattle.page_pseudo.specs.Limits.{count};

use viz_base::{Body, Prop, Pseudo, Setting, Text, Value, is_break, is_replaced};

fn is_element(body: &Body) -> bool
    ensures { result ≡ is_element body.now }
{
    matches!(body, Body::Element(_))
}

/// Whether generated content may stand before and after the content of a node: it is an element that is neither
/// replaced nor a forced line break.
fn takes_content(body: &Body) -> bool
    ensures { result ≡ takes_content body.now }
{
    is_element(body) && !is_replaced(body) && !is_break(body)
}

fn text_of(value: &Value) -> Option<&Text>
    ensures { option_map (λ text. text.now) result ≡ text_of (Some value.now) }
{
    match value {
        Value::Chars(text) => Some(text),
        _ => None,
    }
}

/// The text of `content`, if one wins.
fn content_of(winners: &[Setting]) -> Option<&Text>
    ensures { option_map (λ text. text.now) result ≡ text_of (winner Content winners.now) }
{
    for setting in winners {
        if setting.prop == Prop::Content {
            return text_of(&setting.value);
        }
    }
    None
}

/// The text that a pseudo-element of a node has at which these win.
pub fn generated<'a>(body: &Body, winners: &'a [Setting]) -> Option<&'a Text>
    ensures { option_map (λ text. text.now) result ≡ generated body.now winners.now }
{
    if takes_content(body) {
        content_of(winners)
    } else {
        None
    }
}

/// The tag of a pseudo-element in the grown page.
pub fn tag_of(which: Pseudo) -> &'static str
    ensures { result.now ≡ tag_of which }
{
    match which {
        Pseudo::Before => ":before",
        Pseudo::After => ":after",
    }
}

/// The number of the characters of a text.
fn length_of(text: &str) -> usize
    ensures { result ≡ length (chars text.now) }
{
    text.chars().count()
}

/// The number of the characters of a text, if there is one.
pub fn count(text: Option<&Text>) -> usize
    ensures { result ≡ count (option_map (λ text. text.now) text.entry) }
{
    match text {
        Some(text) => length_of(text.as_str()),
        None => 0,
    }
}
