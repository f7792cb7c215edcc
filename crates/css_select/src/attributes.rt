ghost use Rattle.std.specs.Prelude.{◌≡◌, None, Some, MatchOption, true};
ghost use Rattle.std.specs.List.{list_any};
ghost use Rattle.css_semantics.specs.TokensLetters.{is_space};
ghost use Rattle.css_select.specs.steps.Attributes.{attribute_passes, begins_word, behind, found, has_word, is_dashed, is_solid};

use css_token::same_name;
use viz_base::{Attr, Element, Test};

fn is_space(byte: u8) -> bool
    ensures { result ≡ is_space byte }
{
    matches!(byte, b' ' | b'\t' | b'\n' | b'\r' | 0xc)
}

/// What follows the word at the front of a text.
fn behind<'a>(text: &'a [u8], word: &[u8]) -> Option<&'a [u8]>
    ensures { MatchOption result (behind word.now text.now ≡ None)
        (λ rest. behind word.now text.now ≡ Some rest.now) }
{
    text.strip_prefix(word)
}

/// Whether the word stands at the front, and white space or nothing follows.
fn begins_word(text: &[u8], word: &[u8]) -> bool
    ensures { result ≡ begins_word word.now text.now }
{
    match behind(text, word) {
        Some([byte, ..]) => is_space(*byte),
        Some(_) => true,
        None => false,
    }
}

/// Whether the word stands somewhere between white space or the ends of a text.
fn found(text: &[u8], word: &[u8]) -> bool
    ensures { result ≡ found true word.now text.now }
{
    let mut start = true;
    for (at, byte) in text.iter().enumerate() {
        if start && begins_word(&text[at..], word) {
            return true;
        }
        start = is_space(*byte);
    }
    false
}

fn has_white(text: &[u8]) -> bool
    ensures { result ≡ list_any is_space text.now }
{
    text.iter().any(|byte| is_space(*byte))
}

/// Whether a text is a word: not nothing, and without white space.
fn is_solid(word: &[u8]) -> bool
    ensures { result ≡ is_solid word.now }
{
    !word.is_empty() && !has_white(word)
}

/// Whether a text has a word (CSS 2.1, 5.8.1).
fn has_word(text: &str, word: &str) -> bool
    ensures { result ≡ has_word text.now word.now }
{
    is_solid(word.as_bytes()) && found(text.as_bytes(), word.as_bytes())
}

/// Whether a text is the value, or begins with it and a hyphen (CSS 2.1, 5.8.1).
fn is_dashed(text: &str, value: &str) -> bool
    ensures { result ≡ is_dashed text.now value.now }
{
    match behind(text.as_bytes(), value.as_bytes()) {
        Some([byte, ..]) => *byte == b'-',
        Some(_) => true,
        None => false,
    }
}

/// Whether an attribute is one that a test asks for.
fn attribute_passes(attribute: &Attr, test: &Test) -> bool
    ensures { result ≡ attribute_passes test.now attribute.now }
{
    let name = attribute.name.as_str();
    let value = attribute.value.as_str();
    match test {
        Test::Id(id) => same_name("id", name) && value == id.as_str(),
        Test::Class(word) => same_name("class", name) && has_word(value, word.as_str()),
        Test::Has(wanted) => same_name(wanted.as_str(), name),
        Test::Equals(wanted, text) => same_name(wanted.as_str(), name) && value == text.as_str(),
        Test::Word(wanted, word) => {
            same_name(wanted.as_str(), name) && has_word(value, word.as_str())
        }
        Test::Dash(wanted, text) => {
            same_name(wanted.as_str(), name) && is_dashed(value, text.as_str())
        }
        Test::Link => same_name("href", name),
        Test::FirstChild | Test::Never => false,
    }
}

/// Whether an element has an attribute that a test asks for.
pub fn some_attribute(element: &Element, test: &Test) -> bool
    ensures { result ≡ list_any (attribute_passes test.now) element.now.attrs }
{
    for attribute in element.attrs.as_slice() {
        if attribute_passes(attribute, test) {
            return true;
        }
    }
    false
}
