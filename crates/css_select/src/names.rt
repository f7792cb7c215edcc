ghost use Rattle.std.specs.Prelude.{◌≡◌, IfOk, codes, map, ◌||◌};
ghost use Rattle.std.specs.Char.{to_ascii_lowercase};
ghost use Rattle.css_semantics.specs.Names.{same_name};
ghost use Rattle.css_semantics.specs.SheetsMarks.{text_of};
ghost use Rattle.css_semantics.specs.SelectorTerminals.{comparison, compared, is_value, name_of, pseudo};

use css_semantics::{ColonName, Comparison, Terminal, Token};
use css_token::{same_name, unescape};
use std::alloc::Global;
use viz_base::{Mem, Pseudo, Test, Text};

/// The name of a type or an attribute, after escapes, in lower case.
#[tactic(auto, unfolding(css_semantics::specs::SelectorTerminals::name_of, css_semantics::specs::SheetsMarks::text_of))]
pub fn name_of(alloc: Global, token: &Token<'_>) -> Result<Text, Mem>
    ensures { IfOk result (λ name. name ≡ name_of token.now) }
{
    let said = unescape(alloc, token)?;
    Ok(Text::from(said.as_str().to_ascii_lowercase(alloc)?))
}

/// Whether it is a word that matches nothing.
fn is_never(text: &str) -> bool
    ensures { result ≡ (same_name text.now (codes "visited") || same_name text.now (codes "hover")
        || same_name text.now (codes "active") || same_name text.now (codes "focus")) }
{
    same_name(text, "visited")
        || same_name(text, "hover")
        || same_name(text, "active")
        || same_name(text, "focus")
}

/// Whether it is a pseudo-element that is refused.
fn is_refused(text: &str) -> bool
    ensures { result ≡ (same_name text.now (codes "first-line") || same_name text.now
        (codes "first-letter")) }
{
    same_name(text, "first-line") || same_name(text, "first-letter")
}

fn pseudo_of(text: &str) -> Option<ColonName>
    ensures { result ≡ pseudo text.now }
{
    if same_name(text, "first-child") {
        Some(ColonName::Class(Test::FirstChild))
    } else if same_name(text, "link") {
        Some(ColonName::Class(Test::Link))
    } else if is_never(text) {
        Some(ColonName::Class(Test::Never))
    } else if same_name(text, "before") {
        Some(ColonName::Generated(Pseudo::Before))
    } else if same_name(text, "after") {
        Some(ColonName::Generated(Pseudo::After))
    } else if is_refused(text) {
        Some(ColonName::Refused)
    } else {
        None
    }
}

/// What an identifier behind a colon says.
#[tactic(auto, unfolding(css_semantics::specs::SheetsMarks::text_of))]
pub fn pseudo(alloc: Global, token: &Token<'_>) -> Result<Option<ColonName>, Mem>
    ensures { IfOk result (λ said. said ≡ pseudo (text_of token.now)) }
{
    let said = unescape(alloc, token)?;
    Ok(pseudo_of(said.as_str()))
}

/// Whether a function is `lang(`.
#[tactic(auto, unfolding(css_semantics::specs::SheetsMarks::text_of))]
pub fn is_lang(alloc: Global, token: &Token<'_>) -> Result<bool, Mem>
    ensures { IfOk result (λ yes. yes ≡ same_name (text_of token.now) (codes "lang")) }
{
    let said = unescape(alloc, token)?;
    Ok(same_name(said.as_str(), "lang"))
}

/// What a token says, after escapes.
#[tactic(auto, unfolding(css_semantics::specs::SheetsMarks::text_of))]
pub fn text_of(alloc: Global, token: &Token<'_>) -> Result<Text, Mem>
    ensures { IfOk result (λ text. text ≡ text_of token.now) }
{
    unescape(alloc, token)
}

/// How a sign between an attribute's name and its value compares them.
pub fn comparison(sign: Terminal) -> Option<Comparison>
    ensures { result ≡ comparison sign }
{
    match sign {
        Terminal::Equal => Some(Comparison::Equals),
        Terminal::Includes => Some(Comparison::Word),
        Terminal::DashMatch => Some(Comparison::Dash),
        _ => None,
    }
}

/// The test of an attribute against a value.
pub fn compared(how: Comparison, name: Text, value: Text) -> Test
    ensures { result ≡ compared how name value }
{
    match how {
        Comparison::Equals => Test::Equals(name, value),
        Comparison::Word => Test::Word(name, value),
        Comparison::Dash => Test::Dash(name, value),
    }
}

/// Whether it may stand there as a value.
pub fn is_value(terminal: Terminal) -> bool
    ensures { result ≡ is_value terminal }
{
    matches!(terminal, Terminal::Ident | Terminal::Str)
}
