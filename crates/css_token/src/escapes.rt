ghost use Rattle.std.specs.Prelude.{◌≡◌, ℕ, ◌<◌, true, ◌++◌, List, [], ◌∷◌, drop, encode_utf8_all, IfOk, OnOk};
ghost use Rattle.std.specs.Str.{chars};
ghost use Rattle.css_semantics.specs.TokensLetters.{is_hex};
ghost use Rattle.css_semantics.specs.TokensUnescaped.{address, hex_value, quoted, resolved, scalar, unescaped, without_white};
ghost use Rattle.css_token.specs.steps.Resolve.{IsSmall, above_digits, after_number, extent_of, resolved_in};

use crate::letters::{is_digit, is_hex, is_newline, is_space, split_char};
use css_semantics::Token;
use std::alloc::Global;
use viz_base::{Mem, Text, TokenKind};

/// Where a text ends before its end.
#[derive(Clone, Copy)]
enum Ending {
    Nowhere,

    /// At this mark.
    Mark(char),

    /// At what closes an address without quotes: white space or a parenthesis.
    Closing,
}

/// Behind what a text is resolved.
#[derive(Clone, Copy)]
enum Mode {
    Plain,
    Backslash,

    /// A number to which so many digits may still come.
    Number(u8, u32),

    /// A carriage return to which a line feed belongs.
    Return,

    /// The end of the text.
    Done,
}

fn hex_value(letter: char) -> u32
    requires { is_hex letter ≡ true }
    ensures value { result ≡ hex_value letter }
    ensures small { result < 16 }
{
    let code = u32::from(letter);
    match letter {
        '0'..='9' => code - 48,
        'a'..='f' => code - 87,
        _ => code - 55,
    }
}

/// The character of a number, or U+FFFD where it is none that a text may hold.
fn scalar(n: u32) -> char
    ensures { result ≡ scalar n }
{
    match char::from_u32(n) {
        Some(letter) if n > 0 => letter,
        _ => '\u{fffd}',
    }
}

fn ends(ending: Ending, letter: char) -> bool
    ensures { result ≡ (extent_of ending).ends letter }
{
    match ending {
        Ending::Nowhere => false,
        Ending::Mark(mark) => letter == mark,
        Ending::Closing => is_space(letter) || letter == ')',
    }
}

/// Takes a character that no escape has.
fn take_plain(said: &mut Text, ending: Ending, letter: char) -> Result<Mode, Mem>
    ensures small { IfOk result IsSmall }
    ensures said { IfOk result (λ next. (cs : List ℕ)
        → said.old ++ encode_utf8_all (resolved (extent_of ending) (letter ∷ cs))
        ≡ said.new ++ encode_utf8_all (resolved_in ending next cs)) }
{
    if letter == '\\' {
        Ok(Mode::Backslash)
    } else if ends(ending, letter) {
        Ok(Mode::Done)
    } else {
        said.push(letter)?;
        Ok(Mode::Plain)
    }
}

/// Takes the first character of an escape.
fn take_escaped(said: &mut Text, ending: Ending, letter: char) -> Result<Mode, Mem>
    ensures small { IfOk result IsSmall }
    ensures said { IfOk result (λ next. (cs : List ℕ)
        → said.old ++ encode_utf8_all (resolved_in ending Mode.Backslash (letter ∷ cs))
        ≡ said.new ++ encode_utf8_all (resolved_in ending next cs)) }
{
    if is_hex(letter) {
        Ok(Mode::Number(5, hex_value(letter)))
    } else if letter == '\r' {
        Ok(Mode::Return)
    } else if is_newline(letter) {
        Ok(Mode::Plain)
    } else {
        said.push(letter)?;
        Ok(Mode::Plain)
    }
}

/// Takes the character behind a number that is complete.
fn take_after_number(said: &mut Text, ending: Ending, letter: char) -> Result<Mode, Mem>
    ensures small { IfOk result IsSmall }
    ensures said { IfOk result (λ next. (cs : List ℕ)
        → said.old ++ encode_utf8_all (after_number (extent_of ending) letter cs)
        ≡ said.new ++ encode_utf8_all (resolved_in ending next cs)) }
{
    if letter == '\r' {
        Ok(Mode::Return)
    } else if is_space(letter) {
        Ok(Mode::Plain)
    } else {
        take_plain(said, ending, letter)
    }
}

/// Takes a character behind a number.
fn take_number(said: &mut Text, ending: Ending, left: u8, n: u32, letter: char) -> Result<Mode, Mem>
    requires left { left < 6 }
    requires small { n < above_digits left }
    ensures small { IfOk result IsSmall }
    ensures said { IfOk result (λ next. (cs : List ℕ)
        → said.old ++ encode_utf8_all (resolved_in ending (Mode.Number left n) (letter ∷ cs))
        ≡ said.new ++ encode_utf8_all (resolved_in ending next cs)) }
{
    if is_hex(letter) && left > 0 {
        return Ok(Mode::Number(left - 1, 16 * n + hex_value(letter)));
    }
    said.push(scalar(n))?;
    take_after_number(said, ending, letter)
}

fn take_returned(said: &mut Text, ending: Ending, letter: char) -> Result<Mode, Mem>
    ensures small { IfOk result IsSmall }
    ensures said { IfOk result (λ next. (cs : List ℕ)
        → said.old ++ encode_utf8_all (resolved_in ending Mode.Return (letter ∷ cs))
        ≡ said.new ++ encode_utf8_all (resolved_in ending next cs)) }
{
    if letter == '\n' {
        Ok(Mode::Plain)
    } else {
        take_plain(said, ending, letter)
    }
}

fn take(said: &mut Text, ending: Ending, mode: Mode, letter: char) -> Result<Mode, Mem>
    requires { IsSmall mode }
    ensures small { IfOk result IsSmall }
    ensures said { IfOk result (λ next. (cs : List ℕ)
        → said.old ++ encode_utf8_all (resolved_in ending mode (letter ∷ cs))
        ≡ said.new ++ encode_utf8_all (resolved_in ending next cs)) }
{
    match mode {
        Mode::Plain => take_plain(said, ending, letter),
        Mode::Backslash => take_escaped(said, ending, letter),
        Mode::Number(left, n) => take_number(said, ending, left, n, letter),
        Mode::Return => take_returned(said, ending, letter),
        Mode::Done => Ok(Mode::Done),
    }
}

/// Takes the end of the text.
fn finish(said: &mut Text, ending: Ending, mode: Mode) -> Result<(), Mem>
    ensures { OnOk result (said.old ++ encode_utf8_all (resolved_in ending mode []) ≡ said.new) }
{
    match mode {
        Mode::Plain | Mode::Return | Mode::Done => Ok(()),
        Mode::Backslash => finish_backslash(said, ending),
        Mode::Number(_, n) => {
            said.push(scalar(n))?;
            Ok(())
        }
    }
}

fn finish_backslash(said: &mut Text, ending: Ending) -> Result<(), Mem>
    ensures { OnOk result (said.old ++ encode_utf8_all (resolved_in ending Mode.Backslash [])
        ≡ said.new) }
{
    match ending {
        Ending::Nowhere => {
            said.push('\\')?;
            Ok(())
        }
        Ending::Mark(_) | Ending::Closing => Ok(()),
    }
}

/// The text with each escape resolved, up to where it ends.
fn resolve(alloc: Global, ending: Ending, text: &str) -> Result<Text, Mem>
    ensures { IfOk result (λ t. t ≡ encode_utf8_all
        (resolved (extent_of ending) (chars text.now))) }
{
    let mut said = Text::new(alloc);
    let mut mode = Mode::Plain;
    let mut rest = text;
    while let Some((letter, after)) = split_char(rest) {
        mode = take(&mut said, ending, mode, letter)?;
        rest = after;
    }
    finish(&mut said, ending, mode)?;
    Ok(said)
}

fn skip_char(text: &str) -> &str
    ensures { chars result.now ≡ drop 1 (chars text.now) }
{
    match split_char(text) {
        Some((_, rest)) => rest,
        None => text,
    }
}

fn skip_opening(text: &str) -> &str
    ensures { chars result.now ≡ drop 4 (chars text.now) }
{
    skip_char(skip_char(skip_char(skip_char(text))))
}

fn skip_white(text: &str) -> &str
    ensures { chars result.now ≡ without_white (chars text.now) }
{
    let mut rest = text;
    while let Some((letter, after)) = split_char(rest) {
        if !is_space(letter) {
            return rest;
        }
        rest = after;
    }
    rest
}

fn quoted(alloc: Global, text: &str) -> Result<Text, Mem>
    ensures { IfOk result (λ t. t ≡ encode_utf8_all (quoted (chars text.now))) }
{
    match split_char(text) {
        Some((quote, rest)) => resolve(alloc, Ending::Mark(quote), rest),
        None => Ok(Text::new(alloc)),
    }
}

fn address(alloc: Global, text: &str) -> Result<Text, Mem>
    ensures { IfOk result (λ t. t ≡ encode_utf8_all (address (chars text.now))) }
{
    match split_char(text) {
        Some(('"' | '\'', _)) => quoted(alloc, text),
        _ => resolve(alloc, Ending::Closing, text),
    }
}

/// What a token says: its text with escapes resolved, without the quotes, the `#`, the `@` or the `(` of its kind, and
/// of an address the address alone (CSS 2.1, 4.1.3).
///
/// `Mem` for want of memory; no clause says when.
pub fn unescape(alloc: Global, token: &Token<'_>) -> Result<Text, Mem>
    ensures { IfOk result (λ t. t ≡ encode_utf8_all
        (unescaped token.now.kind (chars token.now.text))) }
{
    let text = token.text;
    match token.kind {
        TokenKind::Str | TokenKind::BadString => quoted(alloc, text),
        TokenKind::Uri | TokenKind::BadUri => address(alloc, skip_white(skip_opening(text))),
        TokenKind::AtKeyword | TokenKind::Hash => resolve(alloc, Ending::Nowhere, skip_char(text)),
        TokenKind::Function => resolve(alloc, Ending::Mark('('), text),
        _ => resolve(alloc, Ending::Nowhere, text),
    }
}
