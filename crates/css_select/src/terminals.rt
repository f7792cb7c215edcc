ghost use Rattle.std.specs.Prelude.{◌≡◌, ◌==◌, ◌||◌, [], ◌∷◌, drop, MatchOption};
ghost use Rattle.std.specs.Str.{chars};
ghost use Rattle.css_semantics.specs.TokensLetters.{is_start};
ghost use Rattle.css_semantics.specs.SelectorTerminals.{begins_identifier, begins_plain, is_comment, terminal, terminal_of_character, terminal_of_hash};

use css_semantics::{Terminal, Token};
use viz_base::TokenKind;

/// Whether a character may begin an identifier, by itself or as an escape.
fn begins_by(letter: char) -> bool
    ensures { result ≡ (is_start letter || letter == 92) }
{
    matches!(letter, 'a'..='z' | 'A'..='Z' | '_' | '\u{a0}'.. | '\\')
}

/// The first character, and what follows it.
fn split_char(text: &str) -> Option<(char, &str)>
    ensures { MatchOption result (chars text.now ≡ []) (λ p. chars text.now ≡ p.0 ∷ chars p.1.now) }
{
    let mut letters = text.chars();
    let first = letters.next()?;
    Some((first, letters.as_str()))
}

/// What follows the first character.
fn skip_char(text: &str) -> &str
    ensures { chars result.now ≡ drop 1 (chars text.now) }
{
    match split_char(text) {
        Some((_, rest)) => rest,
        None => text,
    }
}

fn starts_plain(text: &str) -> bool
    ensures { result ≡ begins_plain (chars text.now) }
{
    match split_char(text) {
        Some((letter, _)) => begins_by(letter),
        None => false,
    }
}

/// Whether a text begins as an identifier does.
fn begins_identifier(text: &str) -> bool
    ensures { result ≡ begins_identifier (chars text.now) }
{
    match split_char(text) {
        Some(('-', rest)) => starts_plain(rest),
        Some((letter, _)) => begins_by(letter),
        None => false,
    }
}

/// The identifier behind a `#`, or another name.
fn terminal_of_hash(text: &str) -> Terminal
    ensures { result ≡ terminal_of_hash text.now }
{
    if begins_identifier(skip_char(text)) {
        Terminal::Id
    } else {
        Terminal::Other
    }
}

fn terminal_of_character(text: &str) -> Terminal
    ensures { result ≡ terminal_of_character text.now }
{
    let bytes = text.as_bytes();
    if bytes == b"*".as_slice() {
        Terminal::Star
    } else if bytes == b".".as_slice() {
        Terminal::Dot
    } else if bytes == b",".as_slice() {
        Terminal::Comma
    } else if bytes == b">".as_slice() {
        Terminal::Greater
    } else if bytes == b"+".as_slice() {
        Terminal::Plus
    } else if bytes == b"=".as_slice() {
        Terminal::Equal
    } else {
        Terminal::Other
    }
}

/// What a token is in a selector.
pub fn terminal(token: &Token<'_>) -> Terminal
    ensures { result ≡ terminal token.now }
{
    match token.kind {
        TokenKind::Space => Terminal::Space,
        TokenKind::Ident => Terminal::Ident,
        TokenKind::Str => Terminal::Str,
        TokenKind::Hash => terminal_of_hash(token.text),
        TokenKind::Function => Terminal::Function,
        TokenKind::Includes => Terminal::Includes,
        TokenKind::DashMatch => Terminal::DashMatch,
        TokenKind::LeftBracket => Terminal::LeftBracket,
        TokenKind::RightBracket => Terminal::RightBracket,
        TokenKind::RightParen => Terminal::RightParen,
        TokenKind::Colon => Terminal::Colon,
        TokenKind::Delim => terminal_of_character(token.text),
        _ => Terminal::Other,
    }
}

/// Whether a token of this kind is a comment.
pub fn is_comment(kind: TokenKind) -> bool
    ensures { result ≡ is_comment kind }
{
    matches!(kind, TokenKind::Comment)
}
