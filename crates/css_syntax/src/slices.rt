ghost use Rattle.std.specs.Prelude.{◌≡◌, ◌-◌, ◌≤◌, ◌^◌, length, slice_get, MatchResult};
ghost use Rattle.std.specs.List.{list_all, prefix_len, suffix_len};
ghost use Rattle.css_semantics.specs.SheetsMarks.{is_gap};
ghost use Rattle.css_semantics.specs.SheetsReading.{end_of, extent, start_of, trim_end, trim_start, trimmed};
ghost use Rattle.css_syntax.specs.Classes.{class_has};

use css_semantics::Token;
use css_token::kinds::{is_gap, is_space};
use viz_base::{Mem, TokenKind};

/// What is cut from the ends of a stretch.
#[derive(Clone, Copy)]
pub enum Class {
    Space,
    /// White space and comments.
    Gap,
}

/// Whether tokens of this kind are of the class.
pub fn class_has(class: Class, kind: TokenKind) -> bool
    ensures { result ≡ class_has class kind }
{
    match class {
        Class::Space => is_space(kind),
        Class::Gap => is_gap(kind),
    }
}

/// Whether a token is of the class.
fn is_of(token: &Token<'_>, class: Class) -> bool
    ensures { result ≡ class_has class token.now.kind }
{
    class_has(class, token.kind)
}

/// How many tokens at the front are of the class.
fn front_len(tokens: &[Token<'_>], class: Class) -> usize
    ensures is { result ≡ prefix_len (λ t. class_has class t.kind) tokens.now }
    ensures within { result ≤ length tokens.now }
{
    for (at, token) in tokens.iter().enumerate() {
        if !is_of(token, class) {
            return at;
        }
    }
    tokens.len()
}

/// Where the tokens of the class at the end begin.
fn end_start(tokens: &[Token<'_>], class: Class) -> usize
    ensures is { result ≡ length tokens.now - suffix_len (λ t. class_has class t.kind) tokens.now }
    ensures within { result ≤ length tokens.now }
{
    let mut end = tokens.len();
    while end > 0 && is_of(&tokens[end - 1], class) {
        end -= 1;
    }
    end
}

/// The tokens without those of the class at the start.
pub fn trim_start<'a>(tokens: &'a [Token<'a>], class: Class) -> &'a [Token<'a>]
    ensures { result.now ≡ trim_start (class_has class) tokens.now }
{
    &tokens[front_len(tokens, class)..]
}

/// The tokens without those of the class at the end.
pub fn trim_end<'a>(tokens: &'a [Token<'a>], class: Class) -> &'a [Token<'a>]
    ensures { result.now ≡ trim_end (class_has class) tokens.now }
{
    &tokens[..end_start(tokens, class)]
}

/// Whether the tokens are white space and comments alone.
pub fn is_all_gap(tokens: &[Token<'_>]) -> bool
    ensures { result ≡ list_all (λ t. is_gap t.kind) tokens.now }
{
    tokens.iter().all(|token| is_gap(token.kind))
}

/// The tokens without those of the class at both ends.
pub fn trim<'a>(tokens: &'a [Token<'a>], class: Class) -> &'a [Token<'a>]
    ensures { result.now ≡ trimmed (class_has class) tokens.now }
{
    trim_end(trim_start(tokens, class), class)
}

/// A place or a length in a text. In a text of `2^32` bytes and more it may not fit, which counts as want of memory.
pub fn place(at: usize) -> Result<u32, Mem>
    ensures { MatchResult result (λ n. n ≡ at) (λ _. 2 ^ 32 ≤ at) }
{
    u32::try_from(at).map_err(|_| Mem)
}

/// Where the first of the tokens stands, or the place where there is none.
pub fn start_of(tokens: &[Token<'_>], at: usize) -> usize
    ensures { result ≡ start_of at tokens.now }
{
    tokens.first().map_or(at, |token| token.at)
}

/// How many bytes the tokens span. Where they end past `2^64`, which counts as want of memory, as no text does.
pub fn extent(tokens: &[Token<'_>]) -> Result<usize, Mem>
    ensures { MatchResult result (λ n. n ≡ extent tokens.now)
        (λ _. 2 ^ 64 ≤ end_of (slice_get tokens.now (length tokens.now - 1))) }
{
    let Some(last) = tokens.last() else {
        return Ok(0);
    };
    let end = last.at.checked_add(last.text.len()).ok_or(Mem)?;
    Ok(end.saturating_sub(start_of(tokens, 0)))
}
