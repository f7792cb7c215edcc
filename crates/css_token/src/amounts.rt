//! Numbers with their units, and the signs before them (CSS 2.1, 4.3.1 and 4.3.2).

ghost use Rattle.std.specs.Prelude.{◌≡◌, ◌≤◌, ◌≤ℤ◌, ◌^◌, pos, neg_ℤ, IfOk, IfSome};
ghost use Rattle.std.specs.Option.{option_map};
ghost use Rattle.std.specs.Str.{chars};
ghost use Rattle.viz_base.specs.Decimals.{decimal_of};
ghost use Rattle.css_semantics.specs.ValuesParts.{after_sign, behind_numeral, is_amount, is_minus, is_numeral, is_sign, numeral_of, signed, unit_of};

use crate::escapes::unescape;
use crate::letters::split_char;
use crate::matching::is_character;
use css_semantics::Token;
use std::alloc::Global;
use viz_base::{Mem, Text, TokenKind, read_decimal};

/// Whether a token of this kind is a number, a percentage or a dimension (CSS 2.1, 4.1.1).
pub fn is_amount(kind: TokenKind) -> bool
    ensures { result ≡ is_amount kind }
{
    matches!(
        kind,
        TokenKind::Number | TokenKind::Percentage | TokenKind::Dimension
    )
}

/// Whether a token is `-`.
pub fn is_minus(token: &Token<'_>) -> bool
    ensures { result ≡ is_minus token.now }
{
    is_character(token, b'-')
}

/// Whether a token is `+` or `-`, which belongs to the amount directly behind it.
pub fn is_sign(token: &Token<'_>) -> bool
    ensures { result ≡ is_sign token.now }
{
    is_character(token, b'+') || is_minus(token)
}

/// What follows a sign, without the amount that belongs to it.
pub fn after_sign<'a>(tokens: &'a [Token<'a>]) -> &'a [Token<'a>]
    ensures { result.now ≡ after_sign tokens.now }
{
    if let Some((token, after)) = tokens.split_first() {
        if is_amount(token.kind) {
            return after;
        }
    }
    tokens
}

fn is_numeral_byte(byte: u8) -> bool
    ensures { result ≡ is_numeral byte }
{
    byte.is_ascii_digit() || byte == b'.'
}

fn is_numeral(letter: char) -> bool
    ensures { result ≡ is_numeral letter }
{
    matches!(letter, '0'..='9' | '.')
}

/// The digits and the point at the front.
fn numeral_of(text: &[u8]) -> &[u8]
    ensures { result.now ≡ numeral_of text.now }
{
    for at in 0..text.len() {
        if !is_numeral_byte(text[at]) {
            return &text[..at];
        }
    }
    text
}

/// What follows the digits and the point.
fn behind_numeral(text: &str) -> &str
    ensures { chars result.now ≡ behind_numeral (chars text.now) }
{
    let mut rest = text;
    while let Some((letter, after)) = split_char(rest) {
        if !is_numeral(letter) {
            return rest;
        }
        rest = after;
    }
    rest
}

/// The unit of an amount, after escapes.
pub fn unit_of(alloc: Global, token: &Token<'_>) -> Result<Text, Mem>
    ensures { IfOk result (λ unit. unit ≡ unit_of (chars token.now.text)) }
{
    let unit = Token {
        kind: TokenKind::Ident,
        at: token.at,
        text: behind_numeral(token.text),
    };
    unescape(alloc, &unit)
}

/// A count of millionths with its sign; none where it is past the bound.
pub fn signed_count(negative: bool, token: &Token<'_>) -> Option<i64>
    ensures value { result ≡ option_map (signed negative) (decimal_of (numeral_of token.now.text)) }
    ensures low { IfSome result (λ n. neg_ℤ (pos (2 ^ 40)) ≤ℤ n) }
    ensures high { IfSome result (λ n. n ≤ℤ pos (2 ^ 40)) }
{
    let n = read_decimal(numeral_of(token.text.as_bytes()))?;
    if negative { Some(-n) } else { Some(n) }
}
