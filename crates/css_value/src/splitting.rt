ghost use Rattle.std.specs.Prelude.{◌≡◌, ◌≤◌, [], ◌∷◌, length, IfOk};
ghost use Rattle.std.specs.Option.{option_to_list};
ghost use Rattle.css_semantics.specs.SheetsMarks.{text_of};
ghost use Rattle.css_semantics.specs.SheetsReading.{gathered};
ghost use Rattle.css_semantics.specs.steps.Sheets.{at_head};
ghost use Rattle.css_semantics.specs.ValuesParts.{after_part, delim_part, part_item, part_of, parts, signed_part};

use crate::amounts::amount_of;
use crate::brackets::{bracket_len, function_part};
use css_semantics::{Part, Token};
use css_token::amounts::{after_sign, is_amount, is_minus, is_sign};
use css_token::kinds::{closing_mark, is_gap};
use css_token::{is_character, unescape};
use std::alloc::Global;
use viz_base::{List, Mem, Text, TokenKind};

/// The part that begins with a sign.
fn signed_part(alloc: Global, sign: &Token<'_>, after: &[Token<'_>]) -> Result<Part, Mem>
    ensures { IfOk result (λ part. part ≡ signed_part sign.now after.now) }
{
    match after.split_first() {
        Some((token, _)) if is_amount(token.kind) => amount_of(alloc, is_minus(sign), token),
        _ => Ok(Part::Other),
    }
}

fn delim_part(alloc: Global, token: &Token<'_>, after: &[Token<'_>]) -> Result<Part, Mem>
    ensures { IfOk result (λ part. part ≡ delim_part token.now after.now) }
{
    if is_character(token, b',') {
        Ok(Part::Comma)
    } else if is_character(token, b'/') {
        Ok(Part::Solidus)
    } else if is_sign(token) {
        signed_part(alloc, token, after)
    } else {
        Ok(Part::Other)
    }
}

/// What a token says, after escapes.
#[tactic(auto, unfolding(css_semantics::specs::SheetsMarks::text_of))]
fn said(alloc: Global, token: &Token<'_>) -> Result<Text, Mem>
    ensures { IfOk result (λ text. text ≡ text_of token.now) }
{
    unescape(alloc, token)
}

/// The part that begins with a token.
fn part_of(alloc: Global, token: &Token<'_>, after: &[Token<'_>]) -> Result<Part, Mem>
    ensures { IfOk result (λ part. part ≡ part_of token.now.kind token.now after.now) }
{
    match token.kind {
        TokenKind::Ident => Ok(Part::Word(said(alloc, token)?)),
        TokenKind::Str => Ok(Part::Quoted(said(alloc, token)?)),
        TokenKind::Number | TokenKind::Percentage | TokenKind::Dimension => {
            amount_of(alloc, false, token)
        }
        TokenKind::Hash => Ok(Part::Colour),
        TokenKind::Function => function_part(alloc, after),
        TokenKind::Uri => Ok(Part::Uri),
        TokenKind::Delim => delim_part(alloc, token, after),
        _ => Ok(Part::Other),
    }
}

/// What follows the part that begins with a token.
fn after_part<'a>(
    alloc: Global,
    token: &Token<'_>,
    after: &'a [Token<'a>],
) -> Result<&'a [Token<'a>], Mem>
    ensures { IfOk result (λ rest. rest.now ≡ after_part token.now after.now) }
{
    if closing_mark(token.kind).is_some() {
        let len = bracket_len(alloc, token.kind, after)?;
        Ok(&after[len..])
    } else if is_sign(token) {
        Ok(after_sign(after))
    } else {
        Ok(after)
    }
}

/// The part that begins the tokens, if it isn't white space or a comment, and what follows.
fn part_item<'a>(
    alloc: Global,
    tokens: &'a [Token<'a>],
) -> Result<(Option<Part>, &'a [Token<'a>]), Mem>
    ensures { IfOk result (λ p. (option_to_list p.0 ≡ at_head part_item tokens.now)
        × (p.1.now ≡ at_head after_part tokens.now)) }
{
    let Some((token, after)) = tokens.split_first() else {
        return Ok((None, tokens));
    };
    let rest = after_part(alloc, token, after)?;
    if is_gap(token.kind) {
        return Ok((None, rest));
    }
    Ok((Some(part_of(alloc, token, after)?), rest))
}

/// The parts of a value, of whose tokens the last is closed by the end of the text.
pub fn split<'a>(alloc: Global, tokens: &'a [Token<'a>]) -> Result<List<Part>, Mem>
    ensures { IfOk result (λ parts. parts ≡ gathered part_item after_part 0 tokens.now) }
{
    let mut parts = List::new(alloc);
    let mut at = 0;
    while at < tokens.len() {
        let (part, rest) = part_item(alloc, &tokens[at..])?;
        if let Some(part) = part {
            parts.push(part)?;
        }
        at = tokens.len() - rest.len();
    }
    Ok(parts)
}
