ghost use Rattle.std.specs.Prelude.{◌≡◌, ◌≤◌, [], drop, length, IfOk};
ghost use Rattle.css_semantics.specs.SheetsReading.{stretch_len};
ghost use Rattle.css_semantics.specs.steps.Sheets.{after_at_rule, after_block, after_prelude};
ghost use Rattle.css_semantics.specs.steps.Stretches.{behind, front};
ghost use Rattle.css_syntax.specs.Classes.{stops};

use css_semantics::Token;
use css_token::kinds::{is_left_brace, is_semicolon};
use css_token::{Marks, is_character};
use std::alloc::Global;
use viz_base::{Mem, TokenKind};

/// What a stretch of tokens is, by which it is known where it ends.
#[derive(Clone, Copy)]
pub enum Stop {
    /// The prelude of an at-rule: before its `;` or its `{`.
    Prelude,
    /// A selector: before its `{`.
    Selector,
    /// What stands in a block: before its `}`.
    Block,
    /// A declaration: before its `;`.
    Declaration,
    /// An entry of a media list: before its `,`.
    Entry,
}

fn stops(stop: Stop, token: &Token<'_>) -> bool
    ensures { result ≡ stops stop token.now }
{
    match stop {
        Stop::Prelude => is_semicolon(token.kind) || is_left_brace(token.kind),
        Stop::Selector => is_left_brace(token.kind),
        Stop::Block => matches!(token.kind, TokenKind::RightBrace),
        Stop::Declaration => is_semicolon(token.kind),
        Stop::Entry => is_character(token, b','),
    }
}

/// How many tokens stand before the first that ends the stretch, outside all pairs of brackets.
fn stretch_len(alloc: Global, tokens: &[Token<'_>], stop: Stop) -> Result<usize, Mem>
    ensures is { IfOk result (λ n. n ≡ stretch_len (stops stop) [] tokens.now) }
    ensures within { IfOk result (λ n. n ≤ length tokens.now) }
{
    let mut marks = Marks::new(alloc);
    for (at, token) in tokens.iter().enumerate() {
        if marks.is_none() && stops(stop, token) {
            return Ok(at);
        }
        marks.pass(token.kind)?;
    }
    Ok(tokens.len())
}

/// The stretch at the front of the tokens, and what stands behind it.
pub fn split<'a>(
    alloc: Global,
    tokens: &'a [Token<'a>],
    stop: Stop,
) -> Result<(&'a [Token<'a>], &'a [Token<'a>]), Mem>
    ensures { IfOk result (λ p. (p.0.now ≡ front (stops stop) tokens.now)
        × (p.1.now ≡ behind (stops stop) tokens.now)) }
{
    let len = stretch_len(alloc, tokens, stop)?;
    Ok(tokens.split_at(len))
}

/// What follows the first token.
pub fn skip_first<'a>(tokens: &'a [Token<'a>]) -> &'a [Token<'a>]
    ensures { result.now ≡ drop 1 tokens.now }
{
    &tokens[tokens.len().min(1)..]
}

/// What follows the block whose `{` stands before the tokens.
pub fn after_block<'a>(alloc: Global, tokens: &'a [Token<'a>]) -> Result<&'a [Token<'a>], Mem>
    ensures { IfOk result (λ rest. rest.now ≡ after_block tokens.now) }
{
    let (_, rest) = split(alloc, tokens, Stop::Block)?;
    Ok(skip_first(rest))
}

/// What follows the at-rule whose keyword stands before the tokens.
pub fn after_at_rule<'a>(alloc: Global, tokens: &'a [Token<'a>]) -> Result<&'a [Token<'a>], Mem>
    ensures { IfOk result (λ rest. rest.now ≡ after_at_rule tokens.now) }
{
    let (_, rest) = split(alloc, tokens, Stop::Prelude)?;
    match rest.split_first() {
        Some((first, after)) if is_left_brace(first.kind) => after_block(alloc, after),
        _ => Ok(skip_first(rest)),
    }
}
