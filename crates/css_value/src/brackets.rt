ghost use Rattle.std.specs.Prelude.{◌≡◌, ◌≤◌, true, ◌∷◌, [], take, length, IfOk};
ghost use Rattle.css_semantics.specs.SheetsMarks.{closing_mark};
ghost use Rattle.css_semantics.specs.SheetsReading.{awaited, goes_on, stretch_len};
ghost use Rattle.css_semantics.specs.ValuesParts.{function_part};

use css_semantics::{Part, Token};
use css_token::Marks;
use std::alloc::Global;
use viz_base::{Mem, TokenKind};

/// How many tokens behind the opener stand in its brackets, with the closing mark; all where it isn't there.
pub fn bracket_len(alloc: Global, opener: TokenKind, tokens: &[Token<'_>]) -> Result<usize, Mem>
    ensures is { IfOk result (λ n. n ≡ stretch_len (λ t. true) (awaited opener []) tokens.now) }
    ensures within { IfOk result (λ n. n ≤ length tokens.now) }
{
    let mut marks = Marks::new(alloc);
    marks.pass(opener)?;
    for (at, token) in tokens.iter().enumerate() {
        if marks.is_none() {
            return Ok(at);
        }
        marks.pass(token.kind)?;
    }
    Ok(tokens.len())
}

/// Whether the brackets of a function match in the tokens behind it.
fn goes_on(alloc: Global, tokens: &[Token<'_>]) -> Result<bool, Mem>
    ensures { IfOk result (λ matched. matched ≡ goes_on (TokenKind.RightParen ∷ []) tokens.now) }
{
    let mut marks = Marks::new(alloc);
    marks.pass(TokenKind::Function)?;
    for token in tokens {
        if !marks.pass_in_value(token.kind)? {
            return Ok(false);
        }
    }
    Ok(true)
}

/// The part that a function with these tokens behind it is.
pub fn function_part(alloc: Global, tokens: &[Token<'_>]) -> Result<Part, Mem>
    ensures { IfOk result (λ part. part ≡ function_part tokens.now) }
{
    let len = bracket_len(alloc, TokenKind::Function, tokens)?;
    Ok(Part::Function(goes_on(alloc, &tokens[..len])?))
}
