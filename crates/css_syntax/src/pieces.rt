ghost use Rattle.std.specs.Prelude.{◌≡◌, ◌≤◌, ◌*ℤ◌, ◌≤ℤ◌, ◌^◌, pos, neg_ℤ, IfOk};
ghost use Rattle.std.specs.Option.{option_to_list};
ghost use Rattle.css_semantics.specs.MediaLists.{after_piece, amount_piece, counted_piece, piece_item, piece_of, pieces, signed_piece, width_in, width_of, width_piece, word_of};
ghost use Rattle.css_semantics.specs.SheetsMarks.{text_of};
ghost use Rattle.css_semantics.specs.declared.media.MediaPiece.TheVariants.{Word};
ghost use Rattle.css_semantics.specs.SheetsReading.{gathered};
ghost use Rattle.css_semantics.specs.Values.{is_negative, is_zero};
ghost use Rattle.css_semantics.specs.steps.Sheets.{at_head};
ghost use Rattle.viz_base.specs.Numbers.{floor_of};

use crate::declarations::is_closed;
use css_semantics::{MediaPiece, MediaWord, Token};
use css_token::amounts::{after_sign, is_amount, is_minus, is_sign, signed_count, unit_of};
use css_token::kinds::is_gap;
use css_token::{same_name, unescape};
use std::alloc::Global;
use viz_base::{Bound, List, Mem, TokenKind};

/// What an identifier says in a media list.
fn word_of(name: &str) -> MediaWord
    ensures { result ≡ word_of name.now }
{
    if same_name(name, "only") {
        MediaWord::Only
    } else if same_name(name, "not") {
        MediaWord::Not
    } else if same_name(name, "and") {
        MediaWord::And
    } else if same_name(name, "or") {
        MediaWord::Or
    } else if same_name(name, "all") {
        MediaWord::Shown
    } else if same_name(name, "screen") {
        MediaWord::Shown
    } else if same_name(name, "min-width") {
        MediaWord::MinWidth
    } else if same_name(name, "max-width") {
        MediaWord::MaxWidth
    } else {
        MediaWord::Other
    }
}

/// The piece of an identifier.
#[tactic(auto, unfolding(css_semantics::specs::SheetsMarks::text_of))]
fn word_piece(alloc: Global, token: &Token<'_>) -> Result<MediaPiece, Mem>
    ensures { IfOk result (λ piece. piece ≡ Word (word_of (text_of token.now))) }
{
    let name = unescape(alloc, token)?;
    Ok(MediaPiece::Word(word_of(name.as_str())))
}

/// So many millionths of a pixel in 1/64 px, rounded down.
fn units_of(n: i64) -> i64
    requires low { neg_ℤ (pos (2 ^ 40)) ≤ℤ n }
    requires high { n ≤ℤ pos (2 ^ 40) }
    ensures { result ≡ floor_of (n *ℤ pos 64) 1000000 }
{
    let parts = n * 64;
    parts.div_euclid(1_000_000)
}

/// A width of so many millionths of a unit; none where it is below zero, or the unit is neither px nor em.
fn width_in(n: i64, unit: &str) -> Option<Bound>
    requires low { neg_ℤ (pos (2 ^ 40)) ≤ℤ n }
    requires high { n ≤ℤ pos (2 ^ 40) }
    ensures { result ≡ width_in n unit.now }
{
    if n < 0 {
        None
    } else if same_name(unit, "px") {
        Some(Bound::Px(units_of(n)))
    } else if same_name(unit, "em") {
        Some(Bound::Em(n))
    } else {
        None
    }
}

/// A width by the kind of its token: zero needs no unit.
fn width_of(kind: TokenKind, n: i64, unit: &str) -> Option<Bound>
    requires low { neg_ℤ (pos (2 ^ 40)) ≤ℤ n }
    requires high { n ≤ℤ pos (2 ^ 40) }
    ensures { result ≡ width_of kind n unit.now }
{
    match kind {
        TokenKind::Number if n == 0 => Some(Bound::Px(n)),
        TokenKind::Dimension => width_in(n, unit),
        _ => None,
    }
}

fn width_piece(width: Option<Bound>) -> MediaPiece
    ensures { result ≡ width_piece width }
{
    match width {
        Some(bound) => MediaPiece::Width(bound),
        None => MediaPiece::Other,
    }
}

/// The piece of a number with its unit.
fn amount_piece(alloc: Global, negative: bool, token: &Token<'_>) -> Result<MediaPiece, Mem>
    ensures { IfOk result (λ piece. piece ≡ amount_piece negative token.now) }
{
    let Some(n) = signed_count(negative, token) else {
        return Ok(MediaPiece::Other);
    };
    let unit = unit_of(alloc, token)?;
    Ok(width_piece(width_of(token.kind, n, unit.as_str())))
}

/// The piece that begins with a sign.
fn signed_piece(alloc: Global, sign: &Token<'_>, after: &[Token<'_>]) -> Result<MediaPiece, Mem>
    ensures { IfOk result (λ piece. piece ≡ signed_piece sign.now after.now) }
{
    match after.split_first() {
        Some((token, _)) if is_amount(token.kind) => amount_piece(alloc, is_minus(sign), token),
        _ => Ok(MediaPiece::Other),
    }
}

/// The piece that begins with a token that is neither white space nor a comment.
fn piece_of(alloc: Global, token: &Token<'_>, after: &[Token<'_>]) -> Result<MediaPiece, Mem>
    ensures { IfOk result (λ piece. piece ≡ piece_of token.now.kind token.now after.now) }
{
    match token.kind {
        TokenKind::Ident => word_piece(alloc, token),
        TokenKind::LeftParen => Ok(MediaPiece::Open),
        TokenKind::RightParen => Ok(MediaPiece::Close),
        TokenKind::Colon => Ok(MediaPiece::Colon),
        TokenKind::Number | TokenKind::Dimension => amount_piece(alloc, false, token),
        TokenKind::Delim if is_sign(token) => signed_piece(alloc, token, after),
        _ => Ok(MediaPiece::Other),
    }
}

/// What follows the piece that begins with a token.
fn after_piece<'a>(token: &Token<'_>, after: &'a [Token<'a>]) -> &'a [Token<'a>]
    ensures { result.now ≡ after_piece token.now after.now }
{
    if is_sign(token) {
        after_sign(after)
    } else {
        after
    }
}

/// The piece that begins the tokens, if it isn't white space or a comment, and what follows.
fn piece_item<'a>(
    alloc: Global,
    tokens: &'a [Token<'a>],
) -> Result<(Option<MediaPiece>, &'a [Token<'a>]), Mem>
    ensures { IfOk result (λ p. (option_to_list p.0 ≡ at_head piece_item tokens.now)
        × (p.1.now ≡ at_head after_piece tokens.now)) }
{
    let Some((token, after)) = tokens.split_first() else {
        return Ok((None, tokens));
    };
    let rest = after_piece(token, after);
    if is_gap(token.kind) {
        return Ok((None, rest));
    }
    Ok((Some(piece_of(alloc, token, after)?), rest))
}

/// The pieces that stand in the tokens.
fn written<'a>(alloc: Global, tokens: &'a [Token<'a>]) -> Result<List<MediaPiece>, Mem>
    ensures { IfOk result (λ found. found ≡ gathered piece_item after_piece 0 tokens.now) }
{
    let mut found = List::new(alloc);
    let mut at = 0;
    while at < tokens.len() {
        let (piece, rest) = piece_item(alloc, &tokens[at..])?;
        if let Some(piece) = piece {
            found.push(piece)?;
        }
        at = tokens.len() - rest.len();
    }
    Ok(found)
}

/// The pieces of an entry of a media list, whose parenthesis the end of the sheet closes where it is open there.
pub fn pieces<'a>(alloc: Global, entry: &'a [Token<'a>]) -> Result<List<MediaPiece>, Mem>
    ensures { IfOk result (λ found. found ≡ pieces entry.now) }
{
    let mut found = written(alloc, entry)?;
    if !is_closed(alloc, entry)? {
        found.push(MediaPiece::Close)?;
    }
    Ok(found)
}
