ghost use Rattle.std.specs.Prelude.{◌≡◌, ◌+◌, ◌<◌, ◌≤◌, drop, length, IfOk};
ghost use Rattle.vis_read.specs.Pieces.{IsPiece};
ghost use Rattle.vis_read.specs.Tokens.{AreTokens, Means, is_white, mark_lexeme};
ghost use Rattle.vis_read.specs.steps.Next.{IsNext};

use crate::lexemes::{Lexeme, Token, Unit};
use crate::pieces::{Piece, longest};
use crate::places::place;
use crate::sets::set;
use crate::words::word_lexeme;
use std::alloc::Global;
use viz_base::{List, Mem, Page};

fn is_white(byte: u8) -> bool
    ensures { result ≡ is_white byte }
{
    byte == b' ' || byte == b'\t' || byte == b'\n'
}

fn mark_lexeme(byte: u8) -> Lexeme
    ensures { result ≡ mark_lexeme byte }
{
    match byte {
        b'(' => Lexeme::Open,
        b')' => Lexeme::Close,
        b',' => Lexeme::Comma,
        b':' => Lexeme::Colon,
        b'.' => Lexeme::Dot,
        b'+' => Lexeme::Plus,
        b'-' => Lexeme::Minus,
        b'*' => Lexeme::Star,
        _ => Lexeme::Unknown,
    }
}

/// What a piece of a kind is in the grammar.
fn lexeme_of(alloc: Global, piece: &str, kind: Piece, page: &Page) -> Result<Lexeme, Mem>
    requires { IsPiece kind piece.now }
    ensures { IfOk result (Means page.now.nodes kind piece.now) }
{
    match kind {
        Piece::Word => Ok(word_lexeme(alloc, piece)?),
        Piece::Number(n) => Ok(Lexeme::Number(n, Unit::One)),
        Piece::Pixels(n) => Ok(Lexeme::Number(n, Unit::Px)),
        Piece::Quoted => set(alloc, &piece[1..piece.len() - 1], page),
        Piece::Sign(sign) => Ok(Lexeme::Sign(sign)),
        Piece::Mark(byte) => Ok(mark_lexeme(byte)),
    }
}

/// The token at a place, and how many bytes it has; none where no piece begins there.
fn lexeme_at(alloc: Global, text: &str, at: usize, page: &Page) -> Result<(Lexeme, usize), Mem>
    requires { at < length text.now }
    ensures next { IfOk result (λ found. IsNext page.now.nodes (drop at text.now) found.0 found.1) }
    ensures within { IfOk result (λ found. at + found.1 ≤ length text.now) }
{
    let bytes = text.as_bytes();
    match longest(bytes[at], &bytes[at + 1..]) {
        Some((kind, len)) => Ok((lexeme_of(alloc, &text[at..at + len], kind, page)?, len)),
        None => Ok((Lexeme::Unknown, 0)),
    }
}

/// The token at a place, with that place, and how many bytes it has.
fn token_at(alloc: Global, text: &str, at: usize, page: &Page) -> Result<(Token, usize), Mem>
    requires { at < length text.now }
    ensures place { IfOk result (λ found. found.0.at ≡ at) }
    ensures next { IfOk result (λ found. IsNext page.now.nodes
        (drop at text.now) found.0.lexeme found.1) }
    ensures within { IfOk result (λ found. at + found.1 ≤ length text.now) }
{
    let start = place(at)?;
    let (lexeme, len) = lexeme_at(alloc, text, at, page)?;
    Ok((Token { lexeme, at: start }, len))
}

/// The tokens of a text.
pub fn tokens(alloc: Global, text: &str, page: &Page) -> Result<List<Token>, Mem>
    ensures { IfOk result (AreTokens page.now.nodes 0 text.now) }
{
    let mut found = List::new(alloc);
    let mut at = 0;
    while at < text.len() {
        if is_white(text.as_bytes()[at]) {
            at += 1;
        } else {
            let (token, len) = token_at(alloc, text, at, page)?;
            found.push(token)?;
            if len == 0 {
                return Ok(found);
            }
            at += len;
        }
    }
    Ok(found)
}
