ghost use Rattle.std.specs.Prelude.{◌≡◌, ◌<◌, [], MatchOption, drop, length};
ghost use Rattle.std.specs.Str.{IsCharBoundary, chars};
ghost use Rattle.css_semantics.specs.Tokens.{IsToken};
ghost use Rattle.css_token.specs.steps.Scan.{cut_of, longest};

use crate::letters::split_char;
use crate::states::{State, kind_of, step};
use css_semantics::Token;
use viz_base::TokenKind;

/// The longest piece that goes on from this state, or the best of before.
fn longest<'a>(
    from: State,
    text: &'a str,
    best_kind: TokenKind,
    best_rest: &'a str,
) -> (TokenKind, &'a str)
    ensures { longest from (chars text.now) (best_kind, chars best_rest.now)
        ≡ (result.0, chars result.1.now) }
{
    let mut state = from;
    let mut rest = text;
    let mut kind = best_kind;
    let mut left = best_rest;
    while let Some((letter, after)) = split_char(rest) {
        let Some(next) = step(state, letter) else {
            return (kind, left);
        };
        state = next;
        rest = after;
        // The automaton goes on past a piece that is whole: a longer one may still come, and wins.
        if let Some(found) = kind_of(state) {
            kind = found;
            left = rest;
        }
    }
    (kind, left)
}

/// The kind of the piece at the front, and what follows it.
fn scan(text: &str) -> Option<(TokenKind, &str)>
    ensures { MatchOption result (chars text.now ≡ [])
        (λ p. (0 < length (chars text.now)) × (cut_of (chars text.now) ≡ (p.0, chars p.1.now))) }
{
    let (_, after_first) = split_char(text)?;
    // Any one character is a DELIM, which is the last kind of the table and so gives way to all others.
    Some(longest(State::Begin, text, TokenKind::Delim, after_first))
}

/// The token at a place of a text, in time linear in its length (CSS 2.1, 4.1.1).
///
/// `None` exactly at the end. The place is in bytes; a character begins there or the text ends.
pub fn next(text: &str, at: usize) -> Option<Token<'_>>
    requires { IsCharBoundary text.now at }
    ensures { MatchOption result (drop at text.now ≡ []) (IsToken text.now at) }
{
    let front = &text[at..];
    match scan(front) {
        Some((kind, rest)) => {
            let len = front.len() - rest.as_bytes().len();
            let text = &front[..len];
            Some(Token { kind, at, text })
        }
        None => None,
    }
}
