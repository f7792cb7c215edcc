ghost use Rattle.std.specs.Prelude.{◌≡◌};
ghost use Rattle.css_semantics.specs.SheetsReading.{closed_by_end, closed_kind};

use css_semantics::Token;
use viz_base::TokenKind;

fn closed_kind(kind: TokenKind) -> TokenKind
    ensures { result ≡ closed_kind kind }
{
    match kind {
        TokenKind::BadString => TokenKind::Str,
        TokenKind::BadUri => TokenKind::Uri,
        kind => kind,
    }
}

/// Closes a string or an address that is open at the end of the text (CSS 2.1, 4.2).
pub fn close_by_end(tokens: &mut Vec<Token<'_>>)
    ensures { tokens.new.items ≡ closed_by_end tokens.old.items }
{
    let len = tokens.len();
    if len > 0 {
        let Token { kind, at, text } = &tokens[len - 1];
        let (kind, at, text) = (closed_kind(*kind), *at, *text);
        tokens[len - 1] = Token { kind, at, text };
    }
}
