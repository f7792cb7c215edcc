ghost use Rattle.std.specs.Prelude.{◌≡◌, IfOk};
ghost use Rattle.css_semantics.specs.SheetsMarks.{closing_mark, is_mark, is_ident, is_at_keyword, is_colon, is_semicolon, is_left_brace, is_comment_mark, is_space, is_gap, is_bad, has_paren};
ghost use Rattle.css_semantics.specs.SheetsReading.{is_closing};

use viz_base::TokenKind;

/// The mark that closes the pair which a token of this kind opens.
pub fn closing_mark(kind: TokenKind) -> Option<TokenKind>
    ensures { result ≡ closing_mark kind }
{
    match kind {
        TokenKind::LeftParen | TokenKind::Function | TokenKind::BadUri => Some(
            TokenKind::RightParen,
        ),
        TokenKind::LeftBracket => Some(TokenKind::RightBracket),
        TokenKind::LeftBrace => Some(TokenKind::RightBrace),
        _ => None,
    }
}

/// Whether a token of this kind is the closing mark.
pub fn is_mark(mark: TokenKind, kind: TokenKind) -> bool
    ensures { result ≡ is_mark mark kind }
{
    match mark {
        TokenKind::RightParen => matches!(kind, TokenKind::RightParen),
        TokenKind::RightBracket => matches!(kind, TokenKind::RightBracket),
        TokenKind::RightBrace => matches!(kind, TokenKind::RightBrace),
        _ => false,
    }
}

/// Whether a token of this kind closes a pair.
pub fn is_closing(kind: TokenKind) -> bool
    ensures { result ≡ is_closing kind }
{
    matches!(
        kind,
        TokenKind::RightParen | TokenKind::RightBracket | TokenKind::RightBrace
    )
}

/// Whether a token of this kind is an identifier.
pub fn is_ident(kind: TokenKind) -> bool
    ensures { result ≡ is_ident kind }
{
    matches!(kind, TokenKind::Ident)
}

/// Whether a token of this kind is an at-keyword.
pub fn is_at_keyword(kind: TokenKind) -> bool
    ensures { result ≡ is_at_keyword kind }
{
    matches!(kind, TokenKind::AtKeyword)
}

/// Whether a token of this kind is a `:`.
pub fn is_colon(kind: TokenKind) -> bool
    ensures { result ≡ is_colon kind }
{
    matches!(kind, TokenKind::Colon)
}

/// Whether a token of this kind is a `;`.
pub fn is_semicolon(kind: TokenKind) -> bool
    ensures { result ≡ is_semicolon kind }
{
    matches!(kind, TokenKind::Semicolon)
}

/// Whether a token of this kind is a `{`.
pub fn is_left_brace(kind: TokenKind) -> bool
    ensures { result ≡ is_left_brace kind }
{
    matches!(kind, TokenKind::LeftBrace)
}

/// Whether a token of this kind is `<!--` or `-->`.
pub fn is_comment_mark(kind: TokenKind) -> bool
    ensures { result ≡ is_comment_mark kind }
{
    matches!(kind, TokenKind::Cdo | TokenKind::Cdc)
}

/// Whether a token of this kind is white space.
pub fn is_space(kind: TokenKind) -> bool
    ensures { result ≡ is_space kind }
{
    matches!(kind, TokenKind::Space)
}

/// White space or a comment.
pub fn is_gap(kind: TokenKind) -> bool
    ensures { result ≡ is_gap kind }
{
    matches!(
        kind,
        TokenKind::Space | TokenKind::Comment | TokenKind::BadComment
    )
}

/// Whether a token of this kind is a string or an address that is malformed (CSS 2.1, 4.1.1).
pub fn is_bad(kind: TokenKind) -> bool
    ensures { result ≡ is_bad kind }
{
    matches!(kind, TokenKind::BadString | TokenKind::BadUri)
}

/// Whether a `(` stands in a token of this kind.
pub fn has_paren(kind: TokenKind) -> bool
    ensures { result ≡ has_paren kind }
{
    matches!(
        kind,
        TokenKind::LeftParen | TokenKind::Function | TokenKind::Uri | TokenKind::BadUri
    )
}
