use viz_base::{Pseudo, Test};

/// What a token is in the grammar of selectors (CSS 2.1, appendix G.1 and G.2).
#[derive(Clone, Copy, PartialEq, Eq)]
pub enum Terminal {
    /// White space.
    Space,
    /// An identifier.
    Ident,
    /// A string that is closed.
    Str,
    /// `#` with an identifier (CSS 2.1, 5.9).
    Id,
    /// An identifier with a `(` behind it.
    Function,
    /// `*`.
    Star,
    /// `.`.
    Dot,
    /// `,`.
    Comma,
    /// `>`.
    Greater,
    /// `+`.
    Plus,
    /// `=`.
    Equal,
    /// `~=`.
    Includes,
    /// `|=`.
    DashMatch,
    /// `[`.
    LeftBracket,
    /// `]`.
    RightBracket,
    /// `)`.
    RightParen,
    /// `:`.
    Colon,
    /// What stands in no selector.
    Other,
}

/// How a selector compares an attribute's value with its own (CSS 2.1, 5.8.1).
#[derive(Clone, Copy, PartialEq, Eq)]
pub enum Comparison {
    /// `=`.
    Equals,
    /// `~=`.
    Word,
    /// `|=`.
    Dash,
}

/// What a name behind a colon says (CSS 2.1, 5.10). Pseudo-elements stand at a selector's end alone.
#[derive(Drop)]
pub enum ColonName {
    /// A pseudo-class.
    Class(Test),
    /// `:before` or `:after` (CSS 2.1, 5.12.3).
    Generated(Pseudo),
    /// `:first-line` or `:first-letter`, which are refused.
    Refused,
}
