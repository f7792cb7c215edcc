ghost use Rattle.std.specs.Prelude.{◌≡◌, ◌<◌, [], ◌∷◌, length, MatchOption};
ghost use Rattle.std.specs.Str.{chars};
ghost use Rattle.css_semantics.specs.TokensLetters.{is_digit, is_hex, is_l, is_name, is_newline, is_quoted, is_r, is_range, is_space, is_start, is_u, is_url};

/// The first character, and what follows it.
pub fn split_char(text: &str) -> Option<(char, &str)>
    ensures { MatchOption result (chars text.now ≡ [])
        (λ p. (chars text.now ≡ p.0 ∷ chars p.1.now) × (length p.1.now < length text.now)) }
{
    let mut chars = text.chars();
    let first = chars.next()?;
    Some((first, chars.as_str()))
}

/// Whether it is a decimal digit.
pub fn is_digit(letter: char) -> bool
    ensures { result ≡ is_digit letter }
{
    letter.is_ascii_digit()
}

/// Whether it is a hex digit.
pub fn is_hex(letter: char) -> bool
    ensures { result ≡ is_hex letter }
{
    matches!(letter, '0'..='9' | 'a'..='f' | 'A'..='F')
}

/// Whether it ends a line.
pub fn is_newline(letter: char) -> bool
    ensures { result ≡ is_newline letter }
{
    matches!(letter, '\n' | '\r' | '\u{c}')
}

/// Whether it is white space (CSS 2.1, 4.1.1).
pub fn is_space(letter: char) -> bool
    ensures { result ≡ is_space letter }
{
    matches!(letter, ' ' | '\t' | '\n' | '\r' | '\u{c}')
}

/// Whether an identifier may begin with it.
pub fn is_start(letter: char) -> bool
    ensures { result ≡ is_start letter }
{
    matches!(letter, 'a'..='z' | 'A'..='Z' | '_' | '\u{a0}'..)
}

/// Whether an identifier may go on with it.
pub fn is_name(letter: char) -> bool
    ensures { result ≡ is_name letter }
{
    matches!(letter, 'a'..='z' | 'A'..='Z' | '0'..='9' | '_' | '-' | '\u{a0}'..)
}

/// Whether it stands for itself in a string within this quote.
pub fn is_quoted(quote: char, letter: char) -> bool
    ensures { result ≡ is_quoted quote letter }
{
    !(is_newline(letter) || letter == '\\' || letter == quote)
}

/// Whether it stands for itself in an address without quotes.
pub fn is_url(letter: char) -> bool
    ensures { result ≡ is_url letter }
{
    matches!(letter, '!' | '#'..='&' | '*'..='[' | ']'..='~' | '\u{a0}'..)
}

/// Whether it is a `u`, in any case.
pub fn is_u(letter: char) -> bool
    ensures { result ≡ is_u letter }
{
    matches!(letter, 'u' | 'U')
}

/// Whether it is an `r`, in any case.
pub fn is_r(letter: char) -> bool
    ensures { result ≡ is_r letter }
{
    matches!(letter, 'r' | 'R')
}

/// Whether it is an `l`, in any case.
pub fn is_l(letter: char) -> bool
    ensures { result ≡ is_l letter }
{
    matches!(letter, 'l' | 'L')
}

/// Whether it may stand in a range of characters.
pub fn is_range(letter: char) -> bool
    ensures { result ≡ is_range letter }
{
    is_hex(letter) || letter == '?'
}
