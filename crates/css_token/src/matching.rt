ghost use Rattle.std.specs.Prelude.{◌≡◌, IfOk};
ghost use Rattle.css_semantics.specs.Names.{same_name};
ghost use Rattle.css_semantics.specs.SheetsMarks.{is_character, is_word};

use crate::escapes::unescape;
use css_semantics::Token;
use std::alloc::Global;
use viz_base::{Mem, TokenKind};

/// Whether two names are the same in any ASCII case (CSS 2.1, 4.1.3).
pub fn same_name(a: &str, b: &str) -> bool
    ensures { result ≡ same_name a.now b.now }
{
    a.eq_ignore_ascii_case(b)
}

/// Whether a token says the word, after escapes and in any ASCII case.
#[tactic(auto, unfolding(css_semantics::specs::SheetsMarks::is_word, css_semantics::specs::SheetsMarks::text_of))]
pub fn is_word(alloc: Global, token: &Token<'_>, word: &str) -> Result<bool, Mem>
    ensures { IfOk result (λ yes. yes ≡ is_word word.now token.now) }
{
    let text = unescape(alloc, token)?;
    Ok(same_name(text.as_str(), word))
}

/// Whether a token is this character, and no token of a kind of its own.
pub fn is_character(token: &Token<'_>, letter: u8) -> bool
    ensures { result ≡ is_character letter token.now }
{
    matches!(token.kind, TokenKind::Delim) && token.text.as_bytes() == [letter].as_slice()
}
