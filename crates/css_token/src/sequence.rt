ghost use Rattle.std.specs.Prelude.{◌≡◌, List as Seq, IfOk, length};
ghost use Rattle.css_semantics.specs.Pieces.{Token};
ghost use Rattle.css_semantics.specs.Tokens.{AreTokens};

use crate::scan::next;
use css_semantics::Token;
use std::alloc::Global;
use viz_base::{List, Mem};

/// How many bytes a token has.
fn len_of(token: &Token<'_>) -> usize
    ensures { result ≡ length token.now.text }
{
    token.text.len()
}

/// The tokens of a text, read in one pass (CSS 2.1, 4.1.1).
///
/// `Mem` for want of memory; no clause says when.
pub fn tokens(alloc: Global, text: &str) -> Result<List<Token<'_>>, Mem>
    ensures { IfOk result (AreTokens text.now) }
{
    let mut found = List::new(alloc);
    let mut at = 0;
    while let Some(token) = next(text, at) {
        at += len_of(&token);
        found.push(token)?;
    }
    Ok(found)
}

/// A law: each text has a list of tokens.
pub fn tokens_exist(text: &str)
    ensures { (tokens : Seq Token) × AreTokens text.now tokens }
{}
