ghost use Rattle.std.specs.Prelude.{◌≡◌, not, ◌&&◌, IfOk};
ghost use Rattle.std.specs.List.{list_any};
ghost use Rattle.std.specs.Option.{option_to_list};
ghost use Rattle.css_semantics.specs.SheetsMarks.{ends_prelude, has_paren};
ghost use Rattle.css_semantics.specs.steps.Sheets.{after_statement, at_head, at_rule, in_block, media_of, statement_item};
ghost use Rattle.css_semantics.specs.steps.Stretches.{behind, front};

use crate::media::{MediaList, media_list};
use crate::rules::{block_rule, rules_in};
use crate::slices::place;
use crate::stretches::{Stop, after_at_rule, split};
use css_semantics::{Statement, Token};
use css_token::is_word;
use css_token::kinds::{has_paren, is_at_keyword, is_comment_mark, is_gap, is_left_brace};
use std::alloc::Global;
use viz_base::Mem;

/// What stands in the block that begins the tokens, or nothing.
fn in_block<'a>(alloc: Global, tokens: &'a [Token<'a>]) -> Result<&'a [Token<'a>], Mem>
    ensures { IfOk result (λ block. block.now ≡ in_block tokens.now) }
{
    match tokens.split_first() {
        Some((first, after)) if is_left_brace(first.kind) => {
            let (block, _) = split(alloc, after, Stop::Block)?;
            Ok(block)
        }
        _ => Ok(&tokens[..0]),
    }
}

/// Whether a `(` stands in the tokens.
fn has_query(tokens: &[Token<'_>]) -> bool
    ensures { result ≡ list_any (λ t. has_paren t.kind) tokens.now }
{
    tokens.iter().any(|token| has_paren(token.kind))
}

/// Whether an `@media` asks for what this profile has not.
fn is_beyond(prelude: &[Token<'_>], list: &MediaList) -> bool
    ensures { result ≡ (list_any (λ t. has_paren t.kind) prelude.now && not list.now.is_known) }
{
    has_query(prelude) && !list.is_known
}

/// The `@media` at this place, with its prelude and its block.
fn media_of<'a>(
    alloc: Global,
    at: usize,
    prelude: &'a [Token<'a>],
    block: &'a [Token<'a>],
) -> Result<Statement, Mem>
    ensures { IfOk result (λ statement. statement ≡ media_of at prelude.now block.now) }
{
    let list = media_list(alloc, prelude)?;
    if is_beyond(prelude, &list) {
        return Ok(Statement::MediaQuery(place(at)?));
    }
    let media = Some(list.entries);
    Ok(Statement::Media(rules_in(alloc, &media, block)?))
}

/// The `@media` whose keyword, at this place, stands before the tokens.
fn media_rule<'a>(alloc: Global, at: usize, after: &'a [Token<'a>]) -> Result<Statement, Mem>
    ensures { IfOk result (λ statement. statement
        ≡ media_of at (front ends_prelude after.now) (in_block (behind ends_prelude after.now))) }
{
    let (prelude, rest) = split(alloc, after, Stop::Prelude)?;
    let block = in_block(alloc, rest)?;
    media_of(alloc, at, prelude, block)
}

/// What the at-rule with this keyword says of the sheet.
fn at_rule<'a>(
    alloc: Global,
    keyword: &Token<'_>,
    after: &'a [Token<'a>],
) -> Result<Option<Statement>, Mem>
    ensures { IfOk result (λ statement. statement ≡ at_rule keyword.now after.now) }
{
    if is_word(alloc, keyword, "import")? {
        return Ok(Some(Statement::Import(place(keyword.at)?)));
    }
    if is_word(alloc, keyword, "page")? {
        return Ok(Some(Statement::Page));
    }
    if is_word(alloc, keyword, "media")? {
        return Ok(Some(media_rule(alloc, keyword.at, after)?));
    }
    Ok(None)
}

/// The statement at the head of the tokens, and what follows it.
pub fn statement_item<'a>(
    alloc: Global,
    tokens: &'a [Token<'a>],
) -> Result<(Option<Statement>, &'a [Token<'a>]), Mem>
    ensures { IfOk result (λ p. (option_to_list p.0 ≡ at_head statement_item tokens.now)
        × (p.1.now ≡ at_head after_statement tokens.now)) }
{
    let Some((first, after)) = tokens.split_first() else {
        return Ok((None, tokens));
    };
    if is_gap(first.kind) || is_comment_mark(first.kind) {
        return Ok((None, after));
    }
    if is_at_keyword(first.kind) {
        let behind = after_at_rule(alloc, after)?;
        return Ok((at_rule(alloc, first, after)?, behind));
    }
    let (rule, rest) = block_rule(alloc, &None, tokens)?;
    Ok((rule.map(Statement::Ruleset), rest))
}
