ghost use Rattle.std.specs.Prelude.{◌≡◌, [], None, Some, IfOk, MatchOption};
ghost use Rattle.std.specs.Option.{option_to_list};
ghost use Rattle.css_semantics.specs.SheetsReading.{before_important, before_last, before_trimmed, decl_of, declared_at, goes_on, is_blank, is_closed};
ghost use Rattle.css_semantics.specs.SheetsMarks.{ends_declaration};
ghost use Rattle.css_semantics.specs.steps.Sheets.{after_declaration, at_head, declaration, declaration_item, declarations, declared, is_value};
ghost use Rattle.css_semantics.specs.steps.Stretches.{behind, front};

use crate::slices::{Class, extent, is_all_gap, place, start_of, trim, trim_end, trim_start};
use crate::stretches::{Stop, after_at_rule, split};
use css_semantics::Token;
use css_token::kinds::{is_at_keyword, is_colon, is_gap, is_ident, is_semicolon};
use css_token::{Marks, is_character, is_word, unescape};
use std::alloc::Global;
use viz_base::{Decl, List, Mem, Text, TokenKind};

/// Whether the tokens are in the grammar of a value, but for being none (CSS 2.1, 4.1.1).
fn goes_on(alloc: Global, tokens: &[Token<'_>]) -> Result<bool, Mem>
    ensures { IfOk result (λ yes. yes ≡ goes_on [] tokens.now) }
{
    let mut marks = Marks::new(alloc);
    for token in tokens {
        if !marks.pass_in_value(token.kind)? {
            return Ok(false);
        }
    }
    Ok(true)
}

fn is_value(alloc: Global, tokens: &[Token<'_>]) -> Result<bool, Mem>
    ensures { IfOk result (λ yes. yes ≡ is_value tokens.now) }
{
    Ok(goes_on(alloc, tokens)? && !is_all_gap(tokens))
}

/// What stands before the `!` at the end of the tokens, and the place of the `!`.
fn before_bang<'a>(tokens: &'a [Token<'a>]) -> Option<(&'a [Token<'a>], usize)>
    ensures { MatchOption result (before_last tokens.now ≡ None)
        (λ p. before_last tokens.now ≡ Some (p.0.now, p.1)) }
{
    let last = tokens.last()?;
    if is_character(last, b'!') {
        Some((&tokens[..tokens.len() - 1], last.at))
    } else {
        None
    }
}

/// Whether no bracket that is opened in the tokens is still open behind them.
pub fn is_closed(alloc: Global, tokens: &[Token<'_>]) -> Result<bool, Mem>
    ensures { IfOk result (λ yes. yes ≡ is_closed tokens.now) }
{
    let mut marks = Marks::new(alloc);
    for token in tokens {
        marks.pass(token.kind)?;
    }
    Ok(marks.is_none())
}

/// What stands before `!important`, and the place of its `!`.
fn before_important<'a>(
    alloc: Global,
    tokens: &'a [Token<'a>],
) -> Result<Option<(&'a [Token<'a>], usize)>, Mem>
    ensures { IfOk result (λ found. MatchOption found (before_important tokens.now ≡ None)
        (λ p. before_important tokens.now ≡ Some (p.0.now, p.1))) }
{
    if !is_closed(alloc, tokens)? {
        return Ok(None);
    }
    let tokens = trim_end(tokens, Class::Gap);
    let Some(last) = tokens.last() else {
        return Ok(None);
    };
    if is_ident(last.kind) && is_word(alloc, last, "important")? {
        Ok(before_bang(trim_end(&tokens[..tokens.len() - 1], Class::Gap)))
    } else {
        Ok(None)
    }
}

/// The declaration of a property with these tokens as its value.
fn decl_of(
    alloc: Global,
    name: &Token<'_>,
    value: &[Token<'_>],
    at: usize,
    important: bool,
) -> Result<Decl, Mem>
    ensures { IfOk result (λ d. d ≡ decl_of name.now value.now at important) }
{
    Ok(Decl {
        name: unescape(alloc, name)?,
        at: place(start_of(value, at))?,
        len: place(extent(value)?)?,
        important,
    })
}

/// The declaration of a property whose value is these tokens, but for `!important` behind it.
fn declared_at<'a>(alloc: Global, name: &Token<'_>, body: &'a [Token<'a>]) -> Result<Decl, Mem>
    ensures { IfOk result (λ d. d ≡ declared_at name.now body.now (before_important body.now)) }
{
    match before_important(alloc, body)? {
        Some((value, bang)) => decl_of(alloc, name, trim(value, Class::Space), bang, true),
        None => decl_of(alloc, name, trim(body, Class::Space), 0, false),
    }
}

/// The declaration whose colon begins the tokens, if a value follows.
fn declared<'a>(
    alloc: Global,
    name: &Token<'_>,
    tokens: &'a [Token<'a>],
) -> Result<Option<Decl>, Mem>
    ensures { IfOk result (λ d. d ≡ declared name.now tokens.now) }
{
    let Some((colon, body)) = tokens.split_first() else {
        return Ok(None);
    };
    if !is_colon(colon.kind) || !is_value(alloc, body)? {
        return Ok(None);
    }
    Ok(Some(declared_at(alloc, name, body)?))
}

/// The declaration that the tokens spell, if they spell one.
fn declaration<'a>(alloc: Global, tokens: &'a [Token<'a>]) -> Result<Option<Decl>, Mem>
    ensures { IfOk result (λ d. d ≡ declaration tokens.now) }
{
    match tokens.split_first() {
        Some((name, after)) if is_ident(name.kind) => declared(
            alloc,
            name,
            trim_start(after, Class::Gap),
        ),
        _ => Ok(None),
    }
}

/// The declaration that the tokens up to a `;` spell, if they spell one, and what follows them.
fn declaration_piece<'a>(
    alloc: Global,
    tokens: &'a [Token<'a>],
) -> Result<(Option<Decl>, &'a [Token<'a>]), Mem>
    ensures { IfOk result (λ p. (p.0 ≡ declaration (front ends_declaration tokens.now))
        × (p.1.now ≡ behind ends_declaration tokens.now)) }
{
    let (piece, rest) = split(alloc, tokens, Stop::Declaration)?;
    Ok((declaration(alloc, piece)?, rest))
}

/// What begins the tokens where a declaration may stand, and what follows it.
fn declaration_item<'a>(
    alloc: Global,
    tokens: &'a [Token<'a>],
) -> Result<(Option<Decl>, &'a [Token<'a>]), Mem>
    ensures { IfOk result (λ p. (option_to_list p.0 ≡ at_head declaration_item tokens.now)
        × (p.1.now ≡ at_head after_declaration tokens.now)) }
{
    let Some((first, after)) = tokens.split_first() else {
        return Ok((None, tokens));
    };
    if is_gap(first.kind) || is_semicolon(first.kind) {
        return Ok((None, after));
    }
    if is_at_keyword(first.kind) {
        return Ok((None, after_at_rule(alloc, after)?));
    }
    declaration_piece(alloc, tokens)
}

/// The declarations of a block or of a style attribute.
pub fn declarations<'a>(alloc: Global, tokens: &'a [Token<'a>]) -> Result<List<Decl>, Mem>
    ensures { IfOk result (λ decls. decls ≡ declarations tokens.now) }
{
    let mut decls = List::new(alloc);
    let mut at = 0;
    while at < tokens.len() {
        let (decl, rest) = declaration_item(alloc, &tokens[at..])?;
        if let Some(decl) = decl {
            decls.push(decl)?;
        }
        at = tokens.len() - rest.len();
    }
    Ok(decls)
}
