ghost use Rattle.std.specs.Prelude.{◌≡◌, [], None, Some, IfOk, MatchOption};
ghost use Rattle.std.specs.Option.{option_to_list};
ghost use Rattle.css_semantics.specs.steps.Sheets.{after_rule, after_ruleset, at_head, block_rule, rule_item, rule_of, rules_in};

use crate::declarations::declarations;
use crate::slices::{Class, extent, place, start_of, trim};
use crate::stretches::{Stop, after_at_rule, after_block, split};
use css_semantics::Token;
use css_token::kinds::{is_at_keyword, is_gap};
use std::alloc::Global;
use viz_base::{List, MediaEntry, Mem, Rule};

/// A copy of a media list.
fn copied_list(alloc: Global, list: &List<MediaEntry>) -> Result<List<MediaEntry>, Mem>
    ensures { IfOk result (λ copy. copy ≡ list.now) }
{
    let mut copy = List::new(alloc);
    for entry in list.as_slice() {
        copy.push(MediaEntry {
            negated: entry.negated,
            on: entry.on,
            features: List::from_slice(alloc, entry.features.as_slice())?,
        })?;
    }
    Ok(copy)
}

/// A copy of the media list that a rule stands under, if it stands under one.
pub fn copied_media(
    alloc: Global,
    media: &Option<List<MediaEntry>>,
) -> Result<Option<List<MediaEntry>>, Mem>
    ensures { IfOk result (λ copy. copy ≡ media.now) }
{
    match media {
        Some(list) => Ok(Some(copied_list(alloc, list)?)),
        None => Ok(None),
    }
}

/// The rule with this selector and the block whose `{`, at this place, stands before the tokens.
fn rule_of<'a>(
    alloc: Global,
    media: &Option<List<MediaEntry>>,
    selector: &[Token<'_>],
    at: usize,
    block: &'a [Token<'a>],
) -> Result<Rule, Mem>
    ensures { IfOk result (λ rule. rule ≡ rule_of media.now selector.now at block.now) }
{
    Ok(Rule {
        at: place(start_of(selector, at))?,
        len: place(extent(selector)?)?,
        decls: declarations(alloc, block)?,
        media: copied_media(alloc, media)?,
    })
}

/// The ruleset at the head of the tokens, under this media list, if its block comes, and what follows it.
pub fn block_rule<'a>(
    alloc: Global,
    media: &Option<List<MediaEntry>>,
    tokens: &'a [Token<'a>],
) -> Result<(Option<Rule>, &'a [Token<'a>]), Mem>
    ensures { IfOk result (λ p. (p.0 ≡ block_rule media.now tokens.now)
        × (p.1.now ≡ after_ruleset tokens.now)) }
{
    let (selector, rest) = split(alloc, tokens, Stop::Selector)?;
    let Some((brace, after)) = rest.split_first() else {
        return Ok((None, rest));
    };
    let (block, _) = split(alloc, after, Stop::Block)?;
    let behind = after_block(alloc, after)?;
    let rule = rule_of(alloc, media, trim(selector, Class::Space), brace.at, block)?;
    Ok((Some(rule), behind))
}

/// What begins the tokens in a block of `@media`, and what follows it.
fn rule_item<'a>(
    alloc: Global,
    media: &Option<List<MediaEntry>>,
    tokens: &'a [Token<'a>],
) -> Result<(Option<Rule>, &'a [Token<'a>]), Mem>
    ensures { IfOk result (λ p. (option_to_list p.0 ≡ at_head (rule_item media.now) tokens.now)
        × (p.1.now ≡ at_head after_rule tokens.now)) }
{
    let Some((first, after)) = tokens.split_first() else {
        return Ok((None, tokens));
    };
    if is_gap(first.kind) {
        return Ok((None, after));
    }
    if is_at_keyword(first.kind) {
        return Ok((None, after_at_rule(alloc, after)?));
    }
    block_rule(alloc, media, tokens)
}

/// The rules of a block of `@media`, each under this list.
pub fn rules_in<'a>(
    alloc: Global,
    media: &Option<List<MediaEntry>>,
    tokens: &'a [Token<'a>],
) -> Result<List<Rule>, Mem>
    ensures { IfOk result (λ rules. rules ≡ rules_in media.now tokens.now) }
{
    let mut rules = List::new(alloc);
    let mut at = 0;
    while at < tokens.len() {
        let (rule, rest) = rule_item(alloc, media, &tokens[at..])?;
        if let Some(rule) = rule {
            rules.push(rule)?;
        }
        at = tokens.len() - rest.len();
    }
    Ok(rules)
}
