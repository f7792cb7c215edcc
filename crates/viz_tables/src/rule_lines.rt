//! The rule of one line.
ghost use Rattle.std.specs.Prelude.{◌≡◌, ◌≤◌, ◌<◌, ◌+◌, drop, length, Some, None, IfOk, IfSome, if◌then◌else◌};
ghost use Rattle.std.specs.List.{position, prefix_len};
ghost use Rattle.viz_tables.specs.Lists.{fits, has_name, is_feed, is_formula, is_name_byte, is_named, next_rule, rule_in};

use crate::rules::Rule;
use std::alloc::Global;
use std::str::from_utf8;
use viz_base::{List, MOST_FORMULA, Mem, Text};

/// A byte of a name.
fn is_name_byte(byte: u8) -> bool
    ensures { result ≡ is_name_byte byte }
{
    (97 <= byte && byte <= 122) || ((48 <= byte && byte <= 57) || byte == 45)
}

/// How many bytes of a name stand first.
fn name_len(line: &[u8]) -> usize
    ensures within { result ≤ length line.now }
    ensures value { result ≡ prefix_len is_name_byte line.now }
{
    for at in 0..line.len() {
        if !is_name_byte(line[at]) {
            return at;
        }
    }
    line.len()
}

/// The place of the first line feed.
pub(crate) fn feed_at(bytes: &[u8]) -> Option<usize>
    ensures within { IfSome result (λ at. at < length bytes.now) }
    ensures value { result ≡ position is_feed bytes.now }
{
    for at in 0..bytes.len() {
        if bytes[at] == b'\n' {
            return Some(at);
        }
    }
    None
}

/// Whether a name of so many bytes stands first, and then a space.
fn is_named(name: usize, line: &[u8]) -> bool
    ensures { result ≡ is_named name line.now }
{
    1 <= name && name <= 32 && line.get(name).copied().unwrap_or(0) == b' '
}

/// The text of a formula, if the bytes are one.
fn formula_of(alloc: Global, bytes: &[u8]) -> Result<Option<Text>, Mem>
    ensures { IfOk result (λ text. text ≡ (if is_formula bytes.now then Some bytes.now else None)) }
{
    if bytes.len() > MOST_FORMULA {
        return Ok(None);
    }
    match from_utf8(bytes) {
        Ok(text) => Ok(Some(Text::from_text(alloc, text)?)),
        Err(_) => Ok(None),
    }
}

/// The rule that a line is.
fn rule_of(alloc: Global, line: &[u8]) -> Result<Option<Rule>, Mem>
    ensures { IfOk result (λ rule. rule ≡ rule_in line.now) }
{
    let name = name_len(line);
    if !is_named(name, line) {
        return Ok(None);
    }
    match formula_of(alloc, &line[name + 1..])? {
        Some(formula) => Ok(Some(Rule {
            name: List::from_slice(alloc, &line[..name])?,
            formula,
        })),
        None => Ok(None),
    }
}

/// Whether one of these rules has this name.
fn has_name(rules: &[Rule], name: &[u8]) -> bool
    ensures { result ≡ has_name rules.now name.now }
{
    rules.iter().any(|rule| rule.name.as_slice() == name)
}

/// Whether a rule may stand behind others.
fn fits(rules: &[Rule], rule: &Rule) -> bool
    ensures { result ≡ fits rules.now rule.now }
{
    rules.len() < 64 && !has_name(rules, rule.name.as_slice())
}

/// The rule that a line is behind others.
pub(crate) fn next_rule(alloc: Global, rules: &[Rule], line: &[u8]) -> Result<Option<Rule>, Mem>
    ensures { IfOk result (λ rule. rule ≡ next_rule rules.now line.now) }
{
    match rule_of(alloc, line)? {
        Some(rule) => {
            if fits(rules, &rule) {
                Ok(Some(rule))
            } else {
                Ok(None)
            }
        }
        None => Ok(None),
    }
}
