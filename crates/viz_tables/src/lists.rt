//! All rules of a list.
ghost use Rattle.std.specs.Prelude.{◌≡◌, ◌≢◌, ◌++◌, [], ◌∷◌, ℕ, length, Some, None, MatchResult, Ok, Err};
ghost use Rattle.viz_tables.specs.Lists.{IsListOf, next_rule};
ghost use Rattle.viz_tables.specs.declared.rules.Rule.{Rule};

use crate::faults::ListFault;
use crate::rule_lines::{feed_at, next_rule};
use crate::rules::Rule;
use std::alloc::Global;
use viz_base::List;

/// Adds the rule that a line is behind others.
fn add_line(alloc: Global, rules: &mut List<Rule>, line: &[u8]) -> Result<(), ListFault>
    ensures { MatchResult result (λ _. (rule : Rule) × (next_rule rules.old line.now ≡ Some rule)
        × (rules.new ≡ rules.old ++ rule ∷ [])) (λ fault. fault ≢ ListFault.Mem
        → (next_rule rules.old line.now ≡ None) × (fault ≡ ListFault.Form (length rules.old))) }
{
    match next_rule(alloc, rules.as_slice(), line)? {
        Some(rule) => Ok(rules.push(rule)?),
        None => Err(ListFault::Form(rules.len() as u64)),
    }
}

/// All rules, where nothing stands behind the last line feed.
fn ended(rest: &[u8], rules: List<Rule>) -> Result<List<Rule>, ListFault>
    ensures { MatchResult result (λ all. (all ≡ rules) × (rest.now ≡ []) × (rules ≢ []))
        (λ fault. (fault ≡ ListFault.Form (length rules)) × (rest.now ≡ [] → rules ≡ [])) }
{
    if rest.is_empty() && !rules.is_empty() {
        Ok(rules)
    } else {
        Err(ListFault::Form(rules.len() as u64))
    }
}

/// The rules of a list of 1 to 64 lines, each ended by a line feed: a name of 1 to 32 small letters, digits and `-`, a
/// space, and a formula of at most 16,384 bytes in UTF-8, which may be empty. No two names are the same.
///
/// `Form` is the number, from 0, of the first line that breaks this; bytes behind the last line feed are a line, and so
/// is an empty list. `Mem` is for want of memory; no clause says when.
pub fn read_list(alloc: Global, bytes: &[u8]) -> Result<List<Rule>, ListFault>
    ensures { MatchResult result (λ rules. IsListOf bytes.now (Ok rules))
        (λ fault. fault ≢ ListFault.Mem
        → (line : ℕ) × IsListOf bytes.now (Err line) × (fault ≡ ListFault.Form line)) }
{
    let mut rules = List::new(alloc);
    let mut rest = bytes;
    loop {
        match feed_at(rest) {
            None => return ended(rest, rules),
            Some(at) => {
                add_line(alloc, &mut rules, &rest[..at])?;
                rest = &rest[at + 1..];
            }
        }
    }
}
