ghost use Rattle.std.specs.Prelude.{◌≡◌, IfOk};

use std::alloc::Global;
use viz_base::{Decl, List, MediaEntry, Mem, Rule};

fn copied_decls(alloc: Global, decls: &[Decl]) -> Result<List<Decl>, Mem>
    ensures { IfOk result (λ copies. copies ≡ decls.now) }
{
    let mut copies = List::new(alloc);
    for decl in decls {
        let name = decl.name.clone()?;
        copies.push(Decl {
            name,
            at: decl.at,
            len: decl.len,
            important: decl.important,
        })?;
    }
    Ok(copies)
}

fn copied_entries(alloc: Global, entries: &[MediaEntry]) -> Result<List<MediaEntry>, Mem>
    ensures { IfOk result (λ copies. copies ≡ entries.now) }
{
    let mut copies = List::new(alloc);
    for entry in entries {
        let features = List::from_slice(alloc, entry.features.as_slice())?;
        copies.push(MediaEntry {
            negated: entry.negated,
            on: entry.on,
            features,
        })?;
    }
    Ok(copies)
}

fn copied_media(
    alloc: Global,
    media: &Option<List<MediaEntry>>,
) -> Result<Option<List<MediaEntry>>, Mem>
    ensures { IfOk result (λ copy. copy ≡ media.now) }
{
    match media {
        Some(entries) => Ok(Some(copied_entries(alloc, entries.as_slice())?)),
        None => Ok(None),
    }
}

/// A rule of its own.
pub fn copied_rule(alloc: Global, rule: &Rule) -> Result<Rule, Mem>
    ensures { IfOk result (λ copy. copy ≡ rule.now) }
{
    let decls = copied_decls(alloc, rule.decls.as_slice())?;
    let media = copied_media(alloc, &rule.media)?;
    Ok(Rule {
        at: rule.at,
        len: rule.len,
        decls,
        media,
    })
}

/// The rules of a list of its own.
pub fn copied_rules(alloc: Global, rules: &[Rule]) -> Result<List<Rule>, Mem>
    ensures { IfOk result (λ copies. copies ≡ rules.now) }
{
    let mut copies = List::new(alloc);
    for rule in rules {
        copies.push(copied_rule(alloc, rule)?)?;
    }
    Ok(copies)
}
