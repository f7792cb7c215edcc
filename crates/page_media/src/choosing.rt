//! The rules that are met where features have given signs.
ghost use Rattle.std.specs.Prelude.{◌≡◌, ◌++◌, filter, map, IfOk, OnOk};
ghost use Rattle.std.specs.List.{list_all, list_any};
ghost use Rattle.page_media.specs.Parts.{sign_of};
ghost use Rattle.page_media.specs.Queries.{entry_met, list_met, met_sheet, met_sheets, rule_met};

use crate::copies::{copied_rule, copied_rules};
use crate::noting::same_feature;
use std::alloc::Global;
use viz_base::{Feature, List, MediaEntry, Mem, Rule, Sheet};

/// The sign of a feature.
fn sign_of(features: &[Feature], signs: &[bool], feature: &Feature) -> bool
    ensures { result ≡ sign_of features.now signs.now feature.now }
{
    for at in 0..features.len().min(signs.len()) {
        if same_feature(feature, &features[at]) {
            return signs[at];
        }
    }
    false
}

fn all_met(features: &[Feature], signs: &[bool], asked: &[Feature]) -> bool
    ensures { result ≡ list_all (sign_of features.now signs.now) asked.now }
{
    for feature in asked {
        if !sign_of(features, signs, feature) {
            return false;
        }
    }
    true
}

fn entry_met(features: &[Feature], signs: &[bool], entry: &MediaEntry) -> bool
    ensures { result ≡ entry_met (sign_of features.now signs.now) entry.now }
{
    let met = entry.on && all_met(features, signs, entry.features.as_slice());
    if entry.negated { !met } else { met }
}

fn one_met(features: &[Feature], signs: &[bool], entries: &[MediaEntry]) -> bool
    ensures { result ≡ list_any (entry_met (sign_of features.now signs.now)) entries.now }
{
    for entry in entries {
        if entry_met(features, signs, entry) {
            return true;
        }
    }
    false
}

fn list_met(features: &[Feature], signs: &[bool], entries: &[MediaEntry]) -> bool
    ensures { result ≡ list_met (sign_of features.now signs.now) entries.now }
{
    entries.is_empty() || one_met(features, signs, entries)
}

fn rule_met(features: &[Feature], signs: &[bool], rule: &Rule) -> bool
    ensures { result ≡ rule_met (sign_of features.now signs.now) rule.now }
{
    match &rule.media {
        Some(list) => list_met(features, signs, list.as_slice()),
        None => true,
    }
}

/// The rules that are met.
fn met_rules(
    alloc: Global,
    features: &[Feature],
    signs: &[bool],
    rules: &[Rule],
) -> Result<List<Rule>, Mem>
    ensures { IfOk result (λ met. met
        ≡ filter (rule_met (sign_of features.now signs.now)) rules.now) }
{
    let mut met = List::new(alloc);
    for rule in rules {
        if rule_met(features, signs, rule) {
            met.push(copied_rule(alloc, rule)?)?;
        }
    }
    Ok(met)
}

fn met_authors(
    alloc: Global,
    features: &[Feature],
    signs: &[bool],
    sheets: &[Sheet],
    met: &mut List<Sheet>,
) -> Result<(), Mem>
    ensures { OnOk result (met.new ≡ met.old
        ++ map (met_sheet (sign_of features.now signs.now)) sheets.now) }
{
    for sheet in sheets {
        let rules = met_rules(alloc, features, signs, sheet.rules.as_slice())?;
        met.push(Sheet { rules })?;
    }
    Ok(())
}

/// The sheets of a page with the rules alone that are met where the features have these signs, in their order; the
/// first sheet, which is the default one, keeps all its rules. A feature that isn't in the list is not met.
pub fn chosen(
    alloc: Global,
    sheets: &[Sheet],
    features: &List<Feature>,
    signs: &List<bool>,
) -> Result<List<Sheet>, Mem>
    ensures { IfOk result (λ chosen. chosen
        ≡ met_sheets (sign_of features.now signs.now) sheets.now) }
{
    let mut chosen = List::new(alloc);
    if let Some((default, authors)) = sheets.split_first() {
        let rules = copied_rules(alloc, default.rules.as_slice())?;
        chosen.push(Sheet { rules })?;
        met_authors(
            alloc,
            features.as_slice(),
            signs.as_slice(),
            authors,
            &mut chosen,
        )?;
    }
    Ok(chosen)
}
