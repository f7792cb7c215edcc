//! The features that the sheets of a page ask for.
ghost use Rattle.std.specs.Prelude.{◌≡◌, ◌≢◌, ℕ, ◌<◌, ◌≤◌, ◌^◌, length, MatchResult, Ok, Err};
ghost use Rattle.std.specs.List.{flat_map, list_any};
ghost use Rattle.page_media.specs.Distinct.{noted};
ghost use Rattle.page_media.specs.Features.{asked_by, asked_by_entry, authors, features_of, known_behind, noted_all, same_bound, same_feature};
ghost use Rattle.page_media.specs.declared.noting.Full.TheVariants as of_full;
ghost use Rattle.page_media.specs.declared.faults.MediaFault.TheVariants as of_media;

use crate::faults::MediaFault;
use std::alloc::{AllocError, Global};
use viz_base::{Bound, Feature, List, MediaEntry, Rule, Sheet};

/// The most features that a page may ask for.
const MOST: usize = 16;

/// Why a feature isn't noted.
#[derive(Clone, Copy)]
enum Full {
    Mem,
    /// It is the seventeenth.
    Past,
}

impl From<AllocError> for Full {
    ghost use Rattle.std.specs.Prelude.{◌≡◌};
    ghost use Rattle.page_media.specs.declared.noting.Full.TheVariants.{Mem};

    ghost from_gives = { λ _ full. full ≡ Mem };

    fn from(_: AllocError) -> Self {
        Full::Mem
    }
}

fn same_bound(a: Bound, b: Bound) -> bool
    ensures { result ≡ same_bound a b }
{
    match (a, b) {
        (Bound::Px(a), Bound::Px(b)) => a == b,
        (Bound::Em(a), Bound::Em(b)) => a == b,
        _ => false,
    }
}

/// Whether two features are one.
pub(crate) fn same_feature(f: &Feature, g: &Feature) -> bool
    ensures { result ≡ same_feature f.now g.now }
{
    let alike = if f.most { g.most } else { !g.most };
    alike && same_bound(f.bound, g.bound)
}

fn is_known(known: &[Feature], feature: &Feature) -> bool
    ensures { result ≡ list_any (same_feature feature.now) known.now }
{
    for other in known {
        if same_feature(feature, other) {
            return true;
        }
    }
    false
}

/// Notes a feature, unless it is known.
fn note(known: &mut List<Feature>, feature: &Feature) -> Result<(), Full>
    requires { length known.old ≤ 16 }
    ensures { MatchResult result
        (λ _. (known.new ≡ noted same_feature known.old feature.now) × (length known.new ≤ 16))
        (λ full. full ≡ of_full.Past → 16 < length (noted same_feature known.old feature.now)) }
{
    if is_known(known.as_slice(), feature) {
        return Ok(());
    }
    if known.len() >= MOST {
        return Err(Full::Past);
    }
    known.push(*feature)?;
    Ok(())
}

fn note_all(known: &mut List<Feature>, features: &[Feature]) -> Result<(), Full>
    requires { length known.old ≤ 16 }
    ensures { MatchResult result
        (λ _. (known.new ≡ noted_all known.old features.now) × (length known.new ≤ 16))
        (λ full. full ≡ of_full.Past → 16 < length (noted_all known.old features.now)) }
{
    for feature in features {
        note(known, feature)?;
    }
    Ok(())
}

/// Notes what an entry asks for.
fn note_entry(known: &mut List<Feature>, entry: &MediaEntry) -> Result<(), Full>
    requires { length known.old ≤ 16 }
    ensures { MatchResult result (λ _. (known.new ≡ noted_all known.old (asked_by_entry entry.now))
        × (length known.new ≤ 16)) (λ full. full ≡ of_full.Past
        → 16 < length (noted_all known.old (asked_by_entry entry.now))) }
{
    if entry.on {
        note_all(known, entry.features.as_slice())
    } else {
        Ok(())
    }
}

fn note_list(known: &mut List<Feature>, entries: &[MediaEntry]) -> Result<(), Full>
    requires { length known.old ≤ 16 }
    ensures { MatchResult result (λ _. (known.new
        ≡ noted_all known.old (flat_map asked_by_entry entries.now)) × (length known.new ≤ 16))
        (λ full. full ≡ of_full.Past → 16
        < length (noted_all known.old (flat_map asked_by_entry entries.now))) }
{
    for entry in entries {
        note_entry(known, entry)?;
    }
    Ok(())
}

fn note_rule(known: &mut List<Feature>, rule: &Rule) -> Result<(), Full>
    requires { length known.old ≤ 16 }
    ensures { MatchResult result
        (λ _. (known.new ≡ noted_all known.old (asked_by rule.now)) × (length known.new ≤ 16))
        (λ full. full ≡ of_full.Past → 16 < length (noted_all known.old (asked_by rule.now))) }
{
    match &rule.media {
        Some(list) => note_list(known, list.as_slice()),
        None => Ok(()),
    }
}

/// Notes what the rules of the author's sheet of this number ask for.
fn note_rules(known: &mut List<Feature>, sheet: u32, rules: &[Rule]) -> Result<(), MediaFault>
    requires { length known.old ≤ 16 }
    ensures { MatchResult result (λ _. (known_behind known.old rules.now ≡ Ok known.new)
        × (length known.new ≤ 16)) (λ fault. fault ≢ of_media.Mem
        → (at : ℕ) × (known_behind known.old rules.now ≡ Err at)
        × (fault ≡ of_media.TooManyQueries sheet at)) }
{
    for rule in rules {
        match note_rule(known, rule) {
            Ok(()) => {}
            Err(Full::Mem) => return Err(MediaFault::Mem),
            Err(Full::Past) => {
                return Err(MediaFault::TooManyQueries { sheet, at: rule.at });
            }
        }
    }
    Ok(())
}

/// A place as a number. Of `2^32` and more it may not fit, which counts as want of memory.
fn number_of(at: usize) -> Result<u32, MediaFault>
    ensures { MatchResult result (λ number. number ≡ at) (λ fault. fault ≡ of_media.Mem) }
{
    match u32::try_from(at) {
        Ok(number) => Ok(number),
        Err(_) => Err(MediaFault::Mem),
    }
}

/// The author's sheets: all but the first.
fn authors(sheets: &[Sheet]) -> &[Sheet]
    ensures { result.now ≡ authors sheets.now }
{
    match sheets.split_first() {
        Some((_, rest)) => rest,
        None => sheets,
    }
}

/// The features that the sheets of a page ask for in entries for this medium, each once, by its first place. The first
/// sheet, which is the default one, is passed over.
///
/// `TooManyQueries` exactly where there are more than 16: the author's sheet, and the place of the first rule in whose
/// list the seventeenth is.
pub fn features(alloc: Global, sheets: &[Sheet]) -> Result<List<Feature>, MediaFault>
    ensures { MatchResult result (λ features. features_of sheets.now ≡ Ok features)
        (λ fault. fault ≢ of_media.Mem
        → (sheet : ℕ) × (at : ℕ) × (features_of sheets.now ≡ Err (sheet, at))
        × (fault ≡ of_media.TooManyQueries sheet at)) }
{
    let own = authors(sheets);
    let mut known = List::new(alloc);
    for number in 0..own.len() {
        let sheet = number_of(number)?;
        note_rules(&mut known, sheet, own[number].rules.as_slice())?;
    }
    Ok(known)
}
