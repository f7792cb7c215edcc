//! The parts of a range.
ghost use Rattle.std.specs.Prelude.{◌≡◌, ◌≢◌, ℕ, ◌^◌, MatchResult, OnOk, IfOk, Ok, Err};
ghost use Rattle.std.specs.List.{fold, list_any};
ghost use Rattle.page_media.specs.Distinct.{noted};
ghost use Rattle.page_media.specs.Parts.{few_parts_of, parts_of, row_of, same_signs, signs_at};
ghost use Rattle.page_media.specs.declared.faults.MediaFault.TheVariants as of_media;

use crate::faults::MediaFault;
use crate::meeting::{is_met, signs};
use std::alloc::Global;
use viz_base::{Feature, List, Mem, Rect, World};

/// The most parts that a range may have.
const MOST: usize = 12;

/// Whether the features have these signs in a viewport of this width, with this default font size.
fn has_signs(features: &[Feature], signs: &[bool], w: u32, s: u32) -> bool
    ensures { result ≡ same_signs (signs_at features.now w s) signs.now }
{
    if features.len() != signs.len() {
        return false;
    }
    for at in 0..features.len() {
        if is_met(&features[at], w, s) != signs[at] {
            return false;
        }
    }
    true
}

fn is_known(features: &[Feature], known: &[List<bool>], w: u32, s: u32) -> bool
    ensures { result ≡ list_any (same_signs (signs_at features.now w s)) known.now }
{
    for signs in known {
        if has_signs(features, signs.as_slice(), w, s) {
            return true;
        }
    }
    false
}

/// Notes the signs of the worlds of a width and a size, unless they are known.
fn note(
    alloc: Global,
    features: &List<Feature>,
    known: &mut List<List<bool>>,
    w: u32,
    s: u32,
) -> Result<(), Mem>
    ensures { OnOk result (known.new ≡ noted same_signs known.old (signs_at features.now w s)) }
{
    if !is_known(features.as_slice(), known.as_slice(), w, s) {
        known.push(signs(alloc, features, &World { w, s, h: 0 })?)?;
    }
    Ok(())
}

/// Notes the signs of the worlds of a width.
fn note_row(
    alloc: Global,
    features: &List<Feature>,
    known: &mut List<List<bool>>,
    range: &Rect,
    w: u32,
) -> Result<(), Mem>
    ensures { OnOk result (known.new
        ≡ fold (noted same_signs) known.old (row_of features.now range.now w)) }
{
    for s in u64::from(range.sl)..u64::from(range.sh) + 1 {
        note(alloc, features, known, w, s as u32)?;
    }
    Ok(())
}

fn all_parts(alloc: Global, features: &List<Feature>, range: &Rect) -> Result<List<List<bool>>, Mem>
    ensures { IfOk result (λ parts. parts ≡ parts_of features.now range.now) }
{
    let mut known = List::new(alloc);
    for w in u64::from(range.wl)..u64::from(range.wh) + 1 {
        note_row(alloc, features, &mut known, range, w as u32)?;
    }
    Ok(known)
}

/// How many parts they are. Of `2^32` and more the number may not fit, which counts as want of memory.
fn too_many(count: usize) -> MediaFault
    ensures { result ≢ of_media.Mem → result ≡ of_media.TooManyParts count }
{
    match u32::try_from(count) {
        Ok(count) => MediaFault::TooManyParts(count),
        Err(_) => MediaFault::Mem,
    }
}

/// The sign lists of a range's worlds, each once, by its first world in the order of widths and then sizes.
///
/// `TooManyParts` exactly where they are more than 12: how many they are.
pub fn parts(
    alloc: Global,
    features: &List<Feature>,
    range: &Rect,
) -> Result<List<List<bool>>, MediaFault>
    ensures { MatchResult result (λ parts. few_parts_of features.now range.now ≡ Ok parts)
        (λ fault. fault ≢ of_media.Mem
        → (count : ℕ) × (few_parts_of features.now range.now ≡ Err count)
        × (fault ≡ of_media.TooManyParts count)) }
{
    let parts = all_parts(alloc, features, range)?;
    if parts.len() > MOST {
        return Err(too_many(parts.len()));
    }
    Ok(parts)
}
