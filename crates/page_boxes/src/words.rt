//! The words of texts, with the sums of their advances.
ghost use Rattle.std.specs.Prelude.{◌≡◌, ◌≤◌, chars, length, map, pos, sum_by, IfOk};
ghost use Rattle.std.specs.List.{slice_split};
ghost use Rattle.std.specs.Option.{option_copied};
ghost use Rattle.viz_base.specs.FontSizes.{advance};
ghost use Rattle.viz_base.specs.Words.{is_space, word_in, words_in, words_of};
ghost use Rattle.viz_base.specs.declared.limits.TheConstants.{MOST_CHARACTERS};
ghost use Rattle.page_boxes.specs.steps.Words.{AreShort};

use crate::extents::{advance, font_at};
use crate::letters::letters_of;
use std::alloc::{AllocError, Global};
use viz_base::{BoxNode, Font, List, Style, Word};

/// The sum of the advances of letters, in units of the font's em square.
fn units_of(font: &Font, letters: &[char]) -> i64
    requires { length letters.now ≤ MOST_CHARACTERS }
    ensures { result ≡ pos (sum_by (advance font.now) letters.now) }
{
    let mut units: u64 = 0;
    for letter in letters {
        units += u64::from(advance(font, *letter));
    }
    units as i64
}

/// Letters with the sum of their advances, which is 0 without a font.
fn word_of(alloc: Global, font: Option<&Font>, letters: &[char]) -> Result<Word, AllocError>
    requires { length letters.now ≤ MOST_CHARACTERS }
    ensures { IfOk result (λ word. word ≡ word_in (option_copied font.entry) letters.now) }
{
    let units = match font {
        Some(font) => units_of(font, letters),
        None => 0,
    };
    let letters = List::from_slice(alloc, letters)?;
    Ok(Word { letters, units })
}

/// What stands before, between and behind spaces.
fn parts_of(alloc: Global, letters: &[char]) -> Result<Vec<&[char]>, AllocError>
    ensures { IfOk result (λ parts. map (λ part. part.now) parts.items
        ≡ slice_split is_space letters.now) }
{
    letters.split(|letter| *letter == ' ').collect(alloc)
}

/// The words of a text.
fn words_in(alloc: Global, font: Option<&Font>, text: &str) -> Result<List<Word>, AllocError>
    requires { length (chars text.now) ≤ MOST_CHARACTERS }
    ensures { IfOk result (λ words. words ≡ words_in (option_copied font.entry) (chars text.now)) }
{
    let letters = letters_of(alloc, text)?;
    let parts = parts_of(alloc, &letters)?;
    let mut words = List::new(alloc);
    for part in &parts {
        words.push(word_of(alloc, font, part)?)?;
    }
    Ok(words)
}

/// For each box the words of its text.
pub fn words_of(
    alloc: Global,
    boxes: &[BoxNode],
    styles: &[Style],
    fonts: &[Font],
) -> Result<List<List<Word>>, AllocError>
    requires { AreShort boxes.now }
    ensures { IfOk result (λ words. words ≡ words_of boxes.now styles.now fonts.now) }
{
    let mut words = List::new(alloc);
    for inner in boxes {
        let font = font_at(styles, fonts, inner.node);
        words.push(words_in(alloc, font, inner.chars.as_str())?)?;
    }
    Ok(words)
}
