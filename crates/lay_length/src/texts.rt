//! The characters of texts and their advances.
ghost use Rattle.std.specs.Prelude.{◌≡◌, ◌≤◌, ◌*◌, ◌==◌, find, length, sum_by, option_map, [], MatchOption};
ghost use Rattle.std.specs.Str.{chars};
ghost use Rattle.viz_base.specs.declared.limits.TheConstants.{MOST_CHARACTERS};
ghost use Rattle.viz_base.specs.FontSizes.{advance};
ghost use Rattle.lay_length.specs.Texts.{IsSplit};

use viz_base::Font;

/// The first character, and what follows it.
pub fn split_char(text: &str) -> Option<(char, &str)>
    ensures { MatchOption result (chars text.now ≡ []) (λ p. IsSplit text.now p.0 p.1.now) }
{
    let mut chars = text.chars();
    let first = chars.next()?;
    Some((first, chars.as_str()))
}

/// The advance of the first entry of a character.
fn entry_of(advances: &[(char, u32)], letter: char) -> Option<u32>
    ensures { result ≡ option_map (λ entry. entry.1) (find
        (λ entry. entry.0 == letter) advances.now) }
{
    for (other, advance) in advances {
        if *other == letter {
            return Some(*advance);
        }
    }
    None
}

/// The advance of a character, in units of the font's em square.
pub fn advance_of(font: &Font, letter: char) -> u32
    ensures { result ≡ advance font.now letter }
{
    match entry_of(font.advances.as_slice(), letter) {
        Some(advance) => advance,
        None => font.other,
    }
}

/// The sum of the advances of a text, in units of the font's em square.
pub fn advances_of(font: &Font, text: &str) -> u64
    requires { length (chars text.now) ≤ MOST_CHARACTERS }
    ensures value { result ≡ sum_by (advance font.now) (chars text.now) }
    ensures most { result ≤ 65535 * length (chars text.now) }
{
    let mut units = 0;
    let mut rest = text;
    while let Some((letter, after)) = split_char(rest) {
        units += u64::from(advance_of(font, letter));
        rest = after;
    }
    units
}
