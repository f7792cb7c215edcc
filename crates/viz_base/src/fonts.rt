ghost use Rattle.viz_base.specs.Fonts.{IsFont};

use crate::{List, Text};

/// The measures of a font, in units of its own em square.
#[derive(Drop)]
pub struct Font {
    /// The family name that style sheets call it by.
    pub name: Text,
    /// Units per em, from 1 to 16,384.
    pub upem: u32,
    /// Ascent above the baseline.
    pub ascent: u32,
    /// Descent below the baseline.
    pub descent: u32,
    /// The advance of a character without an entry.
    pub other: u32,
    /// The advances of characters.
    pub advances: List<(char, u32)>,
    /// The numbers are within a font's limits.
    pub ghost ok: { IsFont upem ascent descent other advances },
}
