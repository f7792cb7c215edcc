//! Limits of the profile.

/// The greatest width and height of a viewport, and of a replaced element by itself, in pixels.
pub const MOST_PIXELS: u32 = 16_384;

/// The greatest default font size, in pixels.
pub const MOST_SIZE: u32 = 256;

/// How many units of a font an em may have.
pub const MOST_EM: u32 = 16_384;

/// How many boxes a page may have.
pub const MOST_BOXES: usize = 16_384;

/// How many characters the texts of a page may have together, and its generated content.
pub const MOST_CHARACTERS: usize = 262_144;

/// How many characters the texts of a page and its generated content have together at most.
pub const MOST_LAID_CHARACTERS: usize = 524_288;

/// How many bytes a formula may have.
pub const MOST_FORMULA: usize = 16_384;
