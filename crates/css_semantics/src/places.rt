//! The places of keywords in the rows of their properties, from 0, by name: those of `specs/Places.antt` that code has.

/// The first of a row.
pub const AT_FIRST: u8 = 0;

/// `none`, of `display`.
pub const AT_NONE: u8 = 0;

/// `inline`, of `display`.
pub const AT_INLINE: u8 = 2;

/// `normal`, of `line-height`.
pub const AT_NORMAL: u8 = 0;

/// `medium`, of the widths of borders.
pub const AT_MEDIUM_WIDTH: u8 = 1;

/// `medium`, of `font-size`.
pub const AT_MEDIUM_SIZE: u8 = 3;
