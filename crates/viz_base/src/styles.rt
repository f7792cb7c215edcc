ghost use Rattle.viz_base.specs.Styles.{IsStyle};

use crate::{Length, LineHeight, Sides, Size, Valign};

/// The value of `display`, as far as boxes of the profile go (CSS 2.1, 9.2.4).
#[derive(Clone, Copy, Debug, PartialEq, Eq)]
pub enum Display {
    /// `none`.
    Hidden,
    Block,
    Inline,
    InlineBlock,
}

/// A side of a line or of a containing block.
#[derive(Clone, Copy, Debug, PartialEq, Eq)]
pub enum Side {
    Left,
    Right,
}

/// The value of `clear` (CSS 2.1, 9.5.2).
#[derive(Clone, Copy, Debug, PartialEq, Eq)]
pub enum Clear {
    /// `none`.
    Nothing,
    Left,
    Right,
    Both,
}

/// The value of `text-align` (CSS 2.1, 16.2); `justify` counts as left.
#[derive(Clone, Copy, Debug, PartialEq, Eq)]
pub enum Align {
    Left,
    Right,
    Center,
}

/// The computed values of a node, as far as layout needs them (CSS 2.1, 6.1.2).
#[derive(Drop)]
pub struct Style {
    pub display: Display,
    pub float: Option<Side>,
    pub clear: Clear,
    /// Whether `overflow` is other than visible.
    pub clips: bool,
    pub width: Length,
    pub min_width: Length,
    pub max_width: Option<Length>,
    pub height: Length,
    pub min_height: Length,
    pub max_height: Option<Length>,
    pub margin: Sides<Length>,
    pub padding: Sides<Length>,
    pub border: Sides<Length>,
    pub size: Size,
    /// The place of its font in the tree's list.
    pub font: u32,
    pub line: LineHeight,
    pub valign: Valign,
    pub align: Align,
    /// Whether lines may break at spaces (`white-space: normal`).
    pub wraps: bool,
    /// No denominator is 0, no percentage is over 2^40 in size, no number of `size` and `line` is
    /// negative, no minimum, maximum, padding, border or raise is `Auto`, and no border a percentage.
    pub ghost ok: { IsStyle width min_width max_width height min_height max_height margin padding border size line
        valign },
}
