use crate::{Font, List, Page, Rect, Text};

/// What a job file says, within all limits, before its style sheets and its assertion are read.
#[derive(Drop)]
pub struct RawJob {
    /// 1 where the viewport has one height, 2 where it has a range of heights.
    pub form: u8,
    /// The worlds.
    pub range: Rect,
    /// The fonts, at least one; the first stands for families that no font has as its name.
    pub fonts: List<Font>,
    /// The texts of the author's style sheets, in their order.
    pub css: List<Text>,
    pub page: Page,
    /// The text of the assertion.
    pub formula: Text,
}

/// The parts of a job file, in the order in which they are looked at.
#[derive(Clone, Copy, Debug, PartialEq, Eq)]
pub enum Part {
    /// The file's value and its member `vizlog`.
    Top,
    Widths,
    Sizes,
    /// The viewport's height, or its range of heights.
    Height,
    Fonts,
    Css,
    Page,
    Assert,
}

/// What a job file has a limited number of, in the order in which they are counted.
#[derive(Clone, Copy, Debug, PartialEq, Eq)]
pub enum Which {
    Elements,
    /// Elements inside one another, the root being 1.
    Depth,
    /// Characters of all texts.
    Text,
    /// Bytes of style sheets and style attributes.
    Css,
    Fonts,
    /// Advances of all fonts together.
    Advances,
    /// Bytes of the assertion.
    Formula,
}
