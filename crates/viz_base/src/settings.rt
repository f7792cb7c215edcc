use crate::{List, Text};

/// The properties that have an effect on layout, in the order of the table of properties.
#[derive(Clone, Copy, Debug, PartialEq, Eq)]
pub enum Prop {
    Display,
    Position,
    Float,
    Clear,
    Overflow,
    Direction,
    Width,
    Height,
    MinWidth,
    MinHeight,
    MaxWidth,
    MaxHeight,
    MarginTop,
    MarginRight,
    MarginBottom,
    MarginLeft,
    PaddingTop,
    PaddingRight,
    PaddingBottom,
    PaddingLeft,
    BorderTopWidth,
    BorderRightWidth,
    BorderBottomWidth,
    BorderLeftWidth,
    BorderTopStyle,
    BorderRightStyle,
    BorderBottomStyle,
    BorderLeftStyle,
    FontSize,
    FontFamily,
    LineHeight,
    VerticalAlign,
    TextAlign,
    WhiteSpace,
    TextIndent,
    LetterSpacing,
    WordSpacing,
    TextTransform,
    ListStylePosition,
    Content,
}

/// The value of a declaration.
#[derive(Drop)]
pub enum Value {
    /// `inherit` (CSS 2.1, 6.2.1).
    Inherit,
    /// The keyword at this place, from 0, among those that the property takes.
    Word(u8),
    /// An absolute length, in units of 1/64 px (CSS 2.1, 4.3.2).
    Px(i64),
    /// Millionths of the font size.
    Em(i64),
    /// Millionths of a hundredth: `50%` is 50,000,000.
    Pct(i64),
    /// A number, in millionths.
    Number(i64),
    /// Names of font families, first choice first (CSS 2.1, 15.3).
    Names(List<Text>),
    /// The text of generated content (CSS 2.1, 12.2).
    Chars(Text),
}

/// A property with its value.
#[derive(Drop)]
pub struct Setting {
    pub prop: Prop,
    pub value: Value,
}

/// The settings that win for each node, in the order of the properties (CSS 2.1, 6.4).
#[derive(Drop)]
pub struct Cascaded {
    pub winners: List<List<Setting>>,
}

/// Where a declaration's value stands: the place and the number of its bytes in the default style sheet, in
/// an author's sheet, or in the style attribute of a node.
#[derive(Clone, Copy, Debug, PartialEq, Eq)]
pub enum Source {
    Default { at: u32, len: u32 },
    Author { sheet: u32, at: u32, len: u32 },
    Style { node: u32, at: u32, len: u32 },
}
