use viz_base::{Prop, Text};

/// A part of the value of a declaration (CSS 2.1, 4.3 and 1.4.2.1).
#[derive(Drop, PartialEq, Eq)]
pub enum Part {
    /// An identifier, after escapes.
    Word(Text),
    /// What a string says.
    Quoted(Text),
    /// A number without a unit, in millionths.
    Number(i64),
    /// A percentage, in millionths.
    Percentage(i64),
    /// An absolute length, in units of 1/64 px.
    Px(i64),
    /// A length in millionths of an `em`.
    Em(i64),
    /// A length in millionths of an `ex`.
    Ex(i64),
    /// A comma.
    Comma,
    /// A `/`.
    Solidus,
    /// What can be a colour alone: a `#` with a name.
    Colour,
    /// A function, and whether its brackets match; where they do it can be a colour.
    Function(bool),
    /// A URI.
    Uri,
    /// What no property of the table takes.
    Other,
}

/// The shorthand properties (CSS 2.1, 1.4.3).
#[derive(Clone, Copy, PartialEq, Eq)]
pub enum Shorthand {
    Margin,
    Padding,
    BorderWidth,
    BorderStyle,
    Border,
    BorderTop,
    BorderRight,
    BorderBottom,
    BorderLeft,
    Font,
    ListStyle,
}

/// Which amounts of a kind a property takes.
#[derive(Clone, Copy, PartialEq, Eq)]
pub enum Takes {
    Nothing,
    All,
    /// All but those below zero.
    NotNegative,
    /// Zero alone: any other is refused by name.
    ZeroAlone,
}

/// Why a declaration gives no setting.
#[derive(Clone, Copy, PartialEq, Eq)]
pub enum Refusal {
    /// The property is unknown, or its value is illegal: the declaration is dropped (CSS 2.1, 4.2).
    Ignored,
    /// The value of this property is refused by name.
    Unsupported(Prop),
}
