use crate::{List, Text};

/// How a compound of a selector stands to the one before it (CSS 2.1, 5.2).
#[derive(Clone, Copy, Debug, PartialEq, Eq)]
pub enum Join {
    /// It is the first.
    First,
    /// Anywhere in the element before (CSS 2.1, 5.5).
    Descendant,
    /// `>`: a child of the element before (CSS 2.1, 5.6).
    Child,
    /// `+`: the element that follows the one before (CSS 2.1, 5.7).
    Next,
}

/// A simple selector: an element's tag, any where there is none, and what else is asked of it (CSS 2.1, 5.2).
#[derive(Drop)]
pub struct Compound {
    pub tag: Option<Text>,
    pub tests: List<Test>,
}

/// What a simple selector asks of an element beside its tag. Of two texts the first is an attribute's name
/// and the second its value.
#[derive(Drop)]
pub enum Test {
    /// `#id` (CSS 2.1, 5.9).
    Id(Text),
    /// `.class` (CSS 2.1, 5.8.3).
    Class(Text),
    /// `[name]` (CSS 2.1, 5.8.1).
    Has(Text),
    /// `[name=value]`.
    Equals(Text, Text),
    /// `[name~=value]`.
    Word(Text, Text),
    /// `[name|=value]`.
    Dash(Text, Text),
    /// `:first-child` (CSS 2.1, 5.11.1).
    FirstChild,
    /// `:link` (CSS 2.1, 5.11.2).
    Link,
    /// `:visited`, `:hover`, `:active` and `:focus`, which match nothing.
    Never,
}

/// A pseudo-element with generated content, before or after that of its element (CSS 2.1, 12.1).
#[derive(Clone, Copy, Debug, PartialEq, Eq)]
pub enum Pseudo {
    /// `:before`.
    Before,
    /// `:after`.
    After,
}

/// Specificity: whether the declaration is a style attribute's, and the counts of ids, of attributes, classes
/// and pseudo-classes, and of tags and pseudo-elements (CSS 2.1, 6.4.3).
#[derive(Clone, Copy)]
pub struct Spec {
    pub style: u32,
    pub ids: u32,
    pub attrs: u32,
    pub types: u32,
}
