use crate::{List, Text};

/// The rulesets of a style sheet in order, each with the media that it is for (CSS 2.1, 4.1 and 7.2.1).
#[derive(Drop)]
pub struct Sheet {
    pub rules: List<Rule>,
}

/// A ruleset: the slice of its selector, in bytes of the sheet, its declarations in order (CSS 2.1, 4.1.7), and
/// the media list of the `@media` rule that it stands in, where it stands in one (CSS 2.1, 7.2.1).
#[derive(Drop)]
pub struct Rule {
    pub at: u32,
    pub len: u32,
    pub decls: List<Decl>,
    pub media: Option<List<MediaEntry>>,
}

/// An entry of a media list (Media Queries 3, 3). One outside the grammar is not negated, not on, and has no features:
/// it is met nowhere.
#[derive(Drop)]
pub struct MediaEntry {
    /// Whether it has the word `not`.
    pub negated: bool,
    /// Whether its medium is missing, `all` or `screen`.
    pub on: bool,
    pub features: List<Feature>,
}

/// What an entry of a media list asks of the viewport's width (Media Queries 3, 4.1).
#[derive(Clone, Copy, Debug, PartialEq, Eq)]
pub struct Feature {
    /// Whether the width is at most the bound (`max-width`), and not at least it (`min-width`).
    pub most: bool,
    pub bound: Bound,
}

/// A bound of the viewport's width.
#[derive(Clone, Copy, Debug, PartialEq, Eq)]
pub enum Bound {
    /// In units of 1/64 px.
    Px(i64),
    /// Millionths of the default font size (Media Queries 3, 6).
    Em(i64),
}

/// A declaration: the property's name without escapes, the slice of its value, in bytes of the
/// text, and whether it is `!important` (CSS 2.1, 4.1.8 and 6.4.2).
#[derive(Drop)]
pub struct Decl {
    pub name: Text,
    pub at: u32,
    pub len: u32,
    pub important: bool,
}
