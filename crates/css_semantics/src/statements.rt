use viz_base::{List, Rule};

/// A statement of a style sheet that says something of the sheet (CSS 2.1, 4.1.5, 4.1.7, 6.3
/// and 7.2.1). Places are those of at-keywords, in bytes of the sheet.
#[derive(Drop)]
pub enum Statement {
    /// A ruleset.
    Ruleset(Rule),
    /// `@import`.
    Import(u32),
    /// `@page`.
    Page,
    /// `@media` that asks for what this profile has not (Media Queries 3).
    MediaQuery(u32),
    /// Another `@media`, with the rules that stand in it.
    Media(List<Rule>),
}
