ghost use Rattle.css_select.specs.steps.Chains.{IsChain};

use css_semantics::Comparison;
use viz_base::{Compound, Join, List, Pseudo, Selector, Test, Text};

/// Where in a group of selectors reading stands.
#[derive(Drop)]
pub enum Place {
    /// Before a simple selector, of which nothing is read.
    Fresh,
    /// Behind a part of a simple selector.
    Compound,
    /// Behind a simple selector and white space.
    Gap,
    /// Behind `.`.
    Dot,
    /// Behind the `:` at a place of the text.
    Colon(u32),
    /// Behind two colons.
    Colons,
    /// Behind `:lang(`, its colon at a place.
    Language(u32),
    /// Behind the language in it.
    LanguageEnd(u32),
    /// Behind a pseudo-element, which is none where it is refused.
    Element(Option<Pseudo>),
    /// Behind `[`.
    Bracket,
    /// Behind an attribute's name.
    Name(Text),
    /// Behind the sign of a comparison.
    Sign(Text, Comparison),
    /// Behind the value, with the test that a `]` ends.
    Value(Test),
}

/// The simple selectors of a selector that are read, and how the next is joined.
#[derive(Drop)]
pub struct Chain {
    pub parts: List<(Join, Compound)>,
    pub join: Join,
    /// The first simple selector alone is joined as the first.
    pub ghost ok: { IsChain parts join },
}

/// What is read of a group: its earlier selectors, the simple selectors of the last one, what is read of the next
/// simple selector, and the place of the first refused selector.
#[derive(Drop)]
pub struct Reading {
    pub place: Place,
    pub group: List<Selector>,
    pub chain: Chain,
    pub compound: Compound,
    pub refused: Option<u32>,
}
