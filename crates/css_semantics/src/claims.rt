use viz_base::{List, Prop, Selector, Source, Spec, Value};

/// Where declarations stand (CSS 2.1, 6.4).
#[derive(Clone, Copy, PartialEq, Eq)]
pub enum Origin {
    /// The default style sheet.
    Default,
    /// The author's style sheet of this number, from 0.
    Author(u32),
    /// The style attribute of the node of this number.
    Style(u32),
}

/// How much a declaration weighs by its origin and its importance, in ascending order (CSS 2.1, 6.4.1).
#[derive(Clone, Copy, PartialEq, Eq)]
pub enum Weight {
    /// It stands in the default style sheet.
    Default,
    /// It is the author's.
    Normal,
    /// It is the author's, and `!important`.
    Important,
}

/// What a declaration says of one property.
#[derive(Drop)]
pub struct Claim {
    pub prop: Prop,
    /// The value; none where it is refused by name.
    pub value: Option<Value>,
    pub weight: Weight,
    pub source: Source,
}

/// A selector with its specificity (CSS 2.1, 6.4.3).
#[derive(Drop)]
pub struct Ranked {
    pub selector: Selector,
    pub spec: Spec,
}

/// A ruleset: the selectors of its group, and what its declarations say, in order (CSS 2.1, 4.1.7 and 5.2.1).
#[derive(Drop)]
pub struct Ruleset {
    pub group: List<Ranked>,
    pub claims: List<Claim>,
}

/// What the nodes inside a node take from it: whether it is hidden, and whether the values that they inherit are other
/// than zero, for the maximum other than `none`.
#[derive(Clone, Copy, PartialEq, Eq)]
pub struct Standing {
    /// The node or one around it has `display: none`.
    pub hidden: bool,
    pub min_width: bool,
    pub min_height: bool,
    pub max_height: bool,
}
