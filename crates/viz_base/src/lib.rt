//! Types and numbers that every part of vizlog shares.
#![tactic(auto)]

mod boxes;
mod decimals;
mod elements;
mod fonts;
mod formulas;
mod groups;
mod halves;
mod jobs;
mod layouts;
mod lengths;
mod limits;
mod lists;
mod memory;
mod nodes;
mod numbers;
mod pages;
mod raw_jobs;
mod rectangles;
mod renderings;
mod selectors;
mod settings;
mod sheets;
mod styles;
mod texts;
mod tokens;
mod trees;
mod worlds;

pub use boxes::Boxed;
pub use decimals::read_decimal;
pub use elements::{has_tag, is_break, is_replaced};
pub use fonts::Font;
pub use formulas::{Edge, Face, Formula, Ring, Set, Sign, Summand, Term};
pub use groups::Selector;
pub use halves::{Halves, halves_of, longest_axis, middle};
pub use jobs::Job;
pub use layouts::{
    Band, Entry, Extent, Inner, Lead, LeadEnd, Lines, Preferred, Spot, Waiting, Widths,
};
pub use lengths::{Length, LineHeight, Sides, Size, Valign};
pub use limits::{
    MOST_BOXES, MOST_CHARACTERS, MOST_EM, MOST_FORMULA, MOST_LAID_CHARACTERS, MOST_PIXELS,
    MOST_SIZE,
};
pub use lists::{List, Text8};
pub use memory::Mem;
pub use nodes::{Attr, Body, Element, Node};
pub use numbers::floor_div;
pub use pages::Page;
pub use raw_jobs::{Part, RawJob, Which};
pub use rectangles::{Child, Cut, Opens, lies_in, part_of, world_count};
pub use renderings::{Placed, Quad, Rendering};
pub use selectors::{Compound, Join, Pseudo, Spec, Test};
pub use settings::{Cascaded, Prop, Setting, Source, Value};
pub use sheets::{Bound, Decl, Feature, MediaEntry, Rule, Sheet};
pub use styles::{Align, Clear, Display, Side, Style};
pub use texts::Text;
pub use tokens::TokenKind;
pub use trees::{BoxNode, BoxTree, Kind, Word};
pub use worlds::{Axis, Rect, Span, World};
