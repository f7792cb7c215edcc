//! Lines of inline content: the steps of one pass over it (CSS 2.1, 9.4.2, 10.8), and the code. Words are those that
//! the tree keeps.
#![tactic(auto)]

ghost use Rattle.std.specs.Prelude.{◌≡◌};

pub mod breaks;
pub mod containers;
pub mod content;
pub mod endings;
pub mod entries;
pub mod existence;
pub mod extents;
pub mod floating;
pub mod fragments;
mod front;
pub mod held;
pub mod inline_extents;
pub mod items;
mod laws;
pub mod leaps;
pub mod line_content;
pub mod lining;
pub mod loads;
pub mod meeting;
pub mod openings;
pub mod places;
pub mod segments;
pub mod shifts;
pub mod sizes;
pub mod tops;

pub use front::lines;
