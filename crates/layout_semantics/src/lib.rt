//! Layout as defined: document order, and the rendering of a page.
#![tactic(auto)]

pub mod example_floats;
pub mod example_lines;
pub mod example_margins;
pub mod example_sizes;
pub mod examples;
mod laws;
mod order;

pub use order::{a_box_then_its_content, more_levels_change_nothing};
