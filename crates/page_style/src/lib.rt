//! Computed values: the style of each node of a page, by what wins there (CSS 2.1, 6.1 and 6.2).
#![tactic(auto)]

mod computing;
mod elements;
mod families;
mod lengths;
mod properties;
mod values;
mod winners;

pub use computing::compute;
