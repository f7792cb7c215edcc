//! What the box tree says of a box (CSS 2.1, 8.3.1, 9, 10).
#![tactic(auto)]

pub mod adjoining;
pub mod boxes;
pub mod contents;
pub mod heights;
pub mod nodes;
pub mod placings;
pub mod styles;
