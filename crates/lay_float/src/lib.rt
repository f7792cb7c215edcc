//! Where floats stand, and what they leave of lines and blocks, over any arithmetic (CSS 2.1, 9.5).
#![tactic(auto)]

mod bands;
mod brackets;
pub mod engine;
mod extremes;
mod floats;
mod front;
mod shelves;
pub mod trial;

pub use floats::{Floats, PlacedFloat};
