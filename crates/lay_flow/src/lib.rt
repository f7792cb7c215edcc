//! The layout of any page of the profile, over any arithmetic (CSS 2.1, 8.3.1, 9.4, 9.5, 10.6).
#![tactic(auto)]

pub mod floating;
pub mod forward;
pub mod frames;
mod front;
pub mod heights;
mod independent;
mod level;
pub mod lines;
pub mod page;
pub mod parts;
pub mod reached;
pub mod walk;

pub use front::{render, render_at};
