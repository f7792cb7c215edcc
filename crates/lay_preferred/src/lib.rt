//! The preferred widths of boxes (CSS 2.1, 10.3.5), over any arithmetic.
#![tactic(auto)]

ghost use Rattle.std.specs.Prelude.{◌≡◌};

pub mod columns;
pub mod engine;
pub mod extremes;
pub mod found;
mod front;
pub mod inlines;
mod laws;
pub mod outer;
pub mod parts;
pub mod places;

pub use front::preferred;
