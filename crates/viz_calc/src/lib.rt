//! Arithmetic on the numbers of a layout, in 1/64 px, over one world or over many at once.
#![tactic(auto)]

mod calc;
mod extremes;
mod latch;
mod plain;
mod steady;

pub use calc::{Calc, Halt};
pub use extremes::{greater, larger, lesser, smaller};
pub use latch::Latch;
pub use plain::{
    Plain, plain_is_at_one_world, plain_keeps_its_world, plain_never_blames, plain_stays,
};
pub use steady::Steady;
