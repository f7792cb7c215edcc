//! Paths of certificates: what the variables are along them, which facts they give, and which worlds lie on them.
#![tactic(auto)]

pub mod axes;
pub mod examples;
pub mod facts;
pub mod nodes;
pub mod shapes;
pub mod units;

pub use axes::{along, axis_count, axis_of, variable_of};
pub use units::cut_of;
