//! The values of declarations (CSS 2.1, 1.4.3 and 4.3), by the table of the properties that have an effect on layout.
#![tactic(auto)]

mod amounts;
mod brackets;
mod classes;
mod declarations;
mod families;
mod fault;
mod fonts;
mod initials;
mod laws;
mod lines;
mod names;
mod rows;
mod sides;
mod splitting;
mod strings;
mod values;

pub use declarations::read_declaration;
pub use fault::ValueFault;
pub use initials::{Initial, inherits, initial_of};
pub use laws::shorthands_by_grammar;
pub use rows::{keyword_at, properties, property_name};
