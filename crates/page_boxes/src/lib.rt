//! The boxes of a page (CSS 2.1, 9.2), and which pages get none.
#![tactic(auto)]

mod building;
mod copies;
mod extents;
mod faults;
mod fonts;
pub mod laws;
mod leads;
mod letters;
mod nodes;
mod parts;
mod places;
mod reaches;
mod refusals;
mod spaces;
mod styles;
mod tables;
mod words;

pub use building::build_boxes;
pub use faults::BoxFault;
