//! Jobs: what the bytes of a job file come to, through its parts, style sheets, width queries, cascades, generated
//! content, styles, boxes and assertion.
#![tactic(auto)]

mod building;
mod content;
mod faults;
mod files;
mod formulas;
mod laws;
mod parts;
mod reading;
mod renumbering;
mod sheets;
mod telling;
mod trees;
mod values;
mod winning;
mod worlds;

pub use faults::JobRefusal;
pub use laws::one_answer;
pub use parts::{build_parts, build_with};
pub use worlds::build_at;
