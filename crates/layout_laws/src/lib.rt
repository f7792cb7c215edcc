//! Laws of the layout that layout_semantics defines: what holds of all pages, said without the definitions' recursions.
#![tactic(auto)]

pub mod auto_heights;
pub mod baselines;
pub mod boxes;
pub mod clearance;
pub mod contexts;
pub mod edges;
pub mod floats;
pub mod flow;
pub mod fonts;
pub mod heights;
pub mod lines;
pub mod margins;
pub mod minima;
pub mod reaches;
pub mod recursions;
pub mod segments;
pub mod sides;
pub mod sorts_of_boxes;
pub mod spaces;
pub mod widths;
