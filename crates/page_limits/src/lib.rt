//! How large what the properties of a page's boxes give can be, where the page keeps the profile's limits, and how far
//! the coordinates of its rendering can lie from its origin, by its definition alone.
#![tactic(auto)]

pub mod floats;
pub mod heights;
pub mod lines;
pub mod page;
pub mod rendering;
pub mod widths;
