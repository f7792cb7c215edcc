//! Groups of selectors, what they match and how specific they are (CSS 2.1, chapter 5 and 6.4.3).
#![tactic(auto)]

mod acts;
mod attributes;
mod counts;
mod faults;
mod laws;
mod matching;
mod names;
mod read;
mod reading;
mod siblings;
mod steps;
mod terminals;
mod tree;

pub use counts::specificity;
pub use faults::SelFault;
pub use laws::one_reading;
pub use matching::{matches, matches_beside};
pub use read::read_selector;
pub use siblings::{Siblings, find_siblings};
