//! Boxes of the flow, over any arithmetic: their shape before their height is known, their four rectangles, and the
//! list that they are put into (CSS 2.1, 8.1, 9.4, 10.6).
#![tactic(auto)]

pub mod frames;
pub mod lists;
pub mod places;
