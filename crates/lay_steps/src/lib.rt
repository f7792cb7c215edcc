//! The steps of the whole flow (CSS 2.1, 8.3.1, 9.4, 9.5, 10.6): what the engine does at each box, in its own data,
//! proved to be the rendering that layout_semantics defines.
#![tactic(auto)]

mod laws;
