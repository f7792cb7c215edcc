//! Generated content (CSS 2.1, 12.1 and 12.2): the page with the pseudo-elements `:before` and `:after` as nodes of it.
#![tactic(auto)]

mod adding;
mod copies;
mod fault;
mod growing;
mod laws;
mod limits;
mod nodes;
mod numbers;
mod seeds;
mod splitting;
mod texts;
mod walking;

pub use fault::GrowFault;
pub use growing::{Grown, grow};
pub use laws::one_growth;
