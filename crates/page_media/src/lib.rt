//! Width queries (Media Queries 3): which features the sheets of a page ask for, and what is left of the page and of
//! its assertion where given ones are met.
#![tactic(auto)]

mod choosing;
mod copies;
mod faults;
mod guarding;
mod laws;
mod meeting;
mod noting;
mod splitting;

pub use choosing::chosen;
pub use faults::MediaFault;
pub use guarding::guard;
pub use laws::{chosen_are_met, each_world_has_one_part, features_are_all, guarded_is_if};
pub use meeting::signs;
pub use noting::features;
pub use splitting::parts;
