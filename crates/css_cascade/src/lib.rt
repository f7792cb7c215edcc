//! The cascade: which declaration wins at each node for each property (CSS 2.1, chapter 6).
#![tactic(auto)]

mod applying;
mod beside;
mod buckets;
mod cascading;
mod defaults;
mod faults;
mod hidden;
mod laws;
mod names;
mod nodes;
mod order;
mod present;
mod pseudo;
mod reading;
mod repeats;
mod sources;
mod trimming;
mod trying;

pub use cascading::cascade;
pub use defaults::default_sheet;
pub use faults::CascadeFault;
pub use laws::{one_cascade, one_pseudo_cascade};
pub use pseudo::cascade_pseudo;
pub use sources::value_text;
