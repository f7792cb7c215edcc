//! The numbers with which the search for a certificate lays a page out: over all worlds of a path together, with known
//! worlds of it, and over one world with a digest of what was answered. Nothing is claimed but that they return.
#![tactic(auto)]

mod cones;
mod digests;
mod finder;
mod footing;
mod numbers;
mod pool;
mod renumbering;
mod seeker;
mod trail;
mod trouble;
mod values;

pub use digests::Digesting;
pub use finder::{LIMIT, Opening};
pub use footing::{Footing, variable_count};
pub use pool::{Known, Pool, Signs, Slice};
pub use seeker::Seeker;
pub use trail::{Cone, Found};
pub use values::{floor_of, value_of};
