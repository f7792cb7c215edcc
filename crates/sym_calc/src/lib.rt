//! Symbolic arithmetic: numbers that are linear forms over the width, the size, the height and floors, compared by the
//! answers of a certificate, each of which is proved by its derivation.
#![tactic(auto)]

mod divisions;
mod facts;
mod floors;
mod laws;
mod paths;
mod sym;
mod told;
mod troubles;

pub use divisions::{quotient, remainder};
pub use facts::add_floor;
pub use floors::{Floor, Floors, same_row};
pub use laws::{
    answers_are_refuted_below_their_path, kept_worlds_are_those_of_the_path, sound_paths_are_known,
    sym_keeps_its_worlds,
};
pub use paths::{Origin, Path};
pub use sym::Sym;
pub use told::{Alike, Bounds, Told};
pub use troubles::Trouble;
