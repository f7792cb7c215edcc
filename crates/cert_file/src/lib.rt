//! Checks a certificate file against the jobs of all parts of a job file, and reads one.
#![tactic(auto)]

mod checking;
mod reading;
mod verdict;

pub use checking::check_file;
pub use reading::read_file;
pub use verdict::FileVerdict;
