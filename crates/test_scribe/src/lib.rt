//! What the programs that answer outside cases share: a table's lines, a reader of a case's members, a writer of its
//! answer, the pages and box trees that stand in cases, and the faults for which a table can't be run.
#![tactic(auto)]

mod faults;
mod pages;
mod scribes;
mod tables;

pub use faults::Fault;
pub use pages::{built, built_at, count_of, job_of};
pub use scribes::Scribe;
pub use tables::{Table, answered};
