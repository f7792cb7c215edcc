//! Lists of rules, each line of which is a name and a formula, and the table of one: at which widths of a job file's
//! range each rule holds.
#![tactic(auto)]

mod faults;
mod joining;
mod judging;
mod lines;
mod lining;
mod lists;
mod refusals;
mod rule_lines;
mod rules;
mod searching;
mod surveys;
mod sweep;
mod table;
mod tables;
mod words;

pub use faults::ListFault;
pub use lists::read_list;
pub use rules::Rule;
pub use surveys::survey;
pub use table::{Table, TableAnswer};
pub use tables::{LIST_MOST, long_list, reply_to_table};
pub use words::{Line, Word};
