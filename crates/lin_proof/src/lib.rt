//! Rows, linear forms over whole numbers, exact in `i128`, each of which claims that its form is at least 0; and
//! derivations: why no values of the variables meet a list of rows. Each line is checked in exact arithmetic. And sums
//! of multiples of two rows, for a search: which cancel a variable, and which are contradictions.
#![tactic(auto)]

mod check;
mod count;
mod derivation;
mod entail;
mod facts;
mod laws;
mod merge;
mod multiples;
mod pairs;
mod row;
mod row_laws;
mod steps;
mod terms;

pub use check::{first_fault, first_fault_among, refutes};
pub use count::line_count;
pub use derivation::{Answer, Branch, Derivation, Ending, Step};
pub use entail::{entails, first_fault_of_entailment};
pub use facts::Facts;
pub use laws::{entailment_is_sound, refutation_is_sound};
pub use multiples::{Multiples, least_multiples};
pub use pairs::{added, closing, is_contradiction, multiple};
pub use row::{Row, RowFault};
pub use row_laws::{cut_holds_as_well, denial_holds_elsewhere, sum_of_values};
pub use terms::Terms;
