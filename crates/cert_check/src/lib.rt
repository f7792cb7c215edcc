//! Checks a certificate against its job. What is accepted holds, whoever made the certificate.
#![tactic(auto)]

mod bytes;
mod descent;
mod entry;
mod laws;
mod leaf;
mod look;
mod narrow;
mod numbers;
mod path_worlds;
mod shapes;
mod truths;
mod verdicts;
mod visits;
mod walk;
mod worlds;

pub use bytes::{BytesVerdict, Front, check_bytes, check_front};
pub use descent::{Above, Descent};
pub use entry::check;
pub use laws::{
    no_more_nodes_than_bytes, one_verdict_each, right_holds, unit_rows, units_are_plain,
};
pub use leaf::check_leaf;
pub use shapes::{has_denial, is_shaped_def, is_shaped_row};
pub use verdicts::{Reject, Verdict};
pub use walk::{Stop, check_answers, check_grid, check_lemma, child_part};
pub use worlds::{first_untrue, holds_at};
