//! What of certificates is kept under an edited job, and their renewal, given the bytes of both files.
#![tactic(auto)]

mod certificates;
mod counts;
mod files;
mod here;
mod judges;
mod kept;
mod parts;
mod renewals;
mod sums;
mod walk;

pub use certificates::pieces;
pub use counts::Kept;
pub use kept::reply_to_kept;
pub use renewals::reply_to_renew;
