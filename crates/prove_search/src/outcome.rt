//! What is found of a job.
use viz_base::{Rect, World};

/// What was found of a job.
#[derive(Drop)]
pub enum Outcome {
    /// The job holds, and a certificate of this text is right for it.
    Proved(Vec<u8>),
    /// The formula is false of the rendering at this world of the range.
    Violated(World),
    /// The turns did not do; this part of the range is open yet.
    Undecided(Rect),
}
