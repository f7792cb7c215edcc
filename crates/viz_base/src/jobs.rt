ghost use Rattle.viz_base.specs.Jobs.{IsJob};

use crate::{BoxTree, Formula, Rect};

/// A job that was read: a page's boxes, the worlds it is to be right at, and the assertion.
#[derive(Drop)]
pub struct Job {
    /// SHA-256 of the job file.
    pub digest: [u8; 32],
    /// Of its file: 1 where the viewport has one height, 2 where it has a range of heights.
    pub form: u8,
    /// The worlds.
    pub range: Rect,
    pub tree: BoxTree,
    pub formula: Formula,
    /// The range is within the limits, no box reaches too far, and the formula's terms are bounded.
    pub ghost ok: { IsJob form range tree.boxes tree.styles tree.fonts tree.parents formula },
}
