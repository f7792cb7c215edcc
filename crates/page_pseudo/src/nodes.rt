//! The nodes of the grown page.
use viz_base::{Body, List, Setting};

/// A node of the grown page.
#[derive(Drop)]
pub struct GrownNode {
    /// The number of its parent on the grown page.
    pub parent: Option<u32>,
    pub body: Body,
    /// Its number on the page as it is written; none where it is generated.
    pub from: Option<u32>,
    /// What wins there for each property.
    pub winners: List<Setting>,
}
