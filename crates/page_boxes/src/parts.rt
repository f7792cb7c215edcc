//! What a node adds to the box tree, before it is built (CSS 2.1, 9.2, 9.5).
use viz_base::{Kind, List};

/// How a box takes part in layout (CSS 2.1, 9.2 and 9.5).
#[derive(Clone, Copy, PartialEq, Eq)]
pub enum Level {
    /// Block-level in normal flow.
    Block,
    /// A float.
    Floated,
    /// Inline-level.
    Inline,
}

/// The box of a node.
#[derive(Drop)]
pub struct Part {
    /// The number of the node.
    pub node: u32,
    /// The element that it is in.
    pub parent: Option<u32>,
    /// The element of its block container (CSS 2.1, 9.2.1).
    pub container: Option<u32>,
    pub kind: Kind,
    pub level: Level,
    /// The characters of a text.
    pub text: List<char>,
    /// The intrinsic width and height of a replaced element, in whole pixels.
    pub size: Option<(u32, u32)>,
    /// Whether it starts a block formatting context (CSS 2.1, 9.4.1).
    pub context: bool,
}
