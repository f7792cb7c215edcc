ghost use Rattle.viz_base.specs.Pages.{IsPage};

use crate::{List, Node};

/// A document tree: its elements and texts in document order, the root first.
#[derive(Drop)]
pub struct Page {
    pub nodes: List<Node>,
    /// The root is an element and alone has no parent, each other node's parent is an element before it, all nodes
    /// between an element and a child of its are in it, no text has more than 262,144 characters, and tags and names of
    /// attributes are in ASCII lower case.
    pub ghost ok: { IsPage nodes },
}
