//! By which of the tables of widths a box goes (CSS 2.1, 10.3).
ghost use Rattle.std.specs.Prelude.{◌≡◌};
ghost use Rattle.layout_semantics.specs.Horizontal.{placing_of};
ghost use Rattle.lay_tree.specs.Placings.{placing};

use crate::boxes::{is_floated, is_inline_level, kind};
use viz_base::{BoxTree, Kind};

/// How the horizontal terms of a box come about.
#[derive(Clone, Copy, PartialEq, Eq)]
pub enum Placing {
    /// A block in normal flow.
    Block,
    /// A float or an inline-block.
    Shrunk,
    /// A replaced block in normal flow.
    ReplacedBlock,
    /// A replaced float, or one in a line.
    ReplacedShrunk,
}

/// How the horizontal terms of a box come about.
pub fn placed_as(tree: &BoxTree, at: u32) -> Placing
    ensures { placing result ≡ placing_of tree.now at }
{
    match kind(tree, at) {
        Kind::Replaced => {
            if is_floated(tree, at) || is_inline_level(tree, at) {
                Placing::ReplacedShrunk
            } else {
                Placing::ReplacedBlock
            }
        }
        Kind::Float | Kind::Atomic => Placing::Shrunk,
        _ => Placing::Block,
    }
}
