//! Why a page has no box tree.
use std::alloc::{AllocError, AllocFailed};
use thiserror::Error;
use viz_base::Mem;

/// Why a page has no box tree.
#[derive(Clone, Copy, Debug, Error)]
pub enum BoxFault {
    /// Want of memory, or a page of 2^32 nodes and more.
    #[error("out of memory")]
    Mem,
    /// The node of a block-level box in normal flow that is directly in an inline box.
    #[error("block in an inline box at node {0}")]
    BlockInInline(u32),
    /// A text node, and its first character that is written from right to left.
    #[error("text from right to left at node {0}: {1}")]
    RightToLeft(u32, char),
    /// More than 16,384 boxes.
    #[error("too many boxes")]
    TooManyBoxes,
    /// The node of the box with which the page reaches too far.
    #[error("the page reaches too far at node {0}")]
    Reach(u32),
}

impl From<Mem> for BoxFault {
    ghost use Rattle.std.specs.Prelude.{◌≡◌};
    ghost use Rattle.page_boxes.specs.declared.faults.BoxFault.TheVariants.{Mem};

    ghost from_gives = { λ _ fault. fault ≡ Mem };

    fn from(_: Mem) -> Self {
        BoxFault::Mem
    }
}

impl From<AllocError> for BoxFault {
    ghost use Rattle.std.specs.Prelude.{◌≡◌};
    ghost use Rattle.page_boxes.specs.declared.faults.BoxFault.TheVariants.{Mem};

    ghost from_gives = { λ _ fault. fault ≡ Mem };

    fn from(_: AllocError) -> Self {
        BoxFault::Mem
    }
}

impl<T: Drop> From<AllocFailed<T>> for BoxFault {
    ghost use Rattle.std.specs.Prelude.{◌≡◌};
    ghost use Rattle.page_boxes.specs.declared.faults.BoxFault.TheVariants.{Mem};

    ghost from_gives = { λ _ fault. fault ≡ Mem };

    fn from(_: AllocFailed<T>) -> Self {
        BoxFault::Mem
    }
}
