ghost use Rattle.std.specs.Prelude.{◌≡◌};

use crate::counts::Kept;
use std::alloc::Global;
use viz_base::Rect;

/// What a walk takes down to a node.
#[derive(Clone, Copy)]
pub struct Here {
    pub alloc: Global,
    /// The node's part of the range; None where unit splits above left no world.
    pub part: Option<Rect>,
    /// The counts of what comes before the node.
    pub kept: Kept,
}

impl Here {
    /// The same, in another part of the range.
    pub fn in_part(self, part: Option<Rect>) -> Self
        ensures part { result.part ≡ part }
        ensures kept { result.kept ≡ self.kept }
    {
        Here {
            alloc: self.alloc,
            part,
            kept: self.kept,
        }
    }

    /// The same, with other counts.
    pub fn with(self, kept: Kept) -> Self
        ensures part { result.part ≡ self.part }
        ensures kept { result.kept ≡ kept }
    {
        Here {
            alloc: self.alloc,
            part: self.part,
            kept,
        }
    }
}
