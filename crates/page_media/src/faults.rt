use std::alloc::{AllocError, AllocFailed};
use thiserror::Error;
use viz_base::Mem;

/// Why a page has no parts.
#[derive(Clone, Copy, Debug, Error)]
pub enum MediaFault {
    #[error("out of memory")]
    Mem,
    /// The author's sheet, by its number from 0, and the place in it of the rule in whose media list the seventeenth
    /// feature is.
    #[error("too many width queries in sheet {sheet} at {at}")]
    TooManyQueries { sheet: u32, at: u32 },
    /// More than 12 parts: how many they are.
    #[error("too many parts: {0}")]
    TooManyParts(u32),
}

impl From<Mem> for MediaFault {
    ghost use Rattle.std.specs.Prelude.{◌≡◌};
    ghost use Rattle.page_media.specs.declared.faults.MediaFault.TheVariants.{Mem};

    ghost from_gives = { λ _ fault. fault ≡ Mem };

    fn from(_: Mem) -> Self {
        MediaFault::Mem
    }
}

impl From<AllocError> for MediaFault {
    ghost use Rattle.std.specs.Prelude.{◌≡◌};
    ghost use Rattle.page_media.specs.declared.faults.MediaFault.TheVariants.{Mem};

    ghost from_gives = { λ _ fault. fault ≡ Mem };

    fn from(_: AllocError) -> Self {
        MediaFault::Mem
    }
}

impl<T: Drop> From<AllocFailed<T>> for MediaFault {
    ghost use Rattle.std.specs.Prelude.{◌≡◌};
    ghost use Rattle.page_media.specs.declared.faults.MediaFault.TheVariants.{Mem};

    ghost from_gives = { λ _ fault. fault ≡ Mem };

    fn from(_: AllocFailed<T>) -> Self {
        MediaFault::Mem
    }
}
