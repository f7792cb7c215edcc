//! Why a page doesn't grow.
use std::alloc::{AllocError, AllocFailed};
use thiserror::Error;
use viz_base::Mem;

/// Why a page doesn't grow.
#[derive(Clone, Copy, Debug, Error)]
pub enum GrowFault {
    #[error("out of memory")]
    Mem,
    /// The first element at which the generated characters are more than 262,144.
    #[error("too much generated content at node {0}")]
    Generated(u32),
}

impl From<Mem> for GrowFault {
    ghost use Rattle.std.specs.Prelude.{◌≡◌};
    ghost use Rattle.page_pseudo.specs.declared.fault.GrowFault.TheVariants.{Mem};

    ghost from_gives = { λ _ fault. fault ≡ Mem };

    fn from(_: Mem) -> Self {
        GrowFault::Mem
    }
}

impl From<AllocError> for GrowFault {
    ghost use Rattle.std.specs.Prelude.{◌≡◌};
    ghost use Rattle.page_pseudo.specs.declared.fault.GrowFault.TheVariants.{Mem};

    ghost from_gives = { λ _ fault. fault ≡ Mem };

    fn from(_: AllocError) -> Self {
        GrowFault::Mem
    }
}

impl<T: Drop> From<AllocFailed<T>> for GrowFault {
    ghost use Rattle.std.specs.Prelude.{◌≡◌};
    ghost use Rattle.page_pseudo.specs.declared.fault.GrowFault.TheVariants.{Mem};

    ghost from_gives = { λ _ fault. fault ≡ Mem };

    fn from(_: AllocFailed<T>) -> Self {
        GrowFault::Mem
    }
}
