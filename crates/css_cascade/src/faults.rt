//! Why a page has no cascade.
use std::alloc::{AllocError, AllocFailed};
use thiserror::Error;
use viz_base::{Mem, Prop, Source};

/// Why a page has no cascade.
#[derive(Clone, Copy, Debug, Error)]
pub enum CascadeFault {
    #[error("out of memory")]
    Mem,
    /// A selector that is refused by name: the number of the author's sheet, from 0, and the place in it, in bytes.
    #[error("unsupported selector in sheet {0} at {1}")]
    Selector(u32, u32),
    /// A value that is refused and wins: the node, the property, and where the value stands.
    #[error("unsupported value at node {0}: {1:?}")]
    Value(u32, Prop, Source),
}

impl From<Mem> for CascadeFault {
    ghost use Rattle.std.specs.Prelude.{◌≡◌};
    ghost use Rattle.css_cascade.specs.declared.faults.CascadeFault.TheVariants.{Mem};

    ghost from_gives = { λ _ fault. fault ≡ Mem };

    fn from(_: Mem) -> Self {
        CascadeFault::Mem
    }
}

impl From<AllocError> for CascadeFault {
    ghost use Rattle.std.specs.Prelude.{◌≡◌};
    ghost use Rattle.css_cascade.specs.declared.faults.CascadeFault.TheVariants.{Mem};

    ghost from_gives = { λ _ fault. fault ≡ Mem };

    fn from(_: AllocError) -> Self {
        CascadeFault::Mem
    }
}

impl<T: Drop> From<AllocFailed<T>> for CascadeFault {
    ghost use Rattle.std.specs.Prelude.{◌≡◌};
    ghost use Rattle.css_cascade.specs.declared.faults.CascadeFault.TheVariants.{Mem};

    ghost from_gives = { λ _ fault. fault ≡ Mem };

    fn from(_: AllocFailed<T>) -> Self {
        CascadeFault::Mem
    }
}
