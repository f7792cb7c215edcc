use css_semantics::Refusal;
use std::alloc::{AllocError, AllocFailed};
use thiserror::Error;
use viz_base::{Mem, Prop};

/// Why a declaration gives no setting.
#[derive(Clone, Copy, Debug, Error)]
pub enum ValueFault {
    #[error("out of memory")]
    Mem,
    /// The property is unknown, or its value is illegal (CSS 2.1, 4.2).
    #[error("ignored")]
    Ignored,
    /// The value is one that the profile refuses by name.
    #[error("unsupported {0:?}")]
    Unsupported(Prop),
}

impl From<Mem> for ValueFault {
    ghost use Rattle.std.specs.Prelude.{◌≡◌};
    ghost use Rattle.css_value.specs.declared.fault.ValueFault.TheVariants.{Mem};

    ghost from_gives = { λ _ fault. fault ≡ Mem };

    fn from(_: Mem) -> Self {
        ValueFault::Mem
    }
}

impl From<AllocError> for ValueFault {
    ghost use Rattle.std.specs.Prelude.{◌≡◌};
    ghost use Rattle.css_value.specs.declared.fault.ValueFault.TheVariants.{Mem};

    ghost from_gives = { λ _ fault. fault ≡ Mem };

    fn from(_: AllocError) -> Self {
        ValueFault::Mem
    }
}

impl<T: Drop> From<AllocFailed<T>> for ValueFault {
    ghost use Rattle.std.specs.Prelude.{◌≡◌};
    ghost use Rattle.css_value.specs.declared.fault.ValueFault.TheVariants.{Mem};

    ghost from_gives = { λ _ fault. fault ≡ Mem };

    fn from(_: AllocFailed<T>) -> Self {
        ValueFault::Mem
    }
}

impl From<Refusal> for ValueFault {
    ghost use Rattle.std.specs.Prelude.{◌≡◌};
    ghost use Rattle.css_value.specs.Refusals.{fault_of};

    ghost from_gives = { λ refusal fault. fault ≡ fault_of refusal };

    fn from(refusal: Refusal) -> Self {
        match refusal {
            Refusal::Ignored => ValueFault::Ignored,
            Refusal::Unsupported(prop) => ValueFault::Unsupported(prop),
        }
    }
}
