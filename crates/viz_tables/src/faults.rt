use std::alloc::AllocError;
use thiserror::Error;
use viz_base::Mem;

/// Why bytes are no list of rules.
#[derive(Clone, Copy, Debug, Error)]
pub enum ListFault {
    #[error("out of memory")]
    Mem,
    /// The number of the first line, from 0, that breaks the form.
    #[error("line {0} is no rule")]
    Form(u64),
}

impl From<Mem> for ListFault {
    ghost use Rattle.std.specs.Prelude.{◌≡◌};
    ghost use Rattle.viz_tables.specs.declared.faults.ListFault.TheVariants.{Mem};

    ghost from_gives = { λ _ fault. fault ≡ Mem };

    fn from(_: Mem) -> Self {
        ListFault::Mem
    }
}

impl From<AllocError> for ListFault {
    ghost use Rattle.std.specs.Prelude.{◌≡◌};
    ghost use Rattle.viz_tables.specs.declared.faults.ListFault.TheVariants.{Mem};

    ghost from_gives = { λ _ fault. fault ≡ Mem };

    fn from(_: AllocError) -> Self {
        ListFault::Mem
    }
}
