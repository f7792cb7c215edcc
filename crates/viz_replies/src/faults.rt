use std::alloc::AllocError;
use thiserror::Error;

/// Why no job is generated.
#[derive(Clone, Copy, Debug, PartialEq, Eq, Error)]
pub enum GenFault {
    /// Want of memory.
    #[error("out of memory")]
    Mem,
    /// More sections are asked for than a job has.
    #[error("more than 1,000 sections")]
    TooLarge,
}

impl From<AllocError> for GenFault {
    ghost use Rattle.std.specs.Prelude.{◌≡◌};
    ghost use Rattle.viz_replies.specs.declared.faults.GenFault.TheVariants.{Mem};

    ghost from_gives = { λ _ fault. fault ≡ Mem };

    fn from(_: AllocError) -> Self {
        GenFault::Mem
    }
}
