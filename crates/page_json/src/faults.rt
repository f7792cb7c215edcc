use std::alloc::{AllocError, AllocFailed};
use thiserror::Error;
use viz_base::{Part, Which};

/// Why bytes are refused as a job file.
#[derive(Clone, Copy, Debug, Error)]
pub enum JobFault {
    #[error("out of memory")]
    Mem,
    /// The bytes are no JSON text, or one that nests deeper than 127 or has a number beyond a double's range.
    #[error("not JSON")]
    NotJson,
    /// The first part that is missing, of another form or against a rule, and the number of its font, sheet or node.
    #[error("shape of {0:?}, {1}")]
    Shape(Part, u32),
    /// The first count that is beyond its limit.
    #[error("{0:?} beyond the limit: {1}")]
    Limit(Which, u64),
    /// Widths, sizes or heights are beyond their limits, a first bound is above its second, or there are too many
    /// worlds.
    #[error("range")]
    Range,
}

impl From<AllocError> for JobFault {
    ghost use Rattle.std.specs.Prelude.{◌≡◌};
    ghost use Rattle.page_json.specs.declared.faults.JobFault.TheVariants.{Mem};

    ghost from_gives = { λ _ fault. fault ≡ Mem };

    fn from(_: AllocError) -> Self {
        JobFault::Mem
    }
}

impl<T: Drop> From<AllocFailed<T>> for JobFault {
    ghost use Rattle.std.specs.Prelude.{◌≡◌};
    ghost use Rattle.page_json.specs.declared.faults.JobFault.TheVariants.{Mem};

    ghost from_gives = { λ _ fault. fault ≡ Mem };

    fn from(_: AllocFailed<T>) -> Self {
        JobFault::Mem
    }
}
