ghost use Rattle.std.specs.Prelude.{◌≡◌};

use std::alloc::{AllocError, AllocFailed};
use thiserror::Error;

/// Want of memory, of a call that has no other fault.
#[derive(Clone, Copy, Debug, PartialEq, Eq, Error)]
#[error("out of memory")]
pub struct Mem;

impl From<AllocError> for Mem {
    fn from(_: AllocError) -> Self {
        Mem
    }
}

impl<T: Drop> From<AllocFailed<T>> for Mem {
    fn from(_: AllocFailed<T>) -> Self {
        Mem
    }
}
