//! Why a run has no number or no answer.
use lin_proof::RowFault;
use std::alloc::{AllocError, AllocFailed};
use viz_base::Mem;

/// Why the search has no number or no answer.
#[derive(Clone, Copy)]
pub enum Trouble {
    /// Want of memory, and nothing else.
    Mem,
    /// A number is outside `i128`, or one that counts outside `u32`.
    TooLarge,
    /// The sign of a row is left open.
    Open,
    /// What the search noted of its own run is not there: a mistake of the search, which gives up.
    Lost,
}

impl From<AllocError> for Trouble {
    fn from(_: AllocError) -> Self {
        Trouble::Mem
    }
}

impl<T: Drop> From<AllocFailed<T>> for Trouble {
    fn from(_: AllocFailed<T>) -> Self {
        Trouble::Mem
    }
}

impl From<Mem> for Trouble {
    fn from(_: Mem) -> Self {
        Trouble::Mem
    }
}

impl From<RowFault> for Trouble {
    fn from(fault: RowFault) -> Self {
        match fault {
            RowFault::Mem => Trouble::Mem,
            RowFault::Coeff => Trouble::TooLarge,
        }
    }
}
