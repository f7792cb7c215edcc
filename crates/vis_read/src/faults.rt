ghost use Rattle.std.specs.Prelude.{◌≡◌};

use std::alloc::{AllocError, AllocFailed};
use thiserror::Error;
use viz_base::Mem;

/// Why a text is refused as a formula. Places are in bytes of the text.
#[derive(Clone, Copy, Debug, Error)]
pub enum FormulaFault {
    #[error("out of memory")]
    Mem,
    /// The place of the first token that no formula can have there, of a string that is no group of selectors, or of
    /// the first byte that begins no token; or the text's length.
    #[error("bad formula at {0}")]
    Bad(u32),
    /// The place of a name that no quantifier around it binds.
    #[error("unbound name at {0}")]
    Unbound(u32),
    /// The place of a quantifier inside two others, or of a quantifier, parenthesis or `not` inside 64 such.
    #[error("nested too deep at {0}")]
    TooDeep(u32),
}

impl From<Mem> for FormulaFault {
    ghost use Rattle.std.specs.Prelude.{◌≡◌};
    ghost use Rattle.vis_read.specs.declared.faults.FormulaFault.TheVariants.{Mem};

    ghost from_gives = { λ _ fault. fault ≡ Mem };

    fn from(_: Mem) -> Self {
        FormulaFault::Mem
    }
}

impl From<AllocError> for FormulaFault {
    ghost use Rattle.std.specs.Prelude.{◌≡◌};
    ghost use Rattle.vis_read.specs.declared.faults.FormulaFault.TheVariants.{Mem};

    ghost from_gives = { λ _ fault. fault ≡ Mem };

    fn from(_: AllocError) -> Self {
        FormulaFault::Mem
    }
}

impl<T: Drop> From<AllocFailed<T>> for FormulaFault {
    ghost use Rattle.std.specs.Prelude.{◌≡◌};
    ghost use Rattle.vis_read.specs.declared.faults.FormulaFault.TheVariants.{Mem};

    ghost from_gives = { λ _ fault. fault ≡ Mem };

    fn from(_: AllocFailed<T>) -> Self {
        FormulaFault::Mem
    }
}

/// Why a token can't be taken, wherever it stands.
#[derive(Clone, Copy)]
pub enum Stop {
    Mem,
    Bad,
    Unbound,
    TooDeep,
}

impl From<Mem> for Stop {
    ghost use Rattle.std.specs.Prelude.{◌≡◌};
    ghost use Rattle.vis_read.specs.declared.faults.Stop.TheVariants.{Mem};

    ghost from_gives = { λ _ stop. stop ≡ Mem };

    fn from(_: Mem) -> Self {
        Stop::Mem
    }
}

/// An error, for which something is given up.
pub fn given_up<T: Drop, E>(thing: T, error: E) -> E
    ensures { result ≡ error }
{
    drop(thing);
    error
}

impl From<AllocError> for Stop {
    ghost use Rattle.std.specs.Prelude.{◌≡◌};
    ghost use Rattle.vis_read.specs.declared.faults.Stop.TheVariants.{Mem};

    ghost from_gives = { λ _ stop. stop ≡ Mem };

    fn from(_: AllocError) -> Self {
        Stop::Mem
    }
}
