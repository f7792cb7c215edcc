ghost use Rattle.std.specs.Prelude.{◌≡◌, ◌≤◌, ℕ, Bool, List, Option, IfOk, IfSome, IsErrOf, IsTrue, Some, length, option_map};
ghost use Rattle.viz_outside.specs.declared.shelf.ShelfFault.TheVariants.{Mem, Failed};
ghost use Rattle.viz_base.specs.Numbers.{Rose};
ghost use Rattle.viz_outside.specs.Shelf.{bytes_of, counted, loaded_of};

use std::alloc::AllocError;
use thiserror::Error;
use viz_base::Text8;

/// What a load gives of a file.
#[derive(Drop)]
pub enum Loaded {
    /// All its bytes, which are at most as many as were asked for.
    Whole(Text8),
    /// It has more bytes than were asked for.
    Longer,
}

/// Why a load gives nothing.
#[derive(Clone, Copy, Debug, Error)]
pub enum ShelfFault {
    /// Want of memory.
    #[error("out of memory")]
    Mem,
    /// The shelf failed, and has counted it.
    #[error("the file can't be read")]
    Failed,
}

impl From<AllocError> for ShelfFault {
    ghost from_gives = { λ _ fault. fault ≡ Mem };

    fn from(_: AllocError) -> Self {
        ShelfFault::Mem
    }
}

impl From<viz_base::Mem> for ShelfFault {
    ghost from_gives = { λ _ fault. fault ≡ Mem };

    fn from(_: viz_base::Mem) -> Self {
        ShelfFault::Mem
    }
}

// The count of faults after an answer.
pub(crate) fn counted(faults: u64, answer: &Result<Loaded, ShelfFault>) -> u64
    ensures { result ≡ counted faults answer.now }
{
    match answer {
        Err(ShelfFault::Failed) => faults.saturating_add(1),
        _ => faults,
    }
}

/// Named files that can be loaded.
pub trait Shelf {
    ghost use Rattle.std.specs.Prelude.{Result};
    ghost use Rattle.viz_outside.specs.declared.shelf.Loaded.{Loaded};
    ghost use Rattle.viz_outside.specs.declared.shelf.ShelfFault.{ShelfFault};

    /// The files by name, where the shelf tells them.
    ghost files: { Self → Option (List ℕ → Option (List ℕ)) };

    /// How often it has failed. A count that is kept in 64 bits stops at their end.
    ghost faults: { Self → ℕ };

    /// Whether the file of a name is sure to load.
    ghost sure: { Self → List ℕ → Bool };

    /// That a load of the file of a name, within a cap, answered so and led from one state to another. Each shelf says
    /// what that is. To callers that are proved for every shelf, only a load shows it.
    ghost loads: { Self → List ℕ → ℕ → Result Loaded ShelfFault → Self → Type 0 };

    /// The bytes of the file `name`, where they are at most `cap`.
    fn load(&mut self, name: &str, cap: usize) -> Result<Loaded, ShelfFault>
        // It gives no more than it was asked for, whether it tells its files or not.
        ensures capped { IfOk result (λ loaded. length (bytes_of loaded) ≤ cap) }
        // What it gives is what the files say, and a name that isn't there gives nothing.
        ensures told { IfOk result (λ loaded. IfSome (files self.old) (λ held.
            option_map (loaded_of cap) (held name.now) ≡ Some loaded)) }
        ensures loaded { loads self.old name.now cap result self.new }
        ensures same { files self.new ≡ files self.old }
        ensures counts { faults self.old ≤ faults self.new }
        ensures failed { IsErrOf result Failed → Rose (faults self.old) (faults self.new) }
        ensures sure_loads { IsTrue (sure self.old name.now) → ¬ IsErrOf result Failed }
        ensures sure_counts { IsTrue (sure self.old name.now) → faults self.new ≡ faults self.old }
        ensures stays_sure { (other : List ℕ) → IsTrue (sure self.old other)
            → IsTrue (sure self.new other) };
}
