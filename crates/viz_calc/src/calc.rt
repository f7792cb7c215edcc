//! Arithmetic over the readings that are open, and why it may give up.
ghost use Rattle.std.specs.Prelude.{◌≡◌, ◌≤◌, ℕ, ◌*◌, ℤ, Bool, ⊤, pos, ◌+ℤ◌, ◌-ℤ◌, ◌*ℤ◌, IfOk, IfErr, [], ◌∷◌};
ghost use Rattle.std.specs.Int.{int_div_euclid};
ghost use Rattle.std.specs.Int.RustNames.{int_le};
ghost use Rattle.viz_calc.specs.World.{Reading};
ghost use Rattle.viz_calc.specs.State.{State, Stands, Grows, KeepsWorlds, AreOpen, Fits, Cause, IsCounted, IsDecided, WhereOpen};

use std::alloc::{AllocError, AllocFailed};
use thiserror::Error;
use viz_base::Mem;

/// Why a calc gave up.
#[derive(Clone, Copy, Debug, PartialEq, Eq, Error)]
pub enum Halt {
    /// Want of memory.
    #[error("out of memory")]
    Mem,
    /// A coefficient passed its limit.
    #[error("a coefficient is too large")]
    Coeff,
    /// A comparison is left open, with one answer at some worlds and another at others.
    #[error("a comparison is open")]
    Open,
}

impl From<AllocError> for Halt {
    ghost use Rattle.std.specs.Prelude.{◌≡◌};
    ghost use Rattle.viz_calc.specs.declared.calc.Halt.TheVariants.{Mem};

    ghost from_gives = { λ e h. h ≡ Mem };

    fn from(_: AllocError) -> Self {
        Halt::Mem
    }
}

impl<T: Drop> From<AllocFailed<T>> for Halt {
    ghost use Rattle.std.specs.Prelude.{◌≡◌};
    ghost use Rattle.viz_calc.specs.declared.calc.Halt.TheVariants.{Mem};

    ghost from_gives = { λ e h. h ≡ Mem };

    fn from(_: AllocFailed<T>) -> Self {
        Halt::Mem
    }
}

impl From<Mem> for Halt {
    ghost use Rattle.std.specs.Prelude.{◌≡◌};
    ghost use Rattle.viz_calc.specs.declared.calc.Halt.TheVariants.{Mem};

    ghost from_gives = { λ e h. h ≡ Mem };

    fn from(_: Mem) -> Self {
        Halt::Mem
    }
}

/// Arithmetic on the numbers of a layout, in 1/64 px, exact at each reading that is open.
///
/// Readings are closed by comparisons and new floor terms, and never opened again. Each call but
/// `le` and `at_most` leaves each open world open. The worlds that it keeps stay open, also over
/// these, until it counts a fault.
pub trait Calc {
    type Num: Drop;

    /// A number that nothing is known of, for the time after a halt.
    fn blank(&self) -> Self::Num;

    /// What is known of it.
    ghost state: { Self → State };

    /// What a number means.
    ghost at: { Self.Num → Reading → ℤ };

    /// Whether it counts each coefficient past its limit.
    ghost counts: { Bool };

    /// The number `v`, in 1/64 px. `Coeff` past 2^100, or where a coefficient passes its limit.
    fn lit(&mut self, v: i128) -> Result<Self::Num, Halt>
        ensures grows { Grows (state self.old) (state self.new) }
        ensures worlds { KeepsWorlds (state self.old) (state self.new) }
        ensures value { IfOk result (λ r. Stands (state self.new) (at r) (λ e. v)) }
        ensures cause { IfErr result (Cause (state self.old) (state self.new) (Fits (state self.new)
            (λ e. v ∷ []))) }
        ensures counted { IfErr result (IsCounted counts (state self.old) (state self.new)) }
        ensures decided { IsDecided result };

    /// The viewport's width, in 1/64 px. Errors as those of `lit`.
    fn width(&mut self) -> Result<Self::Num, Halt>
        ensures grows { Grows (state self.old) (state self.new) }
        ensures worlds { KeepsWorlds (state self.old) (state self.new) }
        ensures value { IfOk result (λ r. Stands (state self.new) (at r)
            (λ e. pos (64 * e.world.w))) }
        ensures cause { IfErr result (Cause (state self.old) (state self.new) (Fits (state self.new)
            (λ e. pos (64 * e.world.w) ∷ []))) }
        ensures counted { IfErr result (IsCounted counts (state self.old) (state self.new)) }
        ensures decided { IsDecided result };

    /// The viewport's height, in 1/64 px. Errors as those of `lit`.
    fn height(&mut self) -> Result<Self::Num, Halt>
        ensures grows { Grows (state self.old) (state self.new) }
        ensures worlds { KeepsWorlds (state self.old) (state self.new) }
        ensures value { IfOk result (λ r. Stands (state self.new) (at r)
            (λ e. pos (64 * e.world.h))) }
        ensures cause { IfErr result (Cause (state self.old) (state self.new) (Fits (state self.new)
            (λ e. pos (64 * e.world.h) ∷ []))) }
        ensures counted { IfErr result (IsCounted counts (state self.old) (state self.new)) }
        ensures decided { IsDecided result };

    /// The default font size, in 1/64 px. Errors as those of `lit`.
    fn size(&mut self) -> Result<Self::Num, Halt>
        ensures grows { Grows (state self.old) (state self.new) }
        ensures worlds { KeepsWorlds (state self.old) (state self.new) }
        ensures value { IfOk result (λ r. Stands (state self.new) (at r)
            (λ e. pos (64 * e.world.s))) }
        ensures cause { IfErr result (Cause (state self.old) (state self.new) (Fits (state self.new)
            (λ e. pos (64 * e.world.s) ∷ []))) }
        ensures counted { IfErr result (IsCounted counts (state self.old) (state self.new)) }
        ensures decided { IsDecided result };

    /// The same number again. Errors as those of `lit`.
    fn copy(&mut self, a: &Self::Num) -> Result<Self::Num, Halt>
        ensures grows { Grows (state self.old) (state self.new) }
        ensures worlds { KeepsWorlds (state self.old) (state self.new) }
        ensures value { IfOk result (λ r. Stands (state self.new) (at r) (at a.now)) }
        ensures cause { IfErr result (Cause (state self.old) (state self.new) (Fits (state self.new)
            (λ e. at a.now e ∷ []))) }
        ensures counted { IfErr result (IsCounted counts (state self.old) (state self.new)) }
        ensures decided { IsDecided result };

    /// The sum. Errors as those of `lit`.
    fn add(&mut self, a: &Self::Num, b: &Self::Num) -> Result<Self::Num, Halt>
        ensures grows { Grows (state self.old) (state self.new) }
        ensures worlds { KeepsWorlds (state self.old) (state self.new) }
        ensures value { IfOk result (λ r. Stands (state self.new) (at r)
            (λ e. at a.now e +ℤ at b.now e)) }
        ensures cause { IfErr result (Cause (state self.old) (state self.new) (Fits (state self.new)
            (λ e. (at a.now e +ℤ at b.now e) ∷ []))) }
        ensures counted { IfErr result (IsCounted counts (state self.old) (state self.new)) }
        ensures decided { IsDecided result };

    /// `a - b`. Errors as those of `lit`.
    fn sub(&mut self, a: &Self::Num, b: &Self::Num) -> Result<Self::Num, Halt>
        ensures grows { Grows (state self.old) (state self.new) }
        ensures worlds { KeepsWorlds (state self.old) (state self.new) }
        ensures value { IfOk result (λ r. Stands (state self.new) (at r)
            (λ e. at a.now e -ℤ at b.now e)) }
        ensures cause { IfErr result (Cause (state self.old) (state self.new) (Fits (state self.new)
            (λ e. (at a.now e -ℤ at b.now e) ∷ []))) }
        ensures counted { IfErr result (IsCounted counts (state self.old) (state self.new)) }
        ensures decided { IsDecided result };

    /// `a * num / den`, rounded towards minus infinity. Errors as those of `lit`.
    fn scale_floor(&mut self, a: &Self::Num, num: i64, den: u64) -> Result<Self::Num, Halt>
        requires { 1 ≤ den }
        ensures grows { Grows (state self.old) (state self.new) }
        ensures worlds { KeepsWorlds (state self.old) (state self.new) }
        ensures value { IfOk result (λ r. Stands (state self.new) (at r)
            (λ e. int_div_euclid (num *ℤ at a.now e) (pos den))) }
        ensures cause { IfErr result (Cause (state self.old) (state self.new) (Fits (state self.new)
            (λ e. int_div_euclid (num *ℤ at a.now e) (pos den) ∷ []))) }
        ensures counted { IfErr result (IsCounted counts (state self.old) (state self.new)) }
        ensures decided { IsDecided result };

    /// Whether `a` is at most `b`; it may close worlds where the answer is another. `Open` where the
    /// answer is to be left open, else errors as those of `lit`.
    fn le(&mut self, a: &Self::Num, b: &Self::Num) -> Result<bool, Halt>
        ensures grows { Grows (state self.old) (state self.new) }
        ensures value { IfOk result (λ r. WhereOpen (state self.new).is_open
            (λ e. r ≡ int_le (at a.now e) (at b.now e))) }
        ensures cause { IfErr result (Cause (state self.old) (state self.new) ⊤) };

    /// Whether `a` is at most `b`, as `le` answers it, but what earlier answers tell is not asked again.
    fn at_most(&mut self, a: &Self::Num, b: &Self::Num) -> Result<bool, Halt>
        ensures grows { Grows (state self.old) (state self.new) }
        ensures value { IfOk result (λ r. WhereOpen (state self.new).is_open
            (λ e. r ≡ int_le (at a.now e) (at b.now e))) }
        ensures cause { IfErr result (Cause (state self.old) (state self.new) ⊤) }
    {
        self.le(a, b)
    }

    /// At any time each world that it keeps is open, unless it counted a fault since it keeps them.
    ghost keeps: { (c : Self) → AreOpen (state c).kept (state c) };
}
