//! Arithmetic that goes on after a halt, so that the layout has no error to hand up.
ghost use Rattle.std.specs.Prelude.{◌≡◌, false, ◌≤◌, ℕ, ◌*◌, ℤ, ⊤, pos, ◌+ℤ◌, ◌-ℤ◌, ◌*ℤ◌, [], ◌∷◌, Some, None, is_some};
ghost use Rattle.viz_calc.specs.State.{WhereOpen};
ghost use Rattle.std.specs.Int.{int_div_euclid};
ghost use Rattle.std.specs.Int.RustNames.{int_le};
ghost use Rattle.viz_calc.specs.World.{Reading};
ghost use Rattle.viz_calc.specs.Run.{Run, Stands, Goes, Fits, Blames, BlamesButMem};

/// Arithmetic that goes on after a halt, and then stands for nothing: no reading is open any more.
///
/// The layout is written over it, with no error to hand up; what halted is read off at the end.
pub trait Steady {
    type Num: Drop;

    /// What is known of it.
    ghost run: { Self → Run };

    /// What a number means.
    ghost at: { Self.Num → Reading → ℤ };

    /// The number `v`, in 1/64 px.
    fn lit(&mut self, v: i128) -> Self::Num
        ensures goes { Goes (run self.old) (run self.new) }
        ensures value { Stands (run self.new) (at result) (λ e. v) }
        ensures cause { Blames (run self.old) (run self.new) (Fits (run self.old) (λ e. v ∷ [])) };

    /// The viewport's width, in 1/64 px.
    fn width(&mut self) -> Self::Num
        ensures goes { Goes (run self.old) (run self.new) }
        ensures value { Stands (run self.new) (at result) (λ e. pos (64 * e.world.w)) }
        ensures cause { Blames (run self.old) (run self.new) (Fits (run self.old)
            (λ e. pos (64 * e.world.w) ∷ [])) };

    /// The viewport's height, in 1/64 px.
    fn height(&mut self) -> Self::Num
        ensures goes { Goes (run self.old) (run self.new) }
        ensures value { Stands (run self.new) (at result) (λ e. pos (64 * e.world.h)) }
        ensures cause { Blames (run self.old) (run self.new) (Fits (run self.old)
            (λ e. pos (64 * e.world.h) ∷ [])) };

    /// The default font size, in 1/64 px.
    fn size(&mut self) -> Self::Num
        ensures goes { Goes (run self.old) (run self.new) }
        ensures value { Stands (run self.new) (at result) (λ e. pos (64 * e.world.s)) }
        ensures cause { Blames (run self.old) (run self.new) (Fits (run self.old)
            (λ e. pos (64 * e.world.s) ∷ [])) };

    /// The same number again.
    fn copy(&mut self, a: &Self::Num) -> Self::Num
        ensures goes { Goes (run self.old) (run self.new) }
        ensures value { Stands (run self.new) (at result) (at a.now) }
        ensures cause { Blames (run self.old) (run self.new) (Fits (run self.old)
            (λ e. at a.now e ∷ [])) };

    /// The sum.
    fn add(&mut self, a: &Self::Num, b: &Self::Num) -> Self::Num
        ensures goes { Goes (run self.old) (run self.new) }
        ensures value { Stands (run self.new) (at result) (λ e. at a.now e +ℤ at b.now e) }
        ensures cause { Blames (run self.old) (run self.new) (Fits (run self.old)
            (λ e. (at a.now e +ℤ at b.now e) ∷ [])) };

    /// `a - b`.
    fn sub(&mut self, a: &Self::Num, b: &Self::Num) -> Self::Num
        ensures goes { Goes (run self.old) (run self.new) }
        ensures value { Stands (run self.new) (at result) (λ e. at a.now e -ℤ at b.now e) }
        ensures cause { Blames (run self.old) (run self.new) (Fits (run self.old)
            (λ e. (at a.now e -ℤ at b.now e) ∷ [])) };

    /// `a * num / den`, rounded towards minus infinity.
    fn scale_floor(&mut self, a: &Self::Num, num: i64, den: u64) -> Self::Num
        requires { 1 ≤ den }
        ensures goes { Goes (run self.old) (run self.new) }
        ensures value { Stands (run self.new) (at result)
            (λ e. int_div_euclid (num *ℤ at a.now e) (pos den)) }
        ensures cause { Blames (run self.old) (run self.new) (Fits (run self.old)
            (λ e. int_div_euclid (num *ℤ at a.now e) (pos den) ∷ [])) };

    /// Whether `a` is at most `b`; it may close worlds where the answer is another.
    fn le(&mut self, a: &Self::Num, b: &Self::Num) -> bool
        ensures goes { Goes (run self.old) (run self.new) }
        ensures value { WhereOpen (run self.new).is_open
            (λ e. result ≡ int_le (at a.now e) (at b.now e)) }
        ensures cause { Blames (run self.old) (run self.new) ⊤ };

    /// Whether it is halted. From then on a call may leave its arguments as they are.
    fn is_halted(&self) -> bool
        ensures { result ≡ is_some (run self.now).halt };

    /// Halts for want of memory, unless it is halted.
    fn stop(&mut self)
        ensures goes { Goes (run self.old) (run self.new) }
        ensures closed { (e : Reading) → (run self.new).is_open e ≡ false }
        ensures cause { BlamesButMem (run self.old) (run self.new) ⊤ };
}
