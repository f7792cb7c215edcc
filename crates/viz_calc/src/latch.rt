//! A calc that may halt, lent as arithmetic that goes on.
ghost use Rattle.std.specs.Prelude.{◌≡◌, ◌≤◌, ℕ, ◌*◌, ℤ, ⊤, pos, ◌+ℤ◌, ◌-ℤ◌, ◌*ℤ◌, IsTrue, IfOk, IfErr, [], ◌∷◌, Some, None};
ghost use Rattle.viz_calc.specs.State.{State, Grows, Cause, is_told};
ghost use Rattle.viz_calc.specs.Run.{run_of};

use crate::calc::{Calc, Halt};
use crate::steady::Steady;

/// A calc that is lent, with its first halt. From then on the calc is left alone.
#[derive(Drop)]
pub struct Latch<'a, C: Calc> {
    calc: &'a mut C,
    halt: Option<Halt>,
    ghost told: { IsTrue (is_told C.counts (C.state calc.now) halt) },
}

impl<'a, C: Calc> Latch<'a, C> {
    /// The calc, not halted.
    pub fn new(calc: &'a mut C) -> Self
        ensures lender { result.calc.ghost_name ≡ calc.entry.ghost_name }
        ensures now { result.calc.now ≡ calc.old }
        ensures halt { result.halt ≡ None }
    {
        Latch { calc, halt: None }
    }

    /// The number, or from the first halt on a blank.
    fn keep(&mut self, answer: Result<C::Num, Halt>) -> C::Num
        requires { IfErr answer (λ h. IsTrue
            (is_told C.counts (C.state self.old.calc.now) (Some h))) }
        ensures lender { self.new.calc.ghost_name ≡ self.old.calc.ghost_name }
        ensures now { self.new.calc.now ≡ self.old.calc.now }
        ensures ok { IfOk answer (λ n. result ≡ n) }
        ensures kept { IfOk answer (λ n. self.new.halt ≡ self.old.halt) }
        ensures halt { IfErr answer (λ h. self.new.halt ≡ Some h) }
    {
        match answer {
            Ok(n) => n,
            Err(halt) => {
                self.halt = Some(halt);
                self.calc.blank()
            }
        }
    }

    /// The value, if there was no halt, else the first halt.
    pub fn finish<T: Drop>(self, value: T) -> Result<T, Halt>
        ensures now { self.exit.0.now ≡ self.entry.calc.now }
        ensures ok { IfOk result (λ r. r ≡ value) }
        ensures running { IfOk result (λ r. self.entry.halt ≡ None) }
        ensures halt { IfErr result (λ h. self.entry.halt ≡ Some h) }
        ensures told { IfErr result (λ h. IsTrue
            (is_told C.counts (C.state self.exit.0.now) (Some h))) }
    {
        match self.halt {
            None => Ok(value),
            Some(halt) => Err(halt),
        }
    }
}

impl<'a, C: Calc> Steady for Latch<'a, C> {
    type Num = C::Num;

    ghost run = { λ s. run_of (C.state s.calc.now) s.halt s.calc.ghost_name };

    ghost at = { C.at };

    fn lit(&mut self, v: i128) -> C::Num {
        let answer = match self.halt {
            None => self.calc.lit(v),
            Some(halt) => Err(halt),
        };
        self.keep(answer)
    }

    fn width(&mut self) -> C::Num {
        let answer = match self.halt {
            None => self.calc.width(),
            Some(halt) => Err(halt),
        };
        self.keep(answer)
    }

    fn height(&mut self) -> C::Num {
        let answer = match self.halt {
            None => self.calc.height(),
            Some(halt) => Err(halt),
        };
        self.keep(answer)
    }

    fn size(&mut self) -> C::Num {
        let answer = match self.halt {
            None => self.calc.size(),
            Some(halt) => Err(halt),
        };
        self.keep(answer)
    }

    fn copy(&mut self, a: &C::Num) -> C::Num {
        let answer = match self.halt {
            None => self.calc.copy(a),
            Some(halt) => Err(halt),
        };
        self.keep(answer)
    }

    fn add(&mut self, a: &C::Num, b: &C::Num) -> C::Num {
        let answer = match self.halt {
            None => self.calc.add(a, b),
            Some(halt) => Err(halt),
        };
        self.keep(answer)
    }

    fn sub(&mut self, a: &C::Num, b: &C::Num) -> C::Num {
        let answer = match self.halt {
            None => self.calc.sub(a, b),
            Some(halt) => Err(halt),
        };
        self.keep(answer)
    }

    fn scale_floor(&mut self, a: &C::Num, num: i64, den: u64) -> C::Num {
        let answer = match self.halt {
            None => self.calc.scale_floor(a, num, den),
            Some(halt) => Err(halt),
        };
        self.keep(answer)
    }

    fn le(&mut self, a: &C::Num, b: &C::Num) -> bool {
        if self.halt.is_some() {
            return false;
        }
        match self.calc.at_most(a, b) {
            Ok(answer) => answer,
            Err(halt) => {
                self.halt = Some(halt);
                false
            }
        }
    }

    fn is_halted(&self) -> bool {
        self.halt.is_some()
    }

    fn stop(&mut self) {
        if self.halt.is_none() {
            self.halt = Some(Halt::Mem);
        }
    }
}
