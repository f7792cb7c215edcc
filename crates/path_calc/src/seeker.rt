//! The calc over all worlds of a path that answers comparisons itself, and halts at the first without an answer.
ghost use Rattle.path_calc.specs.steps.Seekers.{seeker_state, number_at};

use crate::finder::{Finder, Opening};
use crate::footing::Footing;
use crate::numbers::{HEIGHT, NOTHING, Number, Numbers, SIZE, Scaling, WIDTH};
use crate::pool::Pool;
use crate::trail::Found;
use crate::trouble::Trouble;
use lin_proof::{Answer, Row};
use viz_base::{List, Mem};
use viz_calc::{Calc, Halt};

/// Arithmetic at all worlds of a path at once, over the same rows as those of `Sym`. It answers comparisons itself, and
/// notes the answers with their reasons; it halts at the first one that has no answer. The first answers may be known:
/// a run below a split begins with the comparisons of the run that led to it.
#[derive(Drop)]
pub struct Seeker<'a> {
    finder: Finder<'a>,
    numbers: Numbers,
    /// Whether a mistake of the search ended the run.
    is_lost: bool,
    /// How often a number was too large, or a mistake of the search was met.
    coeffs: u64,
    /// How often a comparison was left open.
    opens: u64,
}

impl<'a> Seeker<'a> {
    ghost use Rattle.std.specs.Prelude.{◌≡◌, ◌≤◌, ⊤, IfErr};
    ghost use Rattle.viz_base.specs.Numbers.{Rose};
    ghost use Rattle.viz_calc.specs.State.{Grows, Cause, IsDecided};

    /// The calc of a path, with known worlds of it, and with the answers of the run that led to it.
    pub fn new(
        footing: Footing<'a>,
        pool: &'a mut Pool,
        found: &'a mut Vec<Found>,
    ) -> Result<Self, Mem> {
        let numbers = Numbers::new(footing)?;
        Ok(Seeker {
            finder: Finder::new(footing, pool, found)?,
            numbers,
            is_lost: false,
            coeffs: 0,
            opens: 0,
        })
    }

    /// The number of a row, or the halt for which there is none.
    fn counted(&mut self, given: Result<Row, Trouble>) -> Result<Number, Halt>
        ensures grows { Grows (seeker_state self.old.coeffs self.old.opens)
            (seeker_state self.new.coeffs self.new.opens) }
        ensures cause { IfErr result (Cause (seeker_state self.old.coeffs self.old.opens)
            (seeker_state self.new.coeffs self.new.opens) ⊤) }
        ensures decided { IsDecided result }
    {
        match self.numbers.keep(given) {
            Ok(number) => Ok(number),
            Err(Trouble::Mem) => Err(Halt::Mem),
            Err(trouble) => Err(self.too_large(trouble)),
        }
    }

    /// What a scaling that was not asked before gives, or the halt for which there is nothing.
    fn scaled_anew(&mut self, scaling: Scaling) -> Result<Number, Halt>
        requires { 1 ≤ scaling.den }
        ensures grows { Grows (seeker_state self.old.coeffs self.old.opens)
            (seeker_state self.new.coeffs self.new.opens) }
        ensures cause { IfErr result (Cause (seeker_state self.old.coeffs self.old.opens)
            (seeker_state self.new.coeffs self.new.opens) ⊤) }
        ensures decided { IsDecided result }
    {
        let Scaling { number, num, den } = scaling;
        let quotient = match self.numbers.row(number) {
            Ok(row) => self.finder.scaled(row, i128::from(num), i128::from(den)),
            Err(trouble) => Err(trouble),
        };
        match self.numbers.keep_scaled(scaling, quotient) {
            Ok(number) => Ok(number),
            Err(Trouble::Mem) => Err(Halt::Mem),
            Err(trouble) => Err(self.too_large(trouble)),
        }
    }

    /// The answer, or the halt for which there is none.
    fn answered(&mut self, given: Result<bool, Trouble>) -> Result<bool, Halt>
        ensures grows { Grows (seeker_state self.old.coeffs self.old.opens)
            (seeker_state self.new.coeffs self.new.opens) }
        ensures cause { IfErr result (Cause (seeker_state self.old.coeffs self.old.opens)
            (seeker_state self.new.coeffs self.new.opens) ⊤) }
    {
        match given {
            Ok(yes) => Ok(yes),
            Err(Trouble::Mem) => Err(Halt::Mem),
            Err(Trouble::Open) => {
                self.opens = self.opens.saturating_add(1);
                Err(Halt::Open)
            }
            Err(trouble) => Err(self.too_large(trouble)),
        }
    }

    /// Counts a halt at a number that is too large, or at a mistake of the search.
    fn too_large(&mut self, trouble: Trouble) -> Halt
        ensures grows { Grows (seeker_state self.old.coeffs self.old.opens)
            (seeker_state self.new.coeffs self.new.opens) }
        ensures rose { Rose self.old.coeffs self.new.coeffs }
        ensures coeff { result ≡ Halt.Coeff }
    {
        self.is_lost = matches!(trouble, Trouble::Lost);
        self.coeffs = self.coeffs.saturating_add(1);
        Halt::Coeff
    }

    /// The answers in the order in which they were asked for.
    pub fn answers(&self) -> Result<List<Answer>, Mem> {
        self.finder.answers()
    }

    /// The row that was left open, if one was.
    pub fn opened(&mut self) -> Option<Opening> {
        self.finder.opened()
    }

    /// Whether a mistake of the search ended the run.
    pub fn is_lost(&self) -> bool {
        self.is_lost
    }
}

/// Numbers are rows in 1/64 px over whole pixels. No reading is open, so nothing is said of them.
impl<'a> Calc for Seeker<'a> {
    ghost use Rattle.std.specs.Prelude.{true};
    ghost use Rattle.std.proofs.lemmas.Bool.{false≢true};

    type Num = Number;

    ghost state = { λ s. seeker_state s.coeffs s.opens };

    ghost at = { number_at };

    ghost counts = { true };

    fn blank(&self) -> Number {
        NOTHING
    }

    fn lit(&mut self, v: i128) -> Result<Number, Halt> {
        if v == 0 {
            return Ok(NOTHING);
        }
        let row = Row::constant(self.finder.alloc(), v);
        self.counted(Ok(row))
    }

    fn width(&mut self) -> Result<Number, Halt> {
        Ok(WIDTH)
    }

    fn size(&mut self) -> Result<Number, Halt> {
        Ok(SIZE)
    }

    fn height(&mut self) -> Result<Number, Halt> {
        Ok(HEIGHT)
    }

    fn copy(&mut self, a: &Number) -> Result<Number, Halt> {
        Ok(*a)
    }

    fn add(&mut self, a: &Number, b: &Number) -> Result<Number, Halt> {
        let sum = self.numbers.plus_times(*a, 1, *b);
        self.counted(sum)
    }

    fn sub(&mut self, a: &Number, b: &Number) -> Result<Number, Halt> {
        let difference = self.numbers.plus_times(*a, -1, *b);
        self.counted(difference)
    }

    fn scale_floor(&mut self, a: &Number, num: i64, den: u64) -> Result<Number, Halt> {
        let scaling = Scaling {
            number: *a,
            num,
            den,
        };
        match self.numbers.scaled(scaling) {
            Some(number) => Ok(number),
            None => self.scaled_anew(scaling),
        }
    }

    fn le(&mut self, a: &Number, b: &Number) -> Result<bool, Halt> {
        let yes = match self.numbers.plus_times(*b, -1, *a) {
            Ok(difference) => self.finder.is_reached(difference),
            Err(trouble) => Err(trouble),
        };
        self.answered(yes)
    }

    fn at_most(&mut self, a: &Number, b: &Number) -> Result<bool, Halt> {
        let yes = match self.numbers.plus_times(*b, -1, *a) {
            Ok(difference) => self.finder.is_told_reached(difference),
            Err(trouble) => Err(trouble),
        };
        self.answered(yes)
    }

    ghost keeps = { λ s w t. absurd (false≢true t) };
}
