//! Numbers of 64 bits at one world: nearly all of a page have no more, and a layout over them takes less time.
ghost use Rattle.std.specs.Prelude.{◌≡◌, ◌≤◌, ◌*ℤ◌, pos, Some, IfOk, IfErr};
ghost use Rattle.std.specs.Int.{int_div_euclid};
ghost use Rattle.viz_calc.specs.declared.calc.Halt.TheVariants.{Coeff};

use viz_base::World;
use viz_calc::{Calc, Halt};

/// Numbers as they are at one world, in 1/64 px. One past 64 bits is given up.
#[derive(Clone, Copy)]
pub struct Narrow {
    /// The world, the only one that is open.
    pub world: World,
}

impl Narrow {
    /// The calc of this world.
    pub fn new(world: World) -> Self
        ensures { result.world ≡ world }
    {
        Narrow { world }
    }
}

/// A number, if it has 64 bits.
fn fit(value: Option<i64>) -> Result<i64, Halt>
    ensures ok { IfOk result (λ n. value ≡ Some n) }
    ensures halt { IfErr result (λ h. h ≡ Coeff) }
{
    match value {
        Some(n) => Ok(n),
        None => Err(Halt::Coeff),
    }
}

/// `a * num / den`, rounded down, if the product and the divisor have 64 bits.
fn scaled(a: i64, num: i64, den: u64) -> Result<i64, Halt>
    requires { 1 ≤ den }
    ensures ok { IfOk result (λ n. n ≡ int_div_euclid (num *ℤ a) (pos den)) }
    ensures halt { IfErr result (λ h. h ≡ Coeff) }
{
    match (num.checked_mul(a), i64::try_from(den)) {
        (Some(product), Ok(den)) => Ok(product.div_euclid(den)),
        _ => Err(Halt::Coeff),
    }
}

/// The numbers of one world. Just its readings are open, for good.
impl Calc for Narrow {
    ghost use Rattle.std.specs.Prelude.{false};
    ghost use Rattle.std.proofs.Common.{inl, refl};
    ghost use Rattle.viz_calc.specs.Plain.{plain_reading};
    ghost use Rattle.cert_check.specs.steps.Narrow.{narrow_state};

    type Num = i64;

    ghost state = { λ n. narrow_state n.world };

    ghost counts = { false };

    ghost at = { λ n e. n };

    fn blank(&self) -> i64 {
        0
    }

    fn lit(&mut self, v: i128) -> Result<i64, Halt> {
        fit(i64::try_from(v).ok())
    }

    fn width(&mut self) -> Result<i64, Halt> {
        Ok(64 * i64::from(self.world.w))
    }

    fn height(&mut self) -> Result<i64, Halt> {
        Ok(64 * i64::from(self.world.h))
    }

    fn size(&mut self) -> Result<i64, Halt> {
        Ok(64 * i64::from(self.world.s))
    }

    fn copy(&mut self, a: &i64) -> Result<i64, Halt> {
        Ok(*a)
    }

    fn add(&mut self, a: &i64, b: &i64) -> Result<i64, Halt> {
        fit(a.checked_add(*b))
    }

    fn sub(&mut self, a: &i64, b: &i64) -> Result<i64, Halt> {
        fit(a.checked_sub(*b))
    }

    fn scale_floor(&mut self, a: &i64, num: i64, den: u64) -> Result<i64, Halt> {
        scaled(*a, num, den)
    }

    fn le(&mut self, a: &i64, b: &i64) -> Result<bool, Halt> {
        Ok(*a <= *b)
    }

    ghost keeps = { λ n w t. inl (record { reading = plain_reading w; world = refl; is_open = t }) };
}
