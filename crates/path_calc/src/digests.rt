//! The numbers of one world, with a digest of the answers by which different layouts are told apart.
ghost use Rattle.viz_calc.specs.Plain.{plain_state};

use viz_base::World;
use viz_calc::{Calc, Halt, Plain};

/// By how much a digest is multiplied at each answer.
const FACTOR: u64 = 6_364_136_223_846_793_005;

/// The numbers of one world, with a digest of the answers that were given there, in their order.
#[derive(Clone, Copy)]
pub struct Digesting {
    plain: Plain,
    /// The digest. Layouts that answer differently have different ones, but for rare chances.
    pub digest: u64,
}

impl Digesting {
    /// The calc of a world, before any answer.
    pub fn new(world: World) -> Self {
        Digesting {
            plain: Plain::new(world),
            digest: 0,
        }
    }
}

/// The numbers of one world.
impl Calc for Digesting {
    ghost use Rattle.std.specs.Prelude.{false};

    type Num = i128;

    ghost state = { λ d. plain_state d.plain.world };

    ghost at = { λ n e. n };

    ghost counts = { false };

    fn blank(&self) -> i128 {
        0
    }

    fn lit(&mut self, v: i128) -> Result<i128, Halt> {
        self.plain.lit(v)
    }

    fn width(&mut self) -> Result<i128, Halt> {
        self.plain.width()
    }

    fn size(&mut self) -> Result<i128, Halt> {
        self.plain.size()
    }

    fn height(&mut self) -> Result<i128, Halt> {
        self.plain.height()
    }

    fn copy(&mut self, a: &i128) -> Result<i128, Halt> {
        self.plain.copy(a)
    }

    fn add(&mut self, a: &i128, b: &i128) -> Result<i128, Halt> {
        self.plain.add(a, b)
    }

    fn sub(&mut self, a: &i128, b: &i128) -> Result<i128, Halt> {
        self.plain.sub(a, b)
    }

    fn scale_floor(&mut self, a: &i128, num: i64, den: u64) -> Result<i128, Halt> {
        self.plain.scale_floor(a, num, den)
    }

    fn le(&mut self, a: &i128, b: &i128) -> Result<bool, Halt> {
        let yes = self.plain.le(a, b);
        let answer: u64 = if let Ok(true) = yes { 3 } else { 1 };
        self.digest = self.digest.wrapping_mul(FACTOR).wrapping_add(answer);
        yes
    }

    ghost use Rattle.std.proofs.Common.{inl, refl};
    ghost use Rattle.viz_calc.specs.Plain.{plain_reading};

    ghost keeps = { λ d w t. inl (record { reading = plain_reading w; world = refl; is_open = t }) };
}
