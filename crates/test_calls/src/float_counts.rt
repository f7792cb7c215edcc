ghost use Rattle.std.specs.Prelude.{◌≡◌};
ghost use Rattle.viz_calc.specs.Plain.{plain_state};
ghost use Rattle.lay_float.specs.Agreement.{Agree};

use lay_float::Floats;
use std::test::Fail;
use viz_base::{Band, Extent, Side, World};
use viz_calc::{Calc, Halt, Plain};

const WORLD: World = World {
    w: 1000,
    s: 16,
    h: 600,
};

/// The numbers of one world, with a count of the comparisons that were asked.
#[derive(Clone, Copy)]
struct Counting {
    plain: Plain,
    asked: u64,
}

impl Calc for Counting {
    ghost use Rattle.std.specs.Prelude.{false};

    type Num = i128;

    ghost state = { λ c. plain_state c.plain.world };

    ghost counts = { false };

    ghost at = { λ n e. n };

    fn blank(&self) -> i128 {
        0
    }

    fn lit(&mut self, v: i128) -> Result<i128, Halt> {
        self.plain.lit(v)
    }

    fn width(&mut self) -> Result<i128, Halt> {
        self.plain.width()
    }

    fn size(&mut self) -> Result<i128, Halt> {
        self.plain.size()
    }

    fn height(&mut self) -> Result<i128, Halt> {
        self.plain.height()
    }

    fn copy(&mut self, a: &i128) -> Result<i128, Halt> {
        self.plain.copy(a)
    }

    fn add(&mut self, a: &i128, b: &i128) -> Result<i128, Halt> {
        self.plain.add(a, b)
    }

    fn sub(&mut self, a: &i128, b: &i128) -> Result<i128, Halt> {
        self.plain.sub(a, b)
    }

    fn scale_floor(&mut self, a: &i128, num: i64, den: u64) -> Result<i128, Halt> {
        self.plain.scale_floor(a, num, den)
    }

    fn le(&mut self, a: &i128, b: &i128) -> Result<bool, Halt> {
        self.asked = self.asked.saturating_add(1);
        self.plain.le(a, b)
    }

    ghost use Rattle.std.proofs.Common.{inl, refl};
    ghost use Rattle.viz_calc.specs.Plain.{plain_reading};

    ghost keeps = { λ d w t. inl (record { reading = plain_reading w; world = refl; is_open = t }) };
}

/// Where a left float of this size goes that comes behind the earlier ones, and how often comparisons were asked.
fn place_left(
    calc: &mut Counting,
    floats: &mut Floats<i128>,
    width: i128,
    height: i128,
) -> (Option<(i128, i128)>, u64)
    requires { Agree (λ n e. n) (plain_state calc.old.plain.world).is_open floats.old }
    ensures { Agree (λ n e. n) (plain_state calc.new.plain.world).is_open floats.new }
{
    calc.asked = 0;
    let cb = Band {
        left: 0,
        right: 64_000,
    };
    let size = Extent { width, height };
    let spot = match floats.place(calc, Side::Left, &size, &cb, &0) {
        Ok(spot) => Some((spot.x, spot.y)),
        Err(_) => None,
    };
    (spot, calc.asked)
}

/// Stairs of floats, each narrow and a line less high than the one before, and then a float that stands below all.
#[test]
fn asks_little_beside_stairs(rt: HostRuntime) -> Result<(), Fail> {
    let mut calc = Counting {
        plain: Plain::new(WORLD),
        asked: 0,
    };
    let mut floats = Floats::new(rt.alloc());
    for before in 0..1000u32 {
        let (spot, asked) = place_left(
            &mut calc,
            &mut floats,
            16,
            64 * (1000 - i128::from(before)),
        );
        assert_eq!(rt; spot, Some((16 * i128::from(before), 0)));
        assert!(rt;
            asked <= 64 * (u64::from(before) + 1),
            "{asked} comparisons beside {before} floats"
        );
    }
    let (spot, asked) = place_left(&mut calc, &mut floats, 64_000, 64);
    assert_eq!(rt; spot, Some((0, 64_000)));
    assert!(rt; asked <= 64 * 1001, "{asked} comparisons below 1000 floats");
    Ok(())
}
