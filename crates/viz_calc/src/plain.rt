//! The calc of one world, whose numbers are as they are, and its laws.
ghost use Rattle.std.specs.Prelude.{◌≡◌, ◌*◌, ◌^◌, ◌≤◌, ◌+ℤ◌, ◌-ℤ◌, ◌*ℤ◌, pos, Ok, false, ⊤, IsTrue, IfOk, IfErr, [], ◌∷◌};
ghost use Rattle.std.specs.Int.{int_div_euclid};
ghost use Rattle.std.specs.Int.RustNames.{int_le};
ghost use Rattle.viz_base.specs.declared.worlds.World.{World};
ghost use Rattle.viz_calc.specs.State.{Stands, Grows, KeepsWorlds, IsOpenWorld, Fits, Cause, CauseButMem, IsCounted, IsDecided, WhereOpen};
ghost use Rattle.viz_calc.specs.Plain.{plain_state, plain_reading, fitted};
ghost use Rattle.viz_calc.specs.declared.calc.Halt.TheVariants.{Mem};

use crate::calc::{Calc, Halt};
use viz_base::World;

/// Numbers as they are at one world, in 1/64 px, each at most 2^100 in size.
#[derive(Clone, Copy)]
pub struct Plain {
    /// The world, the only one that is open.
    pub world: World,
}

const LIMIT: u128 = 1 << 100;

/// A value, if it is at most 2^100 in size.
fn fit(value: i128) -> Result<i128, Halt>
    ensures { result ≡ fitted value }
{
    if value.unsigned_abs() <= LIMIT {
        Ok(value)
    } else {
        Err(Halt::Coeff)
    }
}

impl Plain {
    /// The calc of this world.
    pub fn new(world: World) -> Self
        ensures { result.world ≡ world }
    {
        Plain { world }
    }
}

/// `a + b`, if it fits.
fn sum(a: i128, b: i128) -> Result<i128, Halt>
    ensures { result ≡ fitted (a +ℤ b) }
{
    match a.checked_add(b) {
        Some(sum) => fit(sum),
        None => Err(Halt::Coeff),
    }
}

/// `a - b`, if it fits.
fn difference(a: i128, b: i128) -> Result<i128, Halt>
    ensures { result ≡ fitted (a -ℤ b) }
{
    match a.checked_sub(b) {
        Some(rest) => fit(rest),
        None => Err(Halt::Coeff),
    }
}

/// A quotient, rounded down.
fn quotient(number: i128, den: u64) -> i128
    requires { 1 ≤ den }
    ensures { result ≡ int_div_euclid number (pos den) }
{
    // Nearly all numbers of a page have 64 bits, and a processor divides these at once.
    match (i64::try_from(number), i64::try_from(den)) {
        (Ok(number), Ok(den)) => i128::from(number.div_euclid(den)),
        _ => number.div_euclid(i128::from(den)),
    }
}

/// `a * num / den`, rounded down, if it fits, by the parts of `a` so that the product need not fit.
fn scaled_by_parts(a: i128, num: i64, den: u64) -> Result<i128, Halt>
    requires { 1 ≤ den }
    ensures { result ≡ fitted (int_div_euclid (num *ℤ a) (pos den)) }
{
    let num = i128::from(num);
    let den = i128::from(den);
    let whole = a.div_euclid(den);
    let rest = (num * a.rem_euclid(den)).div_euclid(den);
    match num.checked_mul(whole) {
        Some(product) => sum(product, rest),
        None => Err(Halt::Coeff),
    }
}

/// `a * num / den`, rounded down, if it fits.
fn scaled(a: i128, num: i64, den: u64) -> Result<i128, Halt>
    requires { 1 ≤ den }
    ensures { result ≡ fitted (int_div_euclid (num *ℤ a) (pos den)) }
{
    match i128::from(num).checked_mul(a) {
        Some(product) => fit(quotient(product, den)),
        None => scaled_by_parts(a, num, den),
    }
}

/// The numbers of one world. Just its readings are open, for good.
impl Calc for Plain {
    type Num = i128;

    ghost state = { λ p. plain_state p.world };

    ghost counts = { false };

    ghost at = { λ n e. n };

    fn blank(&self) -> i128 {
        0
    }

    fn lit(&mut self, v: i128) -> Result<i128, Halt>
        ensures grows { Grows (plain_state self.old.world) (plain_state self.new.world) }
        ensures worlds { KeepsWorlds (plain_state self.old.world) (plain_state self.new.world) }
        ensures value { IfOk result (λ r. Stands (plain_state self.new.world) (λ e. r) (λ e. v)) }
        ensures cause { IfErr result (Cause (plain_state self.old.world)
            (plain_state self.new.world) (Fits (plain_state self.new.world) (λ e. v ∷ []))) }
        ensures counted { IfErr result
            (IsCounted false (plain_state self.old.world) (plain_state self.new.world)) }
        ensures decided { IsDecided result }
        ensures exact { result ≡ fitted v }
        ensures same { self.new ≡ self.old }
    {
        fit(v)
    }

    fn width(&mut self) -> Result<i128, Halt>
        ensures grows { Grows (plain_state self.old.world) (plain_state self.new.world) }
        ensures worlds { KeepsWorlds (plain_state self.old.world) (plain_state self.new.world) }
        ensures value { IfOk result (λ r. Stands (plain_state self.new.world) (λ e. r)
            (λ e. pos (64 * e.world.w))) }
        ensures cause { IfErr result (Cause (plain_state self.old.world)
            (plain_state self.new.world) (Fits (plain_state self.new.world)
            (λ e. pos (64 * e.world.w) ∷ []))) }
        ensures counted { IfErr result
            (IsCounted false (plain_state self.old.world) (plain_state self.new.world)) }
        ensures decided { IsDecided result }
        ensures exact { result ≡ Ok (pos (64 * self.old.world.w)) }
        ensures same { self.new ≡ self.old }
    {
        Ok(64 * i128::from(self.world.w))
    }

    fn height(&mut self) -> Result<i128, Halt>
        ensures grows { Grows (plain_state self.old.world) (plain_state self.new.world) }
        ensures worlds { KeepsWorlds (plain_state self.old.world) (plain_state self.new.world) }
        ensures value { IfOk result (λ r. Stands (plain_state self.new.world) (λ e. r)
            (λ e. pos (64 * e.world.h))) }
        ensures cause { IfErr result (Cause (plain_state self.old.world)
            (plain_state self.new.world) (Fits (plain_state self.new.world)
            (λ e. pos (64 * e.world.h) ∷ []))) }
        ensures counted { IfErr result
            (IsCounted false (plain_state self.old.world) (plain_state self.new.world)) }
        ensures decided { IsDecided result }
        ensures exact { result ≡ Ok (pos (64 * self.old.world.h)) }
        ensures same { self.new ≡ self.old }
    {
        Ok(64 * i128::from(self.world.h))
    }

    fn size(&mut self) -> Result<i128, Halt>
        ensures grows { Grows (plain_state self.old.world) (plain_state self.new.world) }
        ensures worlds { KeepsWorlds (plain_state self.old.world) (plain_state self.new.world) }
        ensures value { IfOk result (λ r. Stands (plain_state self.new.world) (λ e. r)
            (λ e. pos (64 * e.world.s))) }
        ensures cause { IfErr result (Cause (plain_state self.old.world)
            (plain_state self.new.world) (Fits (plain_state self.new.world)
            (λ e. pos (64 * e.world.s) ∷ []))) }
        ensures counted { IfErr result
            (IsCounted false (plain_state self.old.world) (plain_state self.new.world)) }
        ensures decided { IsDecided result }
        ensures exact { result ≡ Ok (pos (64 * self.old.world.s)) }
        ensures same { self.new ≡ self.old }
    {
        Ok(64 * i128::from(self.world.s))
    }

    fn copy(&mut self, a: &i128) -> Result<i128, Halt>
        ensures grows { Grows (plain_state self.old.world) (plain_state self.new.world) }
        ensures worlds { KeepsWorlds (plain_state self.old.world) (plain_state self.new.world) }
        ensures value { IfOk result (λ r. Stands (plain_state self.new.world) (λ e. r)
            (λ e. a.now)) }
        ensures cause { IfErr result (Cause (plain_state self.old.world)
            (plain_state self.new.world) (Fits (plain_state self.new.world) (λ e. a.now ∷ []))) }
        ensures counted { IfErr result
            (IsCounted false (plain_state self.old.world) (plain_state self.new.world)) }
        ensures decided { IsDecided result }
        ensures exact { result ≡ fitted a.now }
        ensures same { self.new ≡ self.old }
    {
        fit(*a)
    }

    fn add(&mut self, a: &i128, b: &i128) -> Result<i128, Halt>
        ensures grows { Grows (plain_state self.old.world) (plain_state self.new.world) }
        ensures worlds { KeepsWorlds (plain_state self.old.world) (plain_state self.new.world) }
        ensures value { IfOk result (λ r. Stands (plain_state self.new.world) (λ e. r)
            (λ e. a.now +ℤ b.now)) }
        ensures cause { IfErr result (Cause (plain_state self.old.world)
            (plain_state self.new.world) (Fits (plain_state self.new.world)
            (λ e. (a.now +ℤ b.now) ∷ []))) }
        ensures counted { IfErr result
            (IsCounted false (plain_state self.old.world) (plain_state self.new.world)) }
        ensures decided { IsDecided result }
        ensures exact { result ≡ fitted (a.now +ℤ b.now) }
        ensures same { self.new ≡ self.old }
    {
        sum(*a, *b)
    }

    fn sub(&mut self, a: &i128, b: &i128) -> Result<i128, Halt>
        ensures grows { Grows (plain_state self.old.world) (plain_state self.new.world) }
        ensures worlds { KeepsWorlds (plain_state self.old.world) (plain_state self.new.world) }
        ensures value { IfOk result (λ r. Stands (plain_state self.new.world) (λ e. r)
            (λ e. a.now -ℤ b.now)) }
        ensures cause { IfErr result (Cause (plain_state self.old.world)
            (plain_state self.new.world) (Fits (plain_state self.new.world)
            (λ e. (a.now -ℤ b.now) ∷ []))) }
        ensures counted { IfErr result
            (IsCounted false (plain_state self.old.world) (plain_state self.new.world)) }
        ensures decided { IsDecided result }
        ensures exact { result ≡ fitted (a.now -ℤ b.now) }
        ensures same { self.new ≡ self.old }
    {
        difference(*a, *b)
    }

    fn scale_floor(&mut self, a: &i128, num: i64, den: u64) -> Result<i128, Halt>
        requires { 1 ≤ den }
        ensures grows { Grows (plain_state self.old.world) (plain_state self.new.world) }
        ensures worlds { KeepsWorlds (plain_state self.old.world) (plain_state self.new.world) }
        ensures value { IfOk result (λ r. Stands (plain_state self.new.world) (λ e. r)
            (λ e. int_div_euclid (num *ℤ a.now) (pos den))) }
        ensures cause { IfErr result (Cause (plain_state self.old.world)
            (plain_state self.new.world) (Fits (plain_state self.new.world)
            (λ e. int_div_euclid (num *ℤ a.now) (pos den) ∷ []))) }
        ensures counted { IfErr result
            (IsCounted false (plain_state self.old.world) (plain_state self.new.world)) }
        ensures decided { IsDecided result }
        ensures exact { result ≡ fitted (int_div_euclid (num *ℤ a.now) (pos den)) }
        ensures same { self.new ≡ self.old }
    {
        scaled(*a, num, den)
    }

    fn le(&mut self, a: &i128, b: &i128) -> Result<bool, Halt>
        ensures grows { Grows (plain_state self.old.world) (plain_state self.new.world) }
        ensures value { IfOk result (λ r. WhereOpen (plain_state self.new.world).is_open
            (λ e. r ≡ int_le a.now b.now)) }
        ensures cause { IfErr result (Cause (plain_state self.old.world)
            (plain_state self.new.world) ⊤) }
        ensures exact { result ≡ Ok (int_le a.now b.now) }
        ensures same { self.new ≡ self.old }
    {
        Ok(*a <= *b)
    }

    ghost use Rattle.std.proofs.Common.{inl, refl};

    ghost keeps = { λ p w t. inl (record { reading = plain_reading w; world = refl; is_open = t }) };
}

// ---- laws of the plain calc, for those who call generic code with it

/// The reading of its world that gives each floor term 0 is open.
pub fn plain_is_at_one_world(calc: &Plain)
    ensures is_open { IsTrue ((plain_state calc.now.world).is_open (plain_reading calc.now.world)) }
    ensures alone { WhereOpen (plain_state calc.now.world).is_open (λ e. e.world ≡ calc.now.world) }
{}

/// It keeps its world, which is open.
pub fn plain_keeps_its_world(calc: &Plain)
    ensures kept { IsTrue ((plain_state calc.now.world).kept.worlds calc.now.world) }
    ensures open { (w : World) → IsTrue ((plain_state calc.now.world).kept.worlds w)
        → IsOpenWorld (plain_state calc.now.world) w }
{}

/// A plain calc that lost nothing is as it was.
pub fn plain_stays(old: &Plain, new: &Plain)
    requires { Grows (plain_state old.now.world) (plain_state new.now.world) }
    ensures { new.now ≡ old.now }
{}

/// Where all that is computed fits, a plain calc leaves only want of memory as the cause of a halt.
pub fn plain_never_blames(calc: &Plain, halt: Halt)
    requires { CauseButMem (plain_state calc.now.world) (plain_state calc.now.world) ⊤ halt }
    ensures { halt ≡ Mem }
{}
