ghost use Rattle.std.specs.Prelude.{◌≡◌, ◌≢◌, ◌<◌, pos, MatchOption};
ghost use Rattle.lin_proof.specs.Multiples.{IsCommon, IsLeast, IsLowest, NoneCancel};

/// Multiples of two numbers.
#[derive(Clone, Copy)]
pub struct Multiples {
    /// That of the first.
    pub first: i128,
    /// That of the second.
    pub second: i128,
}

/// The greatest common divisor of two numbers, by Euclid's algorithm.
pub fn common_divisor(a: u128, b: u128) -> u128
    ensures { IsCommon a b result }
{
    let (mut high, mut low) = (a, b);
    while low != 0 {
        (high, low) = (low, high % low);
    }
    high
}

/// The least factors of two numbers above 0 that make them equal.
fn lowest_factors(a: u128, b: u128) -> (u128, u128)
    requires first { 0 < a }
    requires second { 0 < b }
    ensures { IsLowest a b result.0 result.1 }
{
    let divisor = common_divisor(a, b);
    (b / divisor, a / divisor)
}

/// The least positive multiples of two numbers other than 0 that cancel each other, if there are any in `i128`.
pub fn least_multiples(c: i128, e: i128) -> Option<Multiples>
    requires first { c ≢ pos 0 }
    requires second { e ≢ pos 0 }
    ensures { MatchOption result (NoneCancel c e) (IsLeast c e) }
{
    if (c < 0) == (e < 0) {
        return None;
    }
    let factors = lowest_factors(c.unsigned_abs(), e.unsigned_abs());
    let Ok(first) = i128::try_from(factors.0) else {
        return None;
    };
    let Ok(second) = i128::try_from(factors.1) else {
        return None;
    };
    Some(Multiples { first, second })
}
