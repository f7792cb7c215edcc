ghost use Rattle.std.specs.Prelude.{◌≡◌, ◌≤◌, ◌<◌, ◌*ℤ◌, ◌+ℤ◌, ◌≤ℤ◌, ◌<ℤ◌, pos};
ghost use Rattle.viz_base.specs.Numbers.{floor_of};

/// `a / d`, rounded towards minus infinity.
pub fn floor_div(a: i128, d: u64) -> i128
    requires { 1 ≤ d }
    ensures value { result ≡ floor_of a d }
    ensures not_above { (pos d *ℤ result) ≤ℤ a }
    ensures none_greater { a <ℤ (pos d *ℤ (result +ℤ pos 1)) }
{
    a.div_euclid(i128::from(d))
}
