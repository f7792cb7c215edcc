ghost use Rattle.std.specs.Prelude.{◌≡◌, ◌<◌, ◌≤◌, ◌^◌, IfOk};
ghost use Rattle.cert_text.specs.steps.Read.{Reads};
ghost use Rattle.cert_text.specs.steps.Numbers.{with_digit, reaches, digit_after, number_on, zero_end, first_digits, natural, negative, signed};

use crate::cursor::{Cursor, Stop};

/// The number with one digit more, where the byte is a digit and that number is at most `most`.
fn with_digit(most: u128, number: u128, byte: u8) -> Option<u128>
    ensures { result ≡ with_digit most number byte }
{
    if !byte.is_ascii_digit() {
        return None;
    }
    let next = number
        .checked_mul(10)?
        .checked_add(u128::from(byte - b'0'))?;
    (next <= most).then_some(next)
}

/// Whether a number from `low` to `high`, or one with digits behind it, fewer than `digits`, is from `least` to `most`.
#[tactic(auto, unfolding(crate::specs::steps::Numbers::reaches))]
fn reaches(digits: u8, least: u128, most: u128, low: u128, high: u128) -> bool
    requires small { least ≤ 2 ^ 64 }
    requires ordered { low ≤ high }
    ensures { result ≡ reaches digits least most low high }
{
    digits > 0
        && low <= most
        && (least <= high || reaches(digits - 1, least, most, 10 * low, 10 * high + 9))
}

/// The number with one digit more, where the byte is a digit and that number, or one with more digits behind it,
/// is from `least` to `most`.
fn digit_after(least: u128, most: u128, number: u128, byte: u8) -> Option<u128>
    requires small { least ≤ 2 ^ 64 }
    ensures { result ≡ digit_after least most number byte }
{
    let next = with_digit(most, number, byte)?;
    reaches(11, least, most, next, next).then_some(next)
}

/// Takes the digits that go on with a number, and one of two bytes behind them. The number is from `least` to `most`.
fn number_on(
    cursor: &mut Cursor,
    ends: (u8, u8),
    least: u128,
    most: u128,
    number: u128,
) -> Result<(u128, u8), Stop>
    requires small { least ≤ 2 ^ 64 }
    requires bound { number ≤ most }
    ensures gives { Reads result
        (number_on ends least most number cursor.old.rest.now) cursor.new.rest.now }
    ensures above { IfOk result (λ n. least ≤ n.0) }
    ensures bound { IfOk result (λ n. n.0 ≤ most) }
{
    let mut number = number;
    while let Some((byte, rest)) = cursor.rest.split_first() {
        if (*byte == ends.0 || *byte == ends.1) && least <= number {
            cursor.rest = rest;
            return Ok((number, *byte));
        }
        let Some(next) = digit_after(least, most, number, *byte) else {
            return Err(Stop::Refused);
        };
        number = next;
        cursor.rest = rest;
    }
    Err(Stop::Refused)
}

/// Takes one of two bytes, behind the number 0.
fn zero_end(cursor: &mut Cursor, ends: (u8, u8)) -> Result<(u128, u8), Stop>
    ensures gives { Reads result (zero_end ends cursor.old.rest.now) cursor.new.rest.now }
    ensures zero { IfOk result (λ n. n.0 ≡ 0) }
{
    match cursor.rest.split_first() {
        Some((byte, rest)) if *byte == ends.0 || *byte == ends.1 => {
            cursor.rest = rest;
            Ok((0, *byte))
        }
        _ => Err(Stop::Refused),
    }
}

/// Takes a number from `least` to `most` and above 0, without leading zeros, and one of two bytes behind it.
fn first_digits(
    cursor: &mut Cursor,
    ends: (u8, u8),
    least: u128,
    most: u128,
) -> Result<(u128, u8), Stop>
    requires small { least ≤ 2 ^ 64 }
    ensures gives { Reads result
        (first_digits ends least most cursor.old.rest.now) cursor.new.rest.now }
    ensures above { IfOk result (λ n. least ≤ n.0) }
    ensures bound { IfOk result (λ n. n.0 ≤ most) }
{
    match cursor.rest.split_first() {
        Some((byte, rest)) if *byte >= b'1' => match digit_after(least, most, 0, *byte) {
            Some(first) => {
                cursor.rest = rest;
                number_on(cursor, ends, least, most, first)
            }
            None => Err(Stop::Refused),
        },
        _ => Err(Stop::Refused),
    }
}

/// Takes a number from `least` to `most`, without leading zeros, and one of two bytes behind it.
pub fn natural(
    cursor: &mut Cursor,
    ends: (u8, u8),
    least: u128,
    most: u128,
) -> Result<(u128, u8), Stop>
    requires small { least ≤ 2 ^ 64 }
    ensures gives { Reads result (natural ends least most cursor.old.rest.now) cursor.new.rest.now }
    ensures above { IfOk result (λ n. least ≤ n.0) }
    ensures bound { IfOk result (λ n. n.0 ≤ most) }
{
    if least == 0 && cursor.begins(b'0') {
        cursor.word(b"0")?;
        return zero_end(cursor, ends);
    }
    first_digits(cursor, ends, least, most)
}

/// The number below 0 of this size.
fn negative(size: u128) -> i128
    requires low { 0 < size }
    requires high { size ≤ 2 ^ 127 }
    ensures { result ≡ negative size }
{
    -((size - 1) as i128) - 1
}

/// Takes a whole number of `i128`, which is not 0 where `least` is 1, and one of two bytes behind it.
pub fn signed(cursor: &mut Cursor, ends: (u8, u8), least: u128) -> Result<(i128, u8), Stop>
    requires small { least ≤ 2 ^ 64 }
    ensures { Reads result (signed ends least cursor.old.rest.now) cursor.new.rest.now }
{
    if cursor.begins(b'-') {
        cursor.word(b"-")?;
        let (size, end) = natural(cursor, ends, 1, 1 << 127)?;
        return Ok((negative(size), end));
    }
    let (size, end) = natural(cursor, ends, least, (1 << 127) - 1)?;
    Ok((size as i128, end))
}
