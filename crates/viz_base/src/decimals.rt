ghost use Rattle.std.specs.Prelude.{◌≡◌, ◌≤◌, ◌^◌, ◌+◌, pos, IfSome};
ghost use Rattle.std.specs.Char.{is_ascii_digit};
ghost use Rattle.std.specs.List.{list_all, position_or_len};
ghost use Rattle.std.specs.Option.{option_map};
ghost use Rattle.viz_base.specs.Decimals.{decimal_of, is_point, number_of, number_read, read_digits, number_parts};

/// The least number of millionths that is past the bound.
const PAST: u64 = (1 << 40) + 1;

/// The value of a NUMBER in millionths, digits after the sixth of its fraction being cut; none where the text is no
/// NUMBER (CSS 2.1, 4.1.1), or its value passes 2^40 millionths.
pub fn read_decimal(text: &[u8]) -> Option<i64>
    ensures { result ≡ option_map pos (decimal_of text.now) }
{
    let value = number(text)?;
    if value == PAST {
        None
    } else {
        Some(value as i64)
    }
}

/// The number of millionths, `PAST` where it is greater; none where the text is no NUMBER.
fn number(text: &[u8]) -> Option<u64>
    ensures value { result ≡ number_read text.now }
    ensures bound { IfSome result (λ value. value ≤ 2 ^ 40 + 1) }
{
    let (whole, fraction) = parts(text)?;
    read_number(whole, fraction)
}

/// The number of millionths, `PAST` where it is greater; none where one of the digits is none.
fn read_number(whole: &[u8], fraction: &[u8]) -> Option<u64>
    ensures value { result ≡ number_of whole.now fraction.now }
    ensures bound { IfSome result (λ value. value ≤ 2 ^ 40 + 1) }
{
    if !are_digits(fraction) {
        return None;
    }
    let kept = fraction.len().min(6);
    let (_, missing) = b"000000".split_at(kept);
    let value = read_after(0, whole)?;
    let value = read_after(value, &fraction[..kept])?;
    read_after(value, missing)
}

/// Whether each letter is a digit.
fn are_digits(text: &[u8]) -> bool
    ensures { result ≡ list_all is_ascii_digit text.now }
{
    text.iter().all(|letter| letter.is_ascii_digit())
}

/// What stands before and after the point; none where no digit can stand where one must.
fn parts(text: &[u8]) -> Option<(&[u8], &[u8])>
    ensures { option_map (λ p. (p.0.now, p.1.now)) result ≡ number_parts text.now }
{
    let at = point(text);
    if at < text.len() && at + 1 < text.len() {
        Some((&text[..at], &text[at + 1..]))
    } else if at == text.len() && 0 < at {
        Some((text, &[]))
    } else {
        None
    }
}

/// The place of the first point; the length where there is none.
fn point(text: &[u8]) -> usize
    ensures { result ≡ position_or_len is_point text.now }
{
    for at in 0..text.len() {
        if text[at] == b'.' {
            return at;
        }
    }
    text.len()
}

/// The number that the digits write when they follow those of `value`, `PAST` where it is greater; none where one of
/// them is no digit.
fn read_after(value: u64, digits: &[u8]) -> Option<u64>
    requires { value ≤ 2 ^ 40 + 1 }
    ensures value { result ≡ read_digits value digits.now }
    ensures bound { IfSome result (λ value. value ≤ 2 ^ 40 + 1) }
{
    let mut total = value;
    for digit in digits {
        if !digit.is_ascii_digit() {
            return None;
        }
        total = (total * 10 + u64::from(*digit - b'0')).min(PAST);
    }
    Some(total)
}
