//! How many bytes numbers and rows have in a certificate's text.
use lin_proof::Row;

/// How many decimal digits a number of 128 bits has at most.
const MOST_DIGITS: u8 = 39;

/// How many decimal digits a number has.
fn digit_count(number: u128) -> u64 {
    let mut rest = number;
    let mut count = 1u64;
    for _ in 0..MOST_DIGITS {
        if rest < 10 {
            break;
        }
        rest /= 10;
        count = count.saturating_add(1);
    }
    count
}

/// The length of a number that counts.
pub fn number_length(number: u64) -> u64 {
    digit_count(u128::from(number))
}

/// The length of a number with its sign.
pub fn int_length(number: i128) -> u64 {
    let sign = u64::from(number < 0);
    digit_count(number.unsigned_abs()).saturating_add(sign)
}

/// The length of a multiple of a variable or a row, with a space before it.
pub fn part_length(times: i128, number: u32) -> u64 {
    int_length(times)
        .saturating_add(number_length(u64::from(number)))
        .saturating_add(2)
}

/// The length of a row.
pub fn row_length(row: &Row) -> u64 {
    let mut length = int_length(row.k);
    for term in row.terms.as_slice() {
        length = length.saturating_add(part_length(term.1, term.0));
    }
    length
}
