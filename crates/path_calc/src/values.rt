//! What rows and floors are at given values of the variables.
use lin_proof::Row;

/// The value of a row at values of the variables, by their numbers. None where a number on the way is outside `i128`,
/// or a variable has no value.
pub fn value_of(row: &Row, values: &[i128]) -> Option<i128> {
    let mut sum = row.k;
    for term in row.terms.as_slice() {
        let value = *values.get(term.0 as usize)?;
        sum = sum.checked_add(term.1.checked_mul(value)?)?;
    }
    Some(sum)
}

/// The value of a row at values of the variables, divided by a number above 0 and rounded down. None where the row has
/// no value, or for another number.
pub fn floor_of(row: &Row, by: i128, values: &[i128]) -> Option<i128> {
    let value = value_of(row, values)?;
    if by > 0 {
        Some(value.div_euclid(by))
    } else {
        None
    }
}
