use lin_proof::{Row, RowFault};
use serde_json::Value;
use test_scribe::{Fault, Scribe};

/// The row that a call gives, or 0 where it has a fault.
fn sure<E: Into<Fault> + Drop>(scribe: &mut Scribe, given: Result<Row, E>) -> Row {
    match scribe.kept(given) {
        Some(row) => row,
        None => Row::constant(scribe.alloc(), 0),
    }
}

/// A term: a variable and its coefficient.
fn term(scribe: &mut Scribe, value: &Value) -> Row {
    let variable = scribe.number_at(value, 0);
    let mut coefficient = scribe.wide_at(value, 1);
    if coefficient == 0 {
        scribe.fail(Fault::NoCase);
        coefficient = 1;
    }
    let term = Row::of_term(scribe.alloc(), 0, variable, coefficient);
    sure(scribe, term)
}

/// A row: its constant and the list of its terms.
pub fn row(scribe: &mut Scribe, value: &Value) -> Row {
    let constant = scribe.wide_at(value, 0);
    let mut row = Row::constant(scribe.alloc(), constant);
    for one in scribe.list_at(value, 1) {
        let term = term(scribe, one);
        row = sure(scribe, row.add_scaled(1, &term));
    }
    row
}

/// The row at a place of a case.
pub fn row_at(scribe: &mut Scribe, case: &Value, place: usize) -> Row {
    let value = scribe.at(case, place);
    row(scribe, value)
}

/// A row, its numbers in quotes.
fn write(scribe: &mut Scribe, row: &Row) {
    scribe.open();
    scribe.wide(row.k);
    scribe.open();
    for term in row.terms.as_slice() {
        scribe.open();
        scribe.number(term.0);
        scribe.wide(term.1);
        scribe.close();
    }
    scribe.close();
    scribe.close();
}

fn exact(scribe: &mut Scribe, row: &Result<Row, RowFault>) {
    match row {
        Ok(row) => write(scribe, row),
        Err(RowFault::Coeff) => scribe.word("Coeff"),
        Err(RowFault::Mem) => scribe.fail(Fault::Mem),
    }
}

/// A row plus a multiple of another.
pub fn add_scaled(scribe: &mut Scribe, case: &Value) {
    let times = scribe.wide_at(case, 2);
    let first = row_at(scribe, case, 1);
    let second = row_at(scribe, case, 3);
    exact(scribe, &first.add_scaled(times, &second));
}

/// The denial of a row.
pub fn negate(scribe: &mut Scribe, case: &Value) {
    let row = row_at(scribe, case, 1);
    exact(scribe, &row.negate());
}

/// Whether a number divides a row.
pub fn divides(scribe: &mut Scribe, case: &Value) {
    let divisor = scribe.wide_at(case, 2);
    let row = row_at(scribe, case, 1);
    scribe.truth(row.divides(divisor));
}

/// A row divided by a number that divides it.
pub fn cut(scribe: &mut Scribe, case: &Value) {
    let divisor = scribe.wide_at(case, 2);
    let row = row_at(scribe, case, 1);
    if row.divides(divisor) {
        let cut = sure(scribe, row.cut(divisor));
        write(scribe, &cut);
    } else {
        scribe.fail(Fault::NoCase);
    }
}
