ghost use Rattle.std.specs.Prelude.{◌≡◌, IfSome, IsTrue, pos, ◌+ℤ◌, ◌*ℤ◌, ◌≤ℤ◌};
ghost use Rattle.lin_proof.specs.Form.{value};
ghost use Rattle.lin_proof.specs.Law.{Meets};
ghost use Rattle.lin_search.specs.Answers.{at_point};

use lin_proof::Row;

/// Whether the values of the variables meet all facts. False also where a number on the way is outside `i128`, or a
/// variable has no value.
pub fn meets_all(facts: &[Row], values: &[i128]) -> bool
    ensures { IsTrue result → Meets (at_point values.now) facts.now }
{
    for fact in facts {
        if !meets(fact, values) {
            return false;
        }
    }
    true
}

fn meets(fact: &Row, values: &[i128]) -> bool
    ensures { IsTrue result → pos 0 ≤ℤ value fact.now (at_point values.now) }
{
    match value_at(fact, values) {
        Some(value) => value >= 0,
        None => false,
    }
}

/// The value of a row, if each number on the way is in `i128` and each variable has a value.
pub fn value_at(row: &Row, values: &[i128]) -> Option<i128>
    ensures { IfSome result (λ n. n ≡ value row.now (at_point values.now)) }
{
    let mut sum = row.k;
    for term in row.terms.as_slice() {
        sum = plus_term(sum, *term, values)?;
    }
    Some(sum)
}

/// A sum with one term more.
fn plus_term(sum: i128, term: (u32, i128), values: &[i128]) -> Option<i128>
    ensures { IfSome result (λ n. n ≡ sum +ℤ term.1 *ℤ at_point values.now term.0) }
{
    let value = variable_at(values, term.0)?;
    sum.checked_add(term.1.checked_mul(value)?)
}

/// The value of a variable, if it has one.
fn variable_at(values: &[i128], variable: u32) -> Option<i128>
    ensures { IfSome result (λ n. n ≡ at_point values.now variable) }
{
    values.get(variable as usize).copied()
}
