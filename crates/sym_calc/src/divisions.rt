ghost use Rattle.std.specs.Prelude.{◌≡◌, ◌<ℤ◌, ◌++◌, [], pos, IfOk, OnOk};
ghost use Rattle.lin_proof.specs.Form.{put};
ghost use Rattle.sym_calc.specs.Division.{quotient, quotient_terms, remainder, remainder_terms};

use lin_proof::{Row, Terms};
use std::alloc::{AllocError, Global};

/// A row with each of its numbers divided by a number above 0 and rounded down.
pub fn quotient(row: &Row, by: i128) -> Result<Row, AllocError>
    requires { pos 0 <ℤ by }
    ensures { IfOk result (λ whole. whole ≡ quotient by row.now) }
{
    let terms = quotient_terms(row.terms.allocator(), by, row.terms.as_slice())?;
    Ok(Row {
        k: row.k.div_euclid(by),
        terms,
    })
}

/// What is left of each number of a row, from 0 to `by` less 1.
pub fn remainder(row: &Row, by: i128) -> Result<Row, AllocError>
    requires { pos 0 <ℤ by }
    ensures { IfOk result (λ rest. rest ≡ remainder by row.now) }
{
    let terms = remainder_terms(row.terms.allocator(), by, row.terms.as_slice())?;
    Ok(Row {
        k: row.k.rem_euclid(by),
        terms,
    })
}

/// Adds a term behind those that there are, unless its coefficient is 0.
fn put(terms: &mut Terms, variable: u32, coefficient: i128) -> Result<(), AllocError>
    ensures { OnOk result (terms.new ≡ terms.old ++ put variable coefficient []) }
{
    if coefficient != 0 {
        terms.push(variable, coefficient)?;
    }
    Ok(())
}

fn quotient_terms(alloc: Global, by: i128, terms: &[(u32, i128)]) -> Result<Terms, AllocError>
    requires { pos 0 <ℤ by }
    ensures { IfOk result (λ quotients. quotients ≡ quotient_terms by terms.now) }
{
    let mut quotients = Terms::new(alloc);
    for term in terms {
        put(&mut quotients, term.0, term.1.div_euclid(by))?;
    }
    Ok(quotients)
}

fn remainder_terms(alloc: Global, by: i128, terms: &[(u32, i128)]) -> Result<Terms, AllocError>
    requires { pos 0 <ℤ by }
    ensures { IfOk result (λ remainders. remainders ≡ remainder_terms by terms.now) }
{
    let mut remainders = Terms::new(alloc);
    for term in terms {
        put(&mut remainders, term.0, term.1.rem_euclid(by))?;
    }
    Ok(remainders)
}
