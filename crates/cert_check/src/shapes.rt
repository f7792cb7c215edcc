//! Whether a def, a split or a lemma is well shaped on its path, and whether a row's denial is in `i128`.
ghost use Rattle.std.specs.Prelude.{◌≡◌, ◌<◌, ◌^◌, ◌&&◌, pos, IfOk};
ghost use Rattle.std.specs.Int.Signed.{lt_z};
ghost use Rattle.std.specs.List.{list_all};
ghost use Rattle.lin_proof.specs.Form.{denied, form_fits};
ghost use Rattle.lin_proof.specs.Derivations.{are_declared};
ghost use Rattle.cert_semantics.specs.Nodes.{names, splits};
ghost use Rattle.cert_semantics.specs.Paths.{is_declared, variables};
ghost use Rattle.cert_semantics.specs.Shapes.{has_remainders, has_variable, is_remainder, is_shaped};
ghost use Rattle.cert_check.specs.steps.Ways.{path_at};

use crate::descent::Descent;
use lin_proof::{Row, RowFault};
use sym_calc::Floor;
use viz_base::Mem;

/// Whether a number is from 0 to `by` less 1.
fn is_remainder(by: i128, number: i128) -> bool
    ensures { result ≡ is_remainder by number }
{
    !(number < 0) && number < by
}

fn are_remainders(by: i128, terms: &[(u32, i128)]) -> bool
    ensures { result ≡ list_all (λ t. is_remainder by t.1) terms.now }
{
    terms.iter().all(|term| is_remainder(by, term.1))
}

/// Whether each number of a row, its constant among them, is from 0 to `by` less 1.
fn has_remainders(by: i128, row: &Row) -> bool
    ensures { result ≡ has_remainders by row.now }
{
    is_remainder(by, row.k) && are_remainders(by, row.terms.as_slice())
}

fn are_declared(terms: &[(u32, i128)], variables: u32) -> bool
    ensures { result ≡ are_declared variables terms.now }
{
    terms.iter().all(|term| term.0 < variables)
}

/// Whether a row has a variable, and only variables below this number.
fn is_declared(row: &Row, variables: u32) -> bool
    ensures { result ≡ (are_declared variables row.now.terms && has_variable row.now) }
{
    are_declared(row.terms.as_slice(), variables) && row.terms.len() > 0
}

/// Whether a def's row has a variable, and only those below this number, and its numbers are as its divisor asks.
fn has_fit_numbers(row: &Row, variables: u32, by: i128) -> bool
    ensures { result ≡ (are_declared variables row.now.terms && has_variable row.now && lt_z
        (pos 1) by && has_remainders by row.now) }
{
    is_declared(row, variables) && 1 < by && has_remainders(by, row)
}

/// Whether a split or a lemma by this row is well shaped here.
pub fn is_shaped_row(descent: &Descent<'_>, row: &Row) -> bool
    requires { variables (path_at descent.now) < 2 ^ 32 }
    ensures { result ≡ is_shaped descent.now.job.now.range (path_at descent.now) (splits row.now) }
{
    is_declared(row, descent.variables())
}

/// Whether a def of this row and number is well shaped here.
pub fn is_shaped_def(descent: &Descent<'_>, row: &Row, by: i128) -> Result<bool, Mem>
    requires { variables (path_at descent.now) < 2 ^ 32 }
    ensures { IfOk result (λ shaped.
        shaped ≡ is_shaped descent.now.job.now.range (path_at descent.now) (names row.now by)) }
{
    if !has_fit_numbers(row, descent.variables(), by) {
        return Ok(false);
    }
    let floor = Floor {
        row: row.clone()?,
        by,
    };
    Ok(descent.path().floors.place_of(&floor).is_none())
}

/// Whether each number of a row's denial is in `i128`.
pub fn has_denial(row: &Row) -> Result<bool, Mem>
    ensures { IfOk result (λ fits. fits ≡ form_fits (denied row.now)) }
{
    match row.negate() {
        Ok(_) => Ok(true),
        Err(RowFault::Coeff) => Ok(false),
        Err(RowFault::Mem) => Err(Mem),
    }
}
