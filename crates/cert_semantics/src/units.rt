//! Unit rows: those with one variable, which stands for an axis of the job's form, and the coefficient 1 or -1.
ghost use Rattle.std.specs.Prelude.{◌≡◌};
ghost use Rattle.cert_semantics.specs.Units.{coefficient_cut, cut_of};

use crate::axes::axis_of;
use lin_proof::Row;
use viz_base::{Axis, Cut, Opens};

/// Where `k + coefficient * number` is at least 0 for the number on the axis, the coefficient being 1 or -1.
fn coefficient_cut(k: i128, axis: Axis, coefficient: i128) -> Option<Cut>
    ensures { result ≡ coefficient_cut k axis coefficient }
{
    match coefficient {
        1 => Some(Cut {
            axis,
            opens: Opens::Above,
            bound: -1 - k,
        }),
        -1 => Some(Cut {
            axis,
            opens: Opens::UpTo,
            bound: k,
        }),
        _ => None,
    }
}

/// Where a unit row is at least 0, in a job of a form; None of another row.
pub fn cut_of(form: u8, row: &Row) -> Option<Cut>
    ensures { result ≡ cut_of form row.now }
{
    match row.terms.as_slice() {
        [term] => coefficient_cut(row.k, axis_of(form, term.0)?, term.1),
        _ => None,
    }
}
