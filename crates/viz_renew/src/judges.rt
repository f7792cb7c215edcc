//! What is asked of a node for those below it, and of a grid and a leaf for themselves.
ghost use Rattle.std.specs.Prelude.{◌≡◌, ◌<◌, ◌^◌, ◌&&◌, ℕ, IfOk, IfSome, IsTrue};
ghost use Rattle.viz_base.specs.declared.jobs.Job.{Job};
ghost use Rattle.lin_proof.specs.Form.{denied, form_fits};
ghost use Rattle.cert_semantics.specs.Derived.{IsEntailed};
ghost use Rattle.cert_semantics.specs.Nodes.{by_answers, by_worlds, Node, node_on, splits};
ghost use Rattle.cert_semantics.specs.Paths.{variables};
ghost use Rattle.cert_semantics.specs.Rectangles.{rectangle};
ghost use Rattle.cert_semantics.specs.Shapes.{is_shaped};
ghost use Rattle.viz_base.specs.Rectangles.{IsWithin};
ghost use Rattle.cert_check.specs.steps.Grids.{IsPart};
ghost use Rattle.cert_check.specs.steps.Tells.{Judges};
ghost use Rattle.cert_check.specs.steps.Ways.{path_at};
ghost use Rattle.viz_renew.specs.steps.Bare.{IsFoundGood};

use cert_check::{
    Descent, Stop, check_answers, check_grid, check_lemma, has_denial, is_shaped_row,
};
use lin_proof::{Answer, Derivation, Row};
use std::alloc::Global;
use viz_base::{Mem, Rect};

/// Whether a node was found good.
fn is_good(found: Result<(), Stop>) -> Result<bool, Mem>
    ensures { IfOk result (λ yes. (job : Job) (node : Node) (n : ℕ) → Judges job node n found
        → IsFoundGood job node yes) }
{
    match found {
        Ok(()) => Ok(true),
        Err(Stop::Rejected(_reject)) => Ok(false),
        Err(Stop::Mem) => Err(Mem),
    }
}

/// Whether a split or a lemma by this row is well shaped here, and the row's denial in `i128`.
pub(crate) fn is_firm_row(descent: &Descent<'_>, row: &Row) -> Result<bool, Mem>
    requires { variables (path_at descent.now) < 2 ^ 32 }
    ensures { IfOk result (λ yes. yes
        ≡ (is_shaped descent.now.job.now.range (path_at descent.now) (splits row.now) && form_fits
        (denied row.now))) }
{
    if is_shaped_row(descent, row) {
        has_denial(row)
    } else {
        Ok(false)
    }
}

/// Whether a lemma's derivation entails its row here.
pub(crate) fn is_derived(
    alloc: Global,
    descent: &Descent<'_>,
    row: &Row,
    why: &Derivation,
) -> Result<bool, Mem>
    requires { variables (path_at descent.now) < 2 ^ 32 }
    ensures { IfOk result (λ yes. IsTrue yes
        → IsEntailed descent.now.job.now.range (path_at descent.now) row.now) }
{
    is_good(check_lemma(alloc, descent, 0, row, why))
}

/// Whether a grid is good here, this being its part of the range.
pub(crate) fn is_good_grid(
    alloc: Global,
    descent: &Descent<'_>,
    part: Option<Rect>,
) -> Result<bool, Mem>
    requires part { IsPart part (rectangle descent.now.job.now.range (path_at descent.now)) }
    requires within { IfSome part (IsWithin descent.now.job.now.range) }
    ensures { IfOk result (IsFoundGood descent.now.job.now
        (node_on (path_at descent.now) by_worlds)) }
{
    is_good(check_grid(alloc, descent, 0, part))
}

/// Whether a leaf of these answers is good here.
pub(crate) fn is_good_leaf(
    alloc: Global,
    descent: &Descent<'_>,
    answers: &[Answer],
) -> Result<bool, Mem>
    requires { variables (path_at descent.now) < 2 ^ 32 }
    ensures { IfOk result (IsFoundGood descent.now.job.now
        (node_on (path_at descent.now) (by_answers answers.now))) }
{
    is_good(check_answers(alloc, descent, 0, answers))
}
