//! Judges each node of a certificate by its kind, and walks through those of one that is whole in memory.
ghost use Rattle.std.specs.Prelude.{◌≡◌, ◌+◌, ◌<◌, ◌≤◌, ◌^◌, [], ◌∷◌, ◌++◌, IsTrue, IfOk, IfSome, OnOk};
ghost use Rattle.viz_base.specs.declared.jobs.Job.{Job};
ghost use Rattle.std.specs.Option.{option_and_then};
ghost use Rattle.lin_proof.specs.Form.{denied, form_fits};
ghost use Rattle.cert_text.specs.Nodes.{node_count};
ghost use Rattle.cert_semantics.specs.Nodes.{names, splits, states, is_empty, by_worlds, by_answers, Node, node_on, nodes_from};
ghost use Rattle.cert_semantics.specs.Axes.{axis_count};
ghost use Rattle.cert_semantics.specs.Paths.{def, first, second, lemma, ◌▸◌, is_declared, variables};
ghost use Rattle.cert_semantics.specs.Derived.{IsEntailed};
ghost use Rattle.cert_semantics.specs.Rectangles.{rectangle};
ghost use Rattle.cert_semantics.specs.Shapes.{is_shaped};
ghost use Rattle.cert_check.specs.Leaves.{node_in};
ghost use Rattle.viz_base.specs.Rectangles.{IsWithin};
ghost use Rattle.cert_semantics.specs.Units.{cut_of, cut_at};
ghost use Rattle.cert_check.specs.Verdicts.{IsRejected};
ghost use Rattle.cert_check.specs.steps.Ways.{path_at};
ghost use Rattle.cert_check.specs.steps.Grids.{IsPart};
ghost use Rattle.cert_check.specs.steps.Tells.{Judges, Tells};

use crate::descent::Descent;
use crate::leaf::check_new_leaf;
use crate::path_worlds::{first_outside, first_untrue};
use crate::shapes::{has_denial, is_shaped_def, is_shaped_row};
use crate::verdicts::{Reject, Verdict};
use cert_semantics::cut_of;
use cert_text::CertNode;
use lin_proof::{
    Answer, Derivation, Facts, Row, RowFault, first_fault_among, first_fault_of_entailment,
    line_count,
};
use std::alloc::{AllocError, Global};
use sym_calc::Sym;
use viz_base::{Boxed, Child, Mem, Rect, part_of, world_count};

/// Why the walk stops.
#[derive(Drop)]
pub enum Stop {
    /// Want of memory, and nothing else.
    Mem,
    /// A node is rejected, for this cause. It lies in a box, so that a level of the walk takes little of the stack.
    Rejected(Boxed<Reject>),
}

impl From<Mem> for Stop {
    ghost use Rattle.std.specs.Prelude.{◌≡◌};
    ghost use Rattle.cert_check.specs.declared.walk.Stop.TheVariants.{Mem};

    ghost from_gives = { λ _ stop. stop ≡ Mem };

    fn from(_: Mem) -> Self {
        Stop::Mem
    }
}

impl From<AllocError> for Stop {
    ghost use Rattle.std.specs.Prelude.{◌≡◌};
    ghost use Rattle.cert_check.specs.declared.walk.Stop.TheVariants.{Mem};

    ghost from_gives = { λ _ stop. stop ≡ Mem };

    fn from(_: AllocError) -> Self {
        Stop::Mem
    }
}

/// The part of a part that lies under a child of a split, which only a unit split cuts.
pub fn child_part(form: u8, row: &Row, child: Child, part: Option<Rect>) -> Option<Rect>
    ensures { result ≡ option_and_then (cut_at (cut_of form row.now) child) part }
{
    match cut_of(form, row) {
        Some(cut) => part_of(cut, child, part?),
        // Another split leaves the rectangle; which of its worlds lie here is asked of each at a grid.
        None => part,
    }
}

#[tactic(auto, using(crate::proofs::Judging::judged_mem))]
/// What is found of a node that is rejected.
fn rejected(alloc: Global, reject: Reject) -> Result<(), Stop>
    ensures { (job : Job) (node : Node) → IsRejected job node reject
        → Judges job node (node_in reject) result }
{
    Err(Stop::Rejected(Boxed::new(alloc, reject)?))
}

// The walk goes some 500 levels deep. What needs much of the stack stands in calls that have returned before it
// descends, none of them inlined.

#[tactic(auto, using(crate::proofs::Judging::judged_mem))]
/// Whether a def is well shaped.
#[inline(never)]
pub fn check_def(
    alloc: Global,
    descent: &Descent<'_>,
    number: u32,
    row: &Row,
    by: i128,
) -> Result<(), Stop>
    requires { variables (path_at descent.now) < 2 ^ 32 }
    ensures { Judges descent.now.job.now
        (node_on (path_at descent.now) (names row.now by)) number result }
{
    if is_shaped_def(descent, row, by)? {
        Ok(())
    } else {
        rejected(alloc, Reject::Shape(number))
    }
}

#[tactic(auto, using(crate::proofs::Judging::judged_mem))]
/// Whether a split is well shaped, and its denial in `i128`.
#[inline(never)]
pub fn check_split(alloc: Global, descent: &Descent<'_>, number: u32, row: &Row) -> Result<(), Stop>
    requires { variables (path_at descent.now) < 2 ^ 32 }
    ensures { Judges descent.now.job.now
        (node_on (path_at descent.now) (splits row.now)) number result }
{
    if !is_shaped_row(descent, row) {
        return rejected(alloc, Reject::Shape(number));
    }
    // Below the second child the denial is a fact, so it has to be a number of 128 bits.
    if has_denial(row)? {
        Ok(())
    } else {
        rejected(alloc, Reject::Coeff(number))
    }
}

#[tactic(auto, using(crate::proofs::Judging::judged_mem))]
/// Whether a lemma is well shaped, its denial in `i128`, and its row entailed by the facts of its path.
#[inline(never)]
pub fn check_lemma(
    alloc: Global,
    descent: &Descent<'_>,
    number: u32,
    row: &Row,
    why: &Derivation,
) -> Result<(), Stop>
    requires { variables (path_at descent.now) < 2 ^ 32 }
    ensures { Judges descent.now.job.now
        (node_on (path_at descent.now) (states row.now why.now)) number result }
{
    if !is_shaped_row(descent, row) {
        return rejected(alloc, Reject::Shape(number));
    }
    if line_count(why).is_none() {
        return Err(Stop::Mem);
    }
    // The lemma's own row isn't among the facts: the last of them is its denial.
    let facts = descent.path().facts.as_slice();
    match first_fault_of_entailment(alloc, facts, descent.variables(), row, why) {
        Ok(None) => Ok(()),
        Ok(Some(line)) => rejected(alloc, Reject::Line(number, 0, line)),
        Err(RowFault::Coeff) => rejected(alloc, Reject::Coeff(number)),
        Err(RowFault::Mem) => Err(Stop::Mem),
    }
}

#[tactic(auto, using(crate::proofs::Judging::judged_mem))]
/// Whether a void's derivation refutes the facts of its path.
#[inline(never)]
pub fn check_void(
    alloc: Global,
    descent: &Descent<'_>,
    number: u32,
    why: &Derivation,
) -> Result<(), Stop>
    requires { variables (path_at descent.now) < 2 ^ 32 }
    ensures { Judges descent.now.job.now
        (node_on (path_at descent.now) (is_empty why.now)) number result }
{
    if line_count(why).is_none() {
        return Err(Stop::Mem);
    }
    let facts = Facts {
        first: descent.path().facts.as_slice(),
        later: &[],
    };
    match first_fault_among(alloc, facts, descent.variables(), why)? {
        None => Ok(()),
        Some(line) => rejected(alloc, Reject::Line(number, 0, line)),
    }
}

#[tactic(auto, using(crate::proofs::Judging::judged_mem))]
/// Goes through the worlds of a grid: those of its part that are on its path.
#[inline(never)]
pub fn check_grid(
    alloc: Global,
    descent: &Descent<'_>,
    number: u32,
    part: Option<Rect>,
) -> Result<(), Stop>
    requires part { IsPart part (rectangle descent.now.job.now.range (path_at descent.now)) }
    requires within { IfSome part (IsWithin descent.now.job.now.range) }
    ensures { Judges descent.now.job.now (node_on (path_at descent.now) by_worlds) number result }
{
    // Splits above left no world: the assertion is true at each of them.
    let Some(rect) = part else {
        return Ok(());
    };
    if world_count(rect) > 64 {
        return rejected(alloc, Reject::Shape(number));
    }
    // Before any world is judged, so that the cause of a rejection doesn't depend on where the page breaks.
    if first_outside(alloc, descent.job(), descent.above(), rect)?.is_some() {
        return rejected(alloc, Reject::Coeff(number));
    }
    match first_untrue(alloc, descent.job(), descent.above(), rect)? {
        Some(world) => rejected(alloc, Reject::Untrue(number, world)),
        None => Ok(()),
    }
}

#[tactic(auto, using(crate::proofs::Judging::judged_mem))]
/// Lays out a leaf's page by its answers.
#[inline(never)]
pub fn check_answers(
    alloc: Global,
    descent: &Descent<'_>,
    number: u32,
    answers: &[Answer],
) -> Result<(), Stop>
    requires few { variables (path_at descent.now) < 2 ^ 32 }
    ensures { Judges descent.now.job.now
        (node_on (path_at descent.now) (by_answers answers.now)) number result }
{
    let mut sym = Sym::new(descent.path(), answers);
    match check_new_leaf(alloc, descent.job(), number, &mut sym)? {
        Verdict::Accepted => Ok(()),
        Verdict::Rejected(reject) => rejected(alloc, reject),
    }
}

/// The number after a node without children, where it is good.
fn after_end(number: u32, found: Result<(), Stop>) -> Result<u32, Stop>
    requires { number + 1 < 2 ^ 32 }
    ensures tells { (job : Job) (node : Node) → Judges job node number found
        → Tells job (node ∷ []) number result }
    ensures next { IfOk result (λ next. next ≡ number + 1) }
{
    match found {
        Ok(()) => Ok(number + 1),
        Err(stop) => Err(stop),
    }
}

/// Goes through a node and all below it, in preorder, and gives the number of the node after them.
#[cycle(nodes)]
pub fn check_node<'a>(
    alloc: Global,
    descent: &mut Descent<'a>,
    node: &'a CertNode,
    number: u32,
    part: Option<Rect>,
) -> Result<u32, Stop>
    requires few { number + node_count node.now + axis_count descent.old.job.now.form < 2 ^ 32 }
    requires variables { variables (path_at descent.old)
        ≤ number + axis_count descent.old.job.now.form }
    requires part { IsPart part (rectangle descent.old.job.now.range (path_at descent.old)) }
    requires within { IfSome part (IsWithin descent.old.job.now.range) }
    ensures tells { Tells descent.old.job.now
        (nodes_from node.now (path_at descent.old)) number result }
    ensures next { IfOk result (λ next. next ≡ number + node_count node.now) }
    ensures job { OnOk result (descent.new.job.now ≡ descent.old.job.now) }
    ensures above { OnOk result (path_at descent.new ≡ path_at descent.old) }
{
    match node {
        CertNode::Def(row, by, below) => {
            let row = row.get();
            let by = *by.get();
            match check_def(alloc, descent, number, row, by) {
                Ok(()) => check_below(alloc, descent, row, by, below.get(), number + 1, part),
                Err(stop) => Err(stop),
            }
        }
        CertNode::Split(row, first, second) => {
            let row = row.get();
            match check_split(alloc, descent, number, row) {
                Ok(()) => check_parts(
                    alloc,
                    descent,
                    row,
                    first.get(),
                    second.get(),
                    number + 1,
                    part,
                ),
                Err(stop) => Err(stop),
            }
        }
        CertNode::Lemma(row, why, below) => {
            let row = row.get();
            match check_lemma(alloc, descent, number, row, why.get()) {
                Ok(()) => check_under(alloc, descent, row, below.get(), number + 1, part),
                Err(stop) => Err(stop),
            }
        }
        CertNode::Void(why) => after_end(number, check_void(alloc, descent, number, why.get())),
        CertNode::Grid => after_end(number, check_grid(alloc, descent, number, part)),
        CertNode::Leaf(answers) => after_end(
            number,
            check_answers(alloc, descent, number, answers.as_slice()),
        ),
    }
}

/// Goes through what is below a well shaped def.
#[cycle(nodes)]
fn check_below<'a>(
    alloc: Global,
    descent: &mut Descent<'a>,
    row: &'a Row,
    by: i128,
    node: &'a CertNode,
    number: u32,
    part: Option<Rect>,
) -> Result<u32, Stop>
    requires few { number + node_count node.now + axis_count descent.old.job.now.form < 2 ^ 32 }
    requires variables { variables (path_at descent.old) + 1
        ≤ number + axis_count descent.old.job.now.form }
    requires shaped { IsTrue (is_shaped descent.old.job.now.range (path_at descent.old)
        (names row.now by)) }
    requires part { IsPart part (rectangle descent.old.job.now.range (path_at descent.old)) }
    requires within { IfSome part (IsWithin descent.old.job.now.range) }
    ensures tells { Tells descent.old.job.now
        (nodes_from node.now (def row.now by ▸ path_at descent.old)) number result }
    ensures next { IfOk result (λ next. next ≡ number + node_count node.now) }
    ensures job { OnOk result (descent.new.job.now ≡ descent.old.job.now) }
    ensures above { OnOk result (path_at descent.new ≡ path_at descent.old) }
{
    match descent.enter_def(row, by) {
        Ok(()) => {
            let next = check_node(alloc, descent, node, number, part)?;
            descent.leave_def();
            Ok(next)
        }
        Err(_) => Err(Stop::Mem),
    }
}

/// Goes through what is below a lemma that was derived.
#[cycle(nodes)]
fn check_under<'a>(
    alloc: Global,
    descent: &mut Descent<'a>,
    row: &'a Row,
    node: &'a CertNode,
    number: u32,
    part: Option<Rect>,
) -> Result<u32, Stop>
    requires few { number + node_count node.now + axis_count descent.old.job.now.form < 2 ^ 32 }
    requires variables { variables (path_at descent.old)
        ≤ number + axis_count descent.old.job.now.form }
    requires declared { IsTrue (is_declared (path_at descent.old) row.now) }
    requires entailed { IsEntailed descent.old.job.now.range (path_at descent.old) row.now }
    requires part { IsPart part (rectangle descent.old.job.now.range (path_at descent.old)) }
    requires within { IfSome part (IsWithin descent.old.job.now.range) }
    ensures tells { Tells descent.old.job.now
        (nodes_from node.now (lemma row.now ▸ path_at descent.old)) number result }
    ensures next { IfOk result (λ next. next ≡ number + node_count node.now) }
    ensures job { OnOk result (descent.new.job.now ≡ descent.old.job.now) }
    ensures above { OnOk result (path_at descent.new ≡ path_at descent.old) }
{
    match descent.enter_lemma(row) {
        Ok(()) => {
            let next = check_node(alloc, descent, node, number, part)?;
            descent.leave_row();
            Ok(next)
        }
        Err(_) => Err(Stop::Mem),
    }
}

/// Goes through both parts of a well shaped split.
#[cycle(nodes)]
fn check_parts<'a>(
    alloc: Global,
    descent: &mut Descent<'a>,
    row: &'a Row,
    one: &'a CertNode,
    other: &'a CertNode,
    number: u32,
    part: Option<Rect>,
) -> Result<u32, Stop>
    requires few { number +
        (node_count one.now + node_count other.now) + axis_count descent.old.job.now.form < 2 ^ 32 }
    requires variables { variables (path_at descent.old)
        ≤ number + axis_count descent.old.job.now.form }
    requires declared { IsTrue (is_declared (path_at descent.old) row.now) }
    requires fits { IsTrue (form_fits (denied row.now)) }
    requires part { IsPart part (rectangle descent.old.job.now.range (path_at descent.old)) }
    requires within { IfSome part (IsWithin descent.old.job.now.range) }
    ensures tells { Tells descent.old.job.now
        (nodes_from one.now (first row.now ▸ path_at descent.old)
        ++ nodes_from other.now (second row.now ▸ path_at descent.old)) number result }
    ensures next { IfOk result (λ next. next
        ≡ number + (node_count one.now + node_count other.now)) }
    ensures job { OnOk result (descent.new.job.now ≡ descent.old.job.now) }
    ensures above { OnOk result (path_at descent.new ≡ path_at descent.old) }
{
    match check_first(alloc, descent, row, one, number, part) {
        Ok(next) => check_second(alloc, descent, row, other, next, part),
        Err(stop) => Err(stop),
    }
}

/// Goes through the first part of a split.
#[cycle(nodes)]
fn check_first<'a>(
    alloc: Global,
    descent: &mut Descent<'a>,
    row: &'a Row,
    node: &'a CertNode,
    number: u32,
    part: Option<Rect>,
) -> Result<u32, Stop>
    requires few { number + node_count node.now + axis_count descent.old.job.now.form < 2 ^ 32 }
    requires variables { variables (path_at descent.old)
        ≤ number + axis_count descent.old.job.now.form }
    requires declared { IsTrue (is_declared (path_at descent.old) row.now) }
    requires part { IsPart part (rectangle descent.old.job.now.range (path_at descent.old)) }
    requires within { IfSome part (IsWithin descent.old.job.now.range) }
    ensures tells { Tells descent.old.job.now
        (nodes_from node.now (first row.now ▸ path_at descent.old)) number result }
    ensures next { IfOk result (λ next. next ≡ number + node_count node.now) }
    ensures job { OnOk result (descent.new.job.now ≡ descent.old.job.now) }
    ensures above { OnOk result (path_at descent.new ≡ path_at descent.old) }
{
    match descent.enter_first(row) {
        Ok(()) => {
            let part = child_part(descent.job().form, row, Child::First, part);
            let next = check_node(alloc, descent, node, number, part)?;
            descent.leave_row();
            Ok(next)
        }
        Err(_) => Err(Stop::Mem),
    }
}

/// Goes through the second part of a split.
#[cycle(nodes)]
fn check_second<'a>(
    alloc: Global,
    descent: &mut Descent<'a>,
    row: &'a Row,
    node: &'a CertNode,
    number: u32,
    part: Option<Rect>,
) -> Result<u32, Stop>
    requires few { number + node_count node.now + axis_count descent.old.job.now.form < 2 ^ 32 }
    requires variables { variables (path_at descent.old)
        ≤ number + axis_count descent.old.job.now.form }
    requires declared { IsTrue (is_declared (path_at descent.old) row.now) }
    requires fits { IsTrue (form_fits (denied row.now)) }
    requires part { IsPart part (rectangle descent.old.job.now.range (path_at descent.old)) }
    requires within { IfSome part (IsWithin descent.old.job.now.range) }
    ensures tells { Tells descent.old.job.now
        (nodes_from node.now (second row.now ▸ path_at descent.old)) number result }
    ensures next { IfOk result (λ next. next ≡ number + node_count node.now) }
    ensures job { OnOk result (descent.new.job.now ≡ descent.old.job.now) }
    ensures above { OnOk result (path_at descent.new ≡ path_at descent.old) }
{
    match descent.enter_second(row) {
        Ok(()) => {
            let part = child_part(descent.job().form, row, Child::Second, part);
            let next = check_node(alloc, descent, node, number, part)?;
            descent.leave_row();
            Ok(next)
        }
        Err(_) => Err(Stop::Mem),
    }
}
