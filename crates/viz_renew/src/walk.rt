//! The walk through a certificate, which goes on behind each node.
ghost use Rattle.std.specs.Prelude.{◌≡◌, ◌+◌, ◌++◌, ℕ, Bool, true, false, IfOk, OnOk};
ghost use Rattle.viz_base.specs.declared.jobs.Job.{Job};
ghost use Rattle.cert_text.specs.Nodes.{node_count};
ghost use Rattle.cert_semantics.specs.Derived.{IsEntailed};
ghost use Rattle.cert_semantics.specs.Nodes.{by_answers, by_worlds, node_on, nodes_from};
ghost use Rattle.cert_semantics.specs.Paths.{Path, def, first, second, lemma};
ghost use Rattle.cert_check.specs.steps.Ways.{path_at};
ghost use Rattle.viz_renew.specs.Pieces.{Keeps, is_firm, stands, with_grid, with_leaf};
ghost use Rattle.viz_renew.specs.steps.Bare.{IsFoundGood};
ghost use Rattle.viz_renew.specs.steps.Walks.{IsHere, KeepsBelow, KeepsBoth, KeepsHere};

use crate::counts::Kept;
use crate::here::Here;
use crate::judges::{is_derived, is_firm_row, is_good_grid, is_good_leaf};
use cert_check::{Descent, child_part, is_shaped_def};
use cert_text::CertNode;
use lin_proof::{Answer, Derivation, Row};
use viz_base::{Child, Mem};

/// Counts a node and all below it, none of which is kept.
fn pass_node(node: &CertNode, kept: Kept) -> Result<Kept, Mem>
    ensures { IfOk result (λ next. (job : Job) (path : Path) → stands job.range path ≡ false
        → Keeps job (nodes_from node.now path) kept next) }
{
    match node {
        CertNode::Def(_, _, below) => pass_node(below.get(), kept),
        CertNode::Lemma(_, _, below) => pass_node(below.get(), kept),
        CertNode::Split(_, first, second) => {
            let kept = pass_node(first.get(), kept)?;
            pass_node(second.get(), kept)
        }
        CertNode::Void(_) => Ok(kept),
        CertNode::Grid => kept.with_grid(false),
        CertNode::Leaf(_) => kept.with_leaf(false),
    }
}

/// Counts both parts of a split that doesn't stand.
fn pass_both(one: &CertNode, other: &CertNode, kept: Kept) -> Result<Kept, Mem>
    ensures { IfOk result (λ next. (job : Job) (here there : Path) → stands job.range here ≡ false
        → stands job.range there ≡ false
        → Keeps job (nodes_from one.now here ++ nodes_from other.now there) kept next) }
{
    let kept = pass_node(one, kept)?;
    pass_node(other, kept)
}

/// Counts a grid, which is kept if it is good.
fn keep_grid(descent: &Descent<'_>, here: Here) -> Result<Kept, Mem>
    requires { (more : ℕ) × IsHere descent.now here more }
    ensures { IfOk result (λ next. (so : Bool) × (next ≡ with_grid so here.kept)
        × IsFoundGood descent.now.job.now (node_on (path_at descent.now) by_worlds) so) }
{
    let good = is_good_grid(here.alloc, descent, here.part)?;
    here.kept.with_grid(good)
}

/// Counts a leaf, which is kept if it is good.
fn keep_leaf(descent: &Descent<'_>, answers: &[Answer], here: Here) -> Result<Kept, Mem>
    requires { (more : ℕ) × IsHere descent.now here more }
    ensures { IfOk result (λ next. (so : Bool) × (next ≡ with_leaf so here.kept)
        × IsFoundGood descent.now.job.now
        (node_on (path_at descent.now) (by_answers answers.now)) so) }
{
    let good = is_good_leaf(here.alloc, descent, answers)?;
    here.kept.with_leaf(good)
}

/// Counts a node and all below it, and what of it is kept.
#[cycle(nodes)]
pub(crate) fn keep_node<'a>(
    descent: &mut Descent<'a>,
    node: &'a CertNode,
    here: Here,
) -> Result<Kept, Mem>
    requires { IsHere descent.old here (node_count node.now) }
    ensures keeps { IfOk result (KeepsHere descent.old.job.now
        (path_at descent.old) node.now here.kept) }
    ensures job { OnOk result (descent.new.job.now ≡ descent.old.job.now) }
    ensures above { OnOk result (path_at descent.new ≡ path_at descent.old) }
{
    match node {
        CertNode::Def(row, by, below) => {
            let row = row.get();
            let by = *by.get();
            keep_def(descent, row, by, below.get(), here)
        }
        CertNode::Split(row, one, other) => {
            let row = row.get();
            keep_split(descent, row, one.get(), other.get(), here)
        }
        CertNode::Lemma(row, why, below) => {
            let row = row.get();
            let why = why.get();
            keep_lemma(descent, row, why, below.get(), here)
        }
        CertNode::Void(_) => Ok(here.kept),
        CertNode::Grid => keep_grid(descent, here),
        CertNode::Leaf(answers) => keep_leaf(descent, answers.as_slice(), here),
    }
}

/// What is below a def.
#[cycle(nodes)]
fn keep_def<'a>(
    descent: &mut Descent<'a>,
    row: &'a Row,
    by: i128,
    node: &'a CertNode,
    here: Here,
) -> Result<Kept, Mem>
    requires { IsHere descent.old here (node_count node.now + 1) }
    ensures keeps { IfOk result (KeepsBelow descent.old.job.now (path_at descent.old)
        (def row.now by) node.now here.kept) }
    ensures job { OnOk result (descent.new.job.now ≡ descent.old.job.now) }
    ensures above { OnOk result (path_at descent.new ≡ path_at descent.old) }
{
    let shaped = is_shaped_def(descent, row, by)?;
    if !shaped {
        return pass_node(node, here.kept);
    }
    descent.enter_def(row, by)?;
    let kept = keep_node(descent, node, here)?;
    descent.leave_def();
    Ok(kept)
}

/// What is below a lemma, whose row is a fact there only if it is derived.
#[cycle(nodes)]
fn keep_lemma<'a>(
    descent: &mut Descent<'a>,
    row: &'a Row,
    why: &'a Derivation,
    node: &'a CertNode,
    here: Here,
) -> Result<Kept, Mem>
    requires { IsHere descent.old here (node_count node.now + 1) }
    ensures keeps { IfOk result (KeepsBelow descent.old.job.now (path_at descent.old)
        (lemma row.now) node.now here.kept) }
    ensures job { OnOk result (descent.new.job.now ≡ descent.old.job.now) }
    ensures above { OnOk result (path_at descent.new ≡ path_at descent.old) }
{
    let firm = is_firm_row(descent, row)?;
    if !firm {
        return pass_node(node, here.kept);
    }
    let derived = is_derived(here.alloc, descent, row, why)?;
    if derived {
        keep_under(descent, row, node, here)
    } else {
        // At which worlds the formula is true doesn't hang on it, so grids below may be kept, and leaves without it.
        keep_node(descent, node, here)
    }
}

/// What is below a lemma that is derived.
#[cycle(nodes)]
fn keep_under<'a>(
    descent: &mut Descent<'a>,
    row: &'a Row,
    node: &'a CertNode,
    here: Here,
) -> Result<Kept, Mem>
    requires here { IsHere descent.old here (node_count node.now + 1) }
    requires firm { is_firm descent.old.job.now.range (path_at descent.old) (lemma row.now) ≡ true }
    requires entailed { IsEntailed descent.old.job.now.range (path_at descent.old) row.now }
    ensures keeps { IfOk result (KeepsBelow descent.old.job.now (path_at descent.old)
        (lemma row.now) node.now here.kept) }
    ensures job { OnOk result (descent.new.job.now ≡ descent.old.job.now) }
    ensures above { OnOk result (path_at descent.new ≡ path_at descent.old) }
{
    descent.enter_lemma(row)?;
    let kept = keep_node(descent, node, here)?;
    descent.leave_row();
    Ok(kept)
}

/// What is in both parts of a split.
#[cycle(nodes)]
fn keep_split<'a>(
    descent: &mut Descent<'a>,
    row: &'a Row,
    one: &'a CertNode,
    other: &'a CertNode,
    here: Here,
) -> Result<Kept, Mem>
    requires { IsHere descent.old here (node_count one.now + node_count other.now + 1) }
    ensures keeps { IfOk result (KeepsBoth descent.old.job.now
        (path_at descent.old) row.now one.now other.now here.kept) }
    ensures job { OnOk result (descent.new.job.now ≡ descent.old.job.now) }
    ensures above { OnOk result (path_at descent.new ≡ path_at descent.old) }
{
    let firm = is_firm_row(descent, row)?;
    if !firm {
        return pass_both(one, other, here.kept);
    }
    let kept = keep_first(descent, row, one, here)?;
    keep_second(descent, row, other, here.with(kept))
}

/// What is in the first part of a split.
#[cycle(nodes)]
fn keep_first<'a>(
    descent: &mut Descent<'a>,
    row: &'a Row,
    node: &'a CertNode,
    here: Here,
) -> Result<Kept, Mem>
    requires here { IsHere descent.old here (node_count node.now + 1) }
    requires firm { is_firm descent.old.job.now.range (path_at descent.old) (first row.now) ≡ true }
    ensures keeps { IfOk result (KeepsBelow descent.old.job.now (path_at descent.old)
        (first row.now) node.now here.kept) }
    ensures job { OnOk result (descent.new.job.now ≡ descent.old.job.now) }
    ensures above { OnOk result (path_at descent.new ≡ path_at descent.old) }
{
    descent.enter_first(row)?;
    let part = child_part(descent.job().form, row, Child::First, here.part);
    let kept = keep_node(descent, node, here.in_part(part))?;
    descent.leave_row();
    Ok(kept)
}

/// What is in the second part of a split.
#[cycle(nodes)]
fn keep_second<'a>(
    descent: &mut Descent<'a>,
    row: &'a Row,
    node: &'a CertNode,
    here: Here,
) -> Result<Kept, Mem>
    requires here { IsHere descent.old here (node_count node.now + 1) }
    requires firm { is_firm descent.old.job.now.range (path_at descent.old) (second row.now)
        ≡ true }
    ensures keeps { IfOk result (KeepsBelow descent.old.job.now (path_at descent.old)
        (second row.now) node.now here.kept) }
    ensures job { OnOk result (descent.new.job.now ≡ descent.old.job.now) }
    ensures above { OnOk result (path_at descent.new ≡ path_at descent.old) }
{
    descent.enter_second(row)?;
    let part = child_part(descent.job().form, row, Child::Second, here.part);
    let kept = keep_node(descent, node, here.in_part(part))?;
    descent.leave_row();
    Ok(kept)
}
