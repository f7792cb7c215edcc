//! Judges the nodes of a certificate as they are read, and holds only the way down to the one that is due.
ghost use Rattle.std.specs.Prelude.{◌≡◌, ◌+◌, ◌<◌, ◌^◌, [], ◌∷◌, ◌++◌, length, Some, IfOk, OnOk};
ghost use Rattle.viz_base.specs.declared.jobs.Job.{Job};
ghost use Rattle.cert_text.specs.declared.certificate.Piece.TheVariants as of_piece;
ghost use Rattle.cert_semantics.specs.Axes.{axis_count};
ghost use Rattle.cert_semantics.specs.Nodes.{Node};
ghost use Rattle.cert_semantics.specs.Paths.{root};
ghost use Rattle.cert_check.specs.declared.visits.Last.TheVariants.{First};
ghost use Rattle.cert_check.specs.steps.Stream.{CanTurn, IsDue, IsReady, due_behind, last_of, nodes_here, seconds};
ghost use Rattle.cert_check.specs.steps.Tells.{Judges, Tells};
ghost use Rattle.cert_check.specs.steps.Ways.{path_at};

use crate::descent::{Above, Descent};
use crate::walk::{
    Stop, check_answers, check_def, check_grid, check_lemma, check_split, check_void, child_part,
};
use cert_text::Piece;
use lin_proof::{Answer, Derivation, Row};
use std::alloc::{AllocError, Global};
use viz_base::{Child, Job, Mem, Rect};

/// A split of whose first part nodes are still to come, and its own part of the rectangle.
#[derive(Drop)]
pub struct Pending {
    row: Row,
    part: Option<Rect>,
}

/// What the last step of a way is.
#[derive(Clone, Copy)]
pub enum Last {
    /// To below a def.
    Def,
    /// To the first part of a split.
    First,
    /// To the second part of a split, or below a lemma.
    Other,
}

/// The last step of a way; none at the root.
fn last_of(descent: &Descent<'_>) -> Option<Last>
    ensures { result ≡ last_of (path_at descent.now) }
{
    match descent.above().last()? {
        Above::Def(..) => Some(Last::Def),
        Above::First(_) => Some(Last::First),
        Above::Second(_) | Above::Lemma(_) => Some(Last::Other),
    }
}

/// Holds a split more.
fn hold(pending: &mut Vec<Pending>, split: Pending) -> Result<(), AllocError>
    ensures { OnOk result (pending.new.items ≡ pending.old.items ++ split ∷ []) }
{
    pending.push(split)?;
    Ok(())
}

/// Goes through the nodes of a certificate in preorder, one after another as they come. It holds the way down to the
/// node that is due, however many nodes came before.
#[derive(Drop)]
pub struct Visits<'a> {
    descent: Descent<'a>,
    /// The part of the node that is due, as the unit splits above it cut the rectangle; none where they left no world.
    part: Option<Rect>,
    /// The splits above it whose second part is still to come, from the root down.
    pending: Vec<Pending>,
}

impl<'a> Visits<'a> {
    /// Before the root of a certificate for a job.
    pub fn new(alloc: Global, job: &'a Job) -> Result<Self, AllocError>
        ensures job { IfOk result (λ visits. visits.descent.job.now ≡ job.now) }
        ensures due { IfOk result (λ visits. IsDue visits 0 (root job.now.form ∷ [])) }
    {
        Ok(Visits {
            descent: Descent::new(alloc, job)?,
            part: Some(job.range),
            pending: Vec::new(alloc),
        })
    }

    /// Goes on to the second part that is due next, if there is one, behind a node of this number without children.
    fn turn(&mut self, number: u32) -> Result<u32, Mem>
        requires few { number + 1 < 2 ^ 32 }
        requires turns { CanTurn self.old (number + 1) }
        ensures next { IfOk result (λ next. next ≡ number + 1) }
        ensures job { OnOk result (self.new.descent.job.now ≡ self.old.descent.job.now) }
        ensures due { IfOk result (λ next. IsDue self.new next
            (seconds (path_at self.old.descent))) }
    {
        while let Some(last) = last_of(&self.descent) {
            match last {
                Last::Def => self.descent.leave_def(),
                Last::First => return self.turn_here(number),
                Last::Other => self.descent.leave_row(),
            }
        }
        Ok(number + 1)
    }

    /// Goes from the first part of a split to the second.
    fn turn_here(&mut self, number: u32) -> Result<u32, Mem>
        requires few { number + 1 < 2 ^ 32 }
        requires first { last_of (path_at self.old.descent) ≡ Some First }
        requires turns { CanTurn self.old (number + 1) }
        ensures next { IfOk result (λ next. next ≡ number + 1) }
        ensures job { OnOk result (self.new.descent.job.now ≡ self.old.descent.job.now) }
        ensures due { IfOk result (λ next. IsDue self.new next
            (seconds (path_at self.old.descent))) }
    {
        let Some(Pending { row, part }) = self.pending.pop() else {
            unreachable!()
        };
        self.descent.leave_row();
        self.descent.enter_second(&row)?;
        self.part = child_part(self.descent.job().form, &row, Child::Second, part);
        Ok(number + 1)
    }

    /// Goes on behind a node without children, if it is good.
    fn after_end(&mut self, number: u32, found: Result<(), Stop>) -> Result<u32, Stop>
        requires few { number + 1 < 2 ^ 32 }
        requires ready { IsReady self.old number }
        ensures tells { (job : Job) (node : Node) → Judges job node number found
            → Tells job (node ∷ []) number result }
        ensures next { IfOk result (λ next. next ≡ number + 1) }
        ensures job { OnOk result (self.new.descent.job.now ≡ self.old.descent.job.now) }
        ensures due { IfOk result (λ next. IsDue self.new next
            (seconds (path_at self.old.descent))) }
    {
        match found {
            Ok(()) => Ok(self.turn(number)?),
            Err(stop) => Err(stop),
        }
    }

    fn visit_def(&mut self, alloc: Global, row: &Row, by: i128, number: u32) -> Result<u32, Stop>
        requires few { number + 1 + axis_count self.old.descent.job.now.form < 2 ^ 32 }
        requires ready { IsReady self.old number }
        ensures tells { Tells self.old.descent.job.now
            (nodes_here self.old (of_piece.Def row.now by)) number result }
        ensures next { IfOk result (λ next. next ≡ number + 1) }
        ensures job { OnOk result (self.new.descent.job.now ≡ self.old.descent.job.now) }
        ensures due { IfOk result (λ next. IsDue self.new next
            (due_behind self.old (of_piece.Def row.now by))) }
    {
        check_def(alloc, &self.descent, number, row, by)?;
        self.descent.enter_def(row, by)?;
        Ok(number + 1)
    }

    fn visit_split(&mut self, alloc: Global, row: Row, number: u32) -> Result<u32, Stop>
        requires few { number + 1 + axis_count self.old.descent.job.now.form < 2 ^ 32 }
        requires ready { IsReady self.old number }
        ensures tells { Tells self.old.descent.job.now
            (nodes_here self.old (of_piece.Split row)) number result }
        ensures next { IfOk result (λ next. next ≡ number + 1) }
        ensures job { OnOk result (self.new.descent.job.now ≡ self.old.descent.job.now) }
        ensures due { IfOk result (λ next. IsDue self.new next
            (due_behind self.old (of_piece.Split row))) }
    {
        check_split(alloc, &self.descent, number, &row)?;
        self.descent.enter_first(&row)?;
        let part = self.part;
        self.part = child_part(self.descent.job().form, &row, Child::First, part);
        hold(&mut self.pending, Pending { row, part })?;
        Ok(number + 1)
    }

    fn visit_lemma(
        &mut self,
        alloc: Global,
        row: &Row,
        why: &Derivation,
        number: u32,
    ) -> Result<u32, Stop>
        requires few { number + 1 + axis_count self.old.descent.job.now.form < 2 ^ 32 }
        requires ready { IsReady self.old number }
        ensures tells { Tells self.old.descent.job.now
            (nodes_here self.old (of_piece.Lemma row.now why.now)) number result }
        ensures next { IfOk result (λ next. next ≡ number + 1) }
        ensures job { OnOk result (self.new.descent.job.now ≡ self.old.descent.job.now) }
        ensures due { IfOk result (λ next. IsDue self.new next
            (due_behind self.old (of_piece.Lemma row.now why.now))) }
    {
        check_lemma(alloc, &self.descent, number, row, why)?;
        self.descent.enter_lemma(row)?;
        Ok(number + 1)
    }

    fn visit_void(&mut self, alloc: Global, why: &Derivation, number: u32) -> Result<u32, Stop>
        requires few { number + 1 + axis_count self.old.descent.job.now.form < 2 ^ 32 }
        requires ready { IsReady self.old number }
        ensures tells { Tells self.old.descent.job.now
            (nodes_here self.old (of_piece.Void why.now)) number result }
        ensures next { IfOk result (λ next. next ≡ number + 1) }
        ensures job { OnOk result (self.new.descent.job.now ≡ self.old.descent.job.now) }
        ensures due { IfOk result (λ next. IsDue self.new next
            (due_behind self.old (of_piece.Void why.now))) }
    {
        let found = check_void(alloc, &self.descent, number, why);
        self.after_end(number, found)
    }

    fn visit_grid(&mut self, alloc: Global, number: u32) -> Result<u32, Stop>
        requires few { number + 1 + axis_count self.old.descent.job.now.form < 2 ^ 32 }
        requires ready { IsReady self.old number }
        ensures tells { Tells self.old.descent.job.now
            (nodes_here self.old of_piece.Grid) number result }
        ensures next { IfOk result (λ next. next ≡ number + 1) }
        ensures job { OnOk result (self.new.descent.job.now ≡ self.old.descent.job.now) }
        ensures due { IfOk result (λ next. IsDue self.new next
            (due_behind self.old of_piece.Grid)) }
    {
        let found = check_grid(alloc, &self.descent, number, self.part);
        self.after_end(number, found)
    }

    fn visit_leaf(&mut self, alloc: Global, answers: &[Answer], number: u32) -> Result<u32, Stop>
        requires few { number + 1 + axis_count self.old.descent.job.now.form < 2 ^ 32 }
        requires ready { IsReady self.old number }
        ensures tells { Tells self.old.descent.job.now
            (nodes_here self.old (of_piece.Leaf answers.now)) number result }
        ensures next { IfOk result (λ next. next ≡ number + 1) }
        ensures job { OnOk result (self.new.descent.job.now ≡ self.old.descent.job.now) }
        ensures due { IfOk result (λ next. IsDue self.new next
            (due_behind self.old (of_piece.Leaf answers.now))) }
    {
        let found = check_answers(alloc, &self.descent, number, answers);
        self.after_end(number, found)
    }

    /// Judges the node of a piece, which has this number, and goes on to the next; a head is passed over. Gives the
    /// number of the next.
    pub fn visit(&mut self, alloc: Global, piece: Piece, number: u32) -> Result<u32, Stop>
        requires few { number + 1 + axis_count self.old.descent.job.now.form < 2 ^ 32 }
        requires ready { IsReady self.old number }
        ensures tells { Tells self.old.descent.job.now (nodes_here self.old piece) number result }
        ensures next { IfOk result (λ next. next ≡ number + length (nodes_here self.old piece)) }
        ensures job { OnOk result (self.new.descent.job.now ≡ self.old.descent.job.now) }
        ensures due { IfOk result (λ next. IsDue self.new next (due_behind self.old piece)) }
    {
        match piece {
            Piece::Head { .. } => Ok(number),
            Piece::Def(row, by) => self.visit_def(alloc, &row, by, number),
            Piece::Split(row) => self.visit_split(alloc, row, number),
            Piece::Lemma(row, why) => self.visit_lemma(alloc, &row, &why, number),
            Piece::Void(why) => self.visit_void(alloc, &why, number),
            Piece::Grid => self.visit_grid(alloc, number),
            Piece::Leaf(answers) => self.visit_leaf(alloc, answers.as_slice(), number),
        }
    }
}
