//! The way from the root of a certificate down to a node, with the facts and floors that it gives.
ghost use Rattle.std.specs.Prelude.{◌≡◌, ◌<◌, ◌^◌, [], IfOk, IsTrue, OnOk};
ghost use Rattle.lin_proof.specs.Form.{IsCanonical, denied, form_fits};
ghost use Rattle.cert_semantics.specs.Facts.{facts};
ghost use Rattle.cert_semantics.specs.Nodes.{names};
ghost use Rattle.cert_semantics.specs.Paths.{def, first, second, lemma, ◌▸◌, is_declared, variables};
ghost use Rattle.cert_semantics.specs.Shapes.{is_shaped};
ghost use Rattle.cert_semantics.specs.Derived.{AreEntailed, IsEntailed};
ghost use Rattle.sym_calc.specs.Floors.{floors_of};
ghost use Rattle.sym_calc.specs.Laws.{origin_of};
ghost use Rattle.cert_check.specs.steps.Descent.{path_of, are_sound, entailed_above, is_below_def, is_below_row, outer_of};

use cert_semantics::axis_count;
use lin_proof::{Row, RowFault};
use std::alloc::{AllocError, Global};
use sym_calc::{Floor, Path};
use viz_base::{Job, List, Mem};

/// A def, a split or a lemma above a node, and in which part of a split the node lies.
#[derive(Drop)]
pub enum Above {
    /// A def of a row and a number.
    Def(Row, i128),
    /// A split by a row, the node being in the first part.
    First(Row),
    /// A split by a row, the node being in the second part.
    Second(Row),
    /// A lemma of a row.
    Lemma(Row),
}

/// The way from the root of a certificate down to a node, which goes down and back up: the defs, splits and lemmas in
/// their order, each lemma derived, and the facts and floors that they give.
#[derive(Drop)]
pub struct Descent<'a> {
    job: &'a Job,
    path: Path,
    above: List<Above>,
    ghost origin: { path.origin ≡ origin_of job.now.range (path_of job.now.form above) },
    ghost entailed: { AreEntailed job.now.range (path_of job.now.form above) } by { entailed_above job.now above },
    ghost sound: { IsTrue (are_sound (path_of job.now.form above)) },
    ghost facts: { path.facts ≡ facts job.now.range (path_of job.now.form above) },
    ghost floors: { path.floors ≡ floors_of (path_of job.now.form above) },
}

/// Tells the proof that a row's variables ascend, as each row's do.
fn note_order(row: &Row)
    ensures { IsCanonical row.now.terms }
{
    let _terms = &row.terms;
}

impl<'a> Descent<'a> {
    ghost use Rattle.cert_check.specs.steps.Ways.{path_at};

    /// At the root of a certificate for a job.
    pub fn new(alloc: Global, job: &'a Job) -> Result<Self, AllocError>
        ensures job { IfOk result (λ descent. descent.job.now ≡ job.now) }
        ensures above { IfOk result (λ descent. descent.above ≡ []) }
    {
        Ok(Descent {
            job,
            path: Path::new(alloc, job.form, job.range)?,
            above: List::new(alloc),
        })
    }

    /// The job of the certificate.
    pub fn job(&self) -> &'a Job
        ensures { result.now ≡ self.now.job.now }
    {
        self.job
    }

    /// The facts and floors of the path down to the node.
    pub fn path(&self) -> &Path
        ensures facts { result.now.facts ≡ facts self.now.job.now.range (path_at self.now) }
        ensures origin { result.now.origin
            ≡ origin_of self.now.job.now.range (path_at self.now) }
        ensures floors { result.now.floors ≡ floors_of (path_at self.now) }
    {
        &self.path
    }

    /// The defs, splits and lemmas above the node, from the root down.
    pub fn above(&self) -> &[Above]
        ensures { result.now ≡ self.now.above }
    {
        self.above.as_slice()
    }

    /// How many variables are declared at the node: those of the axes, and one for each def above.
    pub fn variables(&self) -> u32
        requires { variables (path_at self.now) < 2 ^ 32 }
        ensures { result ≡ variables (path_at self.now) }
    {
        self.path.floors.len() as u32 + axis_count(self.job.form)
    }

    /// Goes below a well shaped def.
    #[inline(never)]
    pub fn enter_def(&mut self, row: &Row, by: i128) -> Result<(), Mem>
        requires shaped { IsTrue (is_shaped self.old.job.now.range (path_at self.old)
            (names row.now by)) }
        requires room { variables (path_at self.old) < 2 ^ 32 }
        ensures job { OnOk result (self.new.job.now ≡ self.old.job.now) }
        ensures above { OnOk result (path_at self.new ≡ def row.now by ▸ path_at self.old) }
    {
        let variable = self.variables();
        let floor = Floor {
            row: row.clone()?,
            by,
        };
        let count = self.above.len();
        self.above.push(Above::Def(row.clone()?, by))?;
        match self.path.define(floor, variable) {
            Ok(()) => Ok(()),
            Err(RowFault::Mem) => {
                self.above.truncate(count);
                Err(Mem)
            }
            Err(RowFault::Coeff) => {
                // The numbers of a well shaped def are from 0 to its divisor, and so its facts are in `i128`.
                note_order(row);
                unreachable!()
            }
        }
    }

    /// Goes to the first part of a split by a row of declared variables.
    #[inline(never)]
    pub fn enter_first(&mut self, row: &Row) -> Result<(), AllocError>
        requires { IsTrue (is_declared (path_at self.old) row.now) }
        ensures job { OnOk result (self.new.job.now ≡ self.old.job.now) }
        ensures above { OnOk result (path_at self.new ≡ first row.now ▸ path_at self.old) }
    {
        let count = self.above.len();
        self.above.push(Above::First(row.clone()?))?;
        match self.path.enter_first(row) {
            Ok(()) => Ok(()),
            Err(fault) => {
                self.above.truncate(count);
                Err(fault)
            }
        }
    }

    /// Goes to the second part of a split by a row of declared variables, whose denial is in `i128`.
    #[inline(never)]
    pub fn enter_second(&mut self, row: &Row) -> Result<(), Mem>
        requires declared { IsTrue (is_declared (path_at self.old) row.now) }
        requires fits { IsTrue (form_fits (denied row.now)) }
        ensures job { OnOk result (self.new.job.now ≡ self.old.job.now) }
        ensures above { OnOk result (path_at self.new ≡ second row.now ▸ path_at self.old) }
    {
        let count = self.above.len();
        self.above.push(Above::Second(row.clone()?))?;
        match self.path.enter_second(row) {
            Ok(()) => Ok(()),
            Err(RowFault::Mem) => {
                self.above.truncate(count);
                Err(Mem)
            }
            Err(RowFault::Coeff) => unreachable!(),
        }
    }

    /// Goes below a lemma, whose row some derivation entails here.
    #[inline(never)]
    pub fn enter_lemma(&mut self, row: &Row) -> Result<(), AllocError>
        requires declared { IsTrue (is_declared (path_at self.old) row.now) }
        requires entailed { IsEntailed self.old.job.now.range (path_at self.old) row.now }
        ensures job { OnOk result (self.new.job.now ≡ self.old.job.now) }
        ensures above { OnOk result (path_at self.new ≡ lemma row.now ▸ path_at self.old) }
    {
        let count = self.above.len();
        self.above.push(Above::Lemma(row.clone()?))?;
        match self.path.enter_lemma(row) {
            Ok(()) => Ok(()),
            Err(fault) => {
                self.above.truncate(count);
                Err(fault)
            }
        }
    }

    /// Goes back up from below a def.
    #[inline(never)]
    pub fn leave_def(&mut self)
        requires { IsTrue (is_below_def (path_at self.old)) }
        ensures job { self.new.job.now ≡ self.old.job.now }
        ensures above { path_at self.new ≡ outer_of (path_at self.old) }
    {
        self.above.truncate(self.above.len() - 1);
        let facts = self.path.facts.len() - 2;
        let floors = self.path.floors.len() - 1;
        self.path.leave(facts, floors);
    }

    /// Goes back up from a part of a split, or from below a lemma.
    #[inline(never)]
    pub fn leave_row(&mut self)
        requires { IsTrue (is_below_row (path_at self.old)) }
        ensures job { self.new.job.now ≡ self.old.job.now }
        ensures above { path_at self.new ≡ outer_of (path_at self.old) }
    {
        self.above.truncate(self.above.len() - 1);
        let facts = self.path.facts.len() - 1;
        let floors = self.path.floors.len();
        self.path.leave(facts, floors);
    }
}
