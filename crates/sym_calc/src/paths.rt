ghost use Rattle.std.specs.Prelude.{◌≡◌, ◌+◌, ◌<ℤ◌, ◌++◌, [], ◌∷◌, false, length, pos, take, Err, IfOk, OnErr, OnOk};
ghost use Rattle.std.specs.List.{list_any};
ghost use Rattle.lin_proof.specs.Form.{denied, form_fits};
ghost use Rattle.cert_semantics.specs.Axes.{axis_count};
ghost use Rattle.cert_semantics.specs.Paths.{def};
ghost use Rattle.cert_semantics.specs.Facts.{range_facts, side_facts, step_facts};
ghost use Rattle.lin_proof.specs.declared.row.RowFault.TheVariants.{Coeff};
ghost use Rattle.sym_calc.specs.Floors.{same_floor, floor_fits};
ghost use Rattle.sym_calc.specs.Knowledge.{AreKnown};

use crate::facts::{add_both, add_floor};
use crate::floors::{Floor, Floors};
use cert_semantics::variable_of;
use lin_proof::{Row, RowFault};
use std::alloc::{AllocError, Global};
use viz_base::{Axis, List, Rect, Span};

/// Where a path begins: which numbers of a world have variables, and the one that may have none.
#[derive(Clone, Copy)]
pub struct Origin {
    /// The job's form, which says which axes have variables.
    pub form: u8,
    /// The viewport's height in pixels, in form 1, where it is one number.
    pub height: u32,
}

/// What holds on the way to a node of a certificate.
#[derive(Drop)]
pub struct Path {
    /// Where it begins.
    pub origin: Origin,
    /// Rows that are at least 0, numbered from 0.
    pub facts: List<Row>,
    /// The floors that are named. Their variables are numbered behind those of the axes.
    pub floors: Floors,
}

impl Path {
    /// The path to the root of a certificate for a job of a form: the facts of the range, which has one height in
    /// form 1.
    pub fn new(alloc: Global, form: u8, range: Rect) -> Result<Self, AllocError>
        ensures origin { IfOk result (λ path. path.origin
            ≡ record { form = form; height = range.hl }) }
        ensures facts { IfOk result (λ path. path.facts ≡ range_facts form range) }
        ensures floors { IfOk result (λ path. path.floors ≡ []) }
        ensures known { IfOk result (λ path. AreKnown form path.facts path.floors) }
    {
        let mut facts = List::new(alloc);
        add_side(&mut facts, Axis::Width, range.side(Axis::Width))?;
        add_side(&mut facts, Axis::Size, range.side(Axis::Size))?;
        if form == 2 {
            add_side(&mut facts, Axis::Height, range.side(Axis::Height))?;
        }
        let height = range.hl;
        Ok(Path {
            origin: Origin { form, height },
            facts,
            floors: Floors::new(alloc),
        })
    }

    /// Goes below a def, whose floor is new: its number is the next variable. An `Err` leaves the path as it was.
    /// `Coeff` where a number of a fact is outside `i128`.
    pub fn define(&mut self, floor: Floor, variable: u32) -> Result<(), RowFault>
        requires above { pos 0 <ℤ floor.by }
        requires new { list_any (same_floor floor) self.old.floors ≡ false }
        requires next { variable ≡ length self.old.floors + axis_count self.old.origin.form }
        ensures origin { self.new.origin ≡ self.old.origin }
        ensures facts { OnOk result (self.new.facts
            ≡ self.old.facts ++ step_facts variable (def floor.row floor.by)) }
        ensures floors { OnOk result (self.new.floors ≡ self.old.floors ++ floor ∷ []) }
        ensures same_facts { OnErr result (self.new.facts ≡ self.old.facts) }
        ensures same_floors { OnErr result (self.new.floors ≡ self.old.floors) }
        ensures outside { result ≡ Err Coeff → floor_fits variable floor ≡ false }
    {
        add_floor(&mut self.facts, &mut self.floors, floor, variable)
    }

    /// Goes to the first child of a split, where its row is at least 0. An `Err` leaves the path as it was.
    pub fn enter_first(&mut self, row: &Row) -> Result<(), AllocError>
        ensures origin { self.new.origin ≡ self.old.origin }
        ensures facts { OnOk result (self.new.facts ≡ self.old.facts ++ row.now ∷ []) }
        ensures same { OnErr result (self.new.facts ≡ self.old.facts) }
        ensures floors { self.new.floors ≡ self.old.floors }
    {
        self.facts.push(row.clone()?)
    }

    /// Goes to the second child of a split, where its row is below 0. An `Err` leaves the path as it was.
    /// `Coeff` where a number of the row's denial is outside `i128`.
    pub fn enter_second(&mut self, row: &Row) -> Result<(), RowFault>
        ensures origin { self.new.origin ≡ self.old.origin }
        ensures facts { OnOk result (self.new.facts ≡ self.old.facts ++ denied row.now ∷ []) }
        ensures same { OnErr result (self.new.facts ≡ self.old.facts) }
        ensures floors { self.new.floors ≡ self.old.floors }
        ensures outside { result ≡ Err Coeff → form_fits (denied row.now) ≡ false }
    {
        let other = row.negate()?;
        self.facts.push(other)?;
        Ok(())
    }

    /// Goes below a lemma, whose row is at least 0 on the whole path. An `Err` leaves the path as it was.
    pub fn enter_lemma(&mut self, row: &Row) -> Result<(), AllocError>
        ensures origin { self.new.origin ≡ self.old.origin }
        ensures facts { OnOk result (self.new.facts ≡ self.old.facts ++ row.now ∷ []) }
        ensures same { OnErr result (self.new.facts ≡ self.old.facts) }
        ensures floors { self.new.floors ≡ self.old.floors }
    {
        let fact = row.clone()?;
        self.facts.push(fact)
    }

    /// Goes back to where there were so many facts and floors.
    pub fn leave(&mut self, facts: usize, floors: usize)
        ensures origin { self.new.origin ≡ self.old.origin }
        ensures facts { self.new.facts ≡ take facts self.old.facts }
        ensures floors { self.new.floors ≡ take floors self.old.floors }
    {
        self.facts.truncate(facts);
        self.floors.truncate(floors);
    }
}

/// Adds that the variable of an axis is one of the numbers of a side.
fn add_side(facts: &mut List<Row>, axis: Axis, side: Span) -> Result<(), AllocError>
    ensures { OnOk result (facts.new ≡ facts.old ++ side_facts axis side) }
{
    let alloc = facts.allocator();
    let variable = variable_of(axis);
    let low = Row::of_term(alloc, -i128::from(side.least), variable, 1)?;
    let high = Row::of_term(alloc, i128::from(side.most), variable, -1)?;
    add_both(facts, low, high)
}
