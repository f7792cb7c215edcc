ghost use Rattle.std.specs.Prelude.{◌≡◌, ◌≢◌, ◌≤◌, ◌<◌, ◌^◌, ◌+◌, ◌-◌, ◌<ℤ◌, ◌++◌, ◌&&◌, [], ◌∷◌, false, true, Bool, None, Some, is_some, nat_lt, length, pos, negsuc, ◌-ℤ◌, Ok, ⊤, IfOk, IfErr, IsTrue, OnOk, OnErr, slice_get};
ghost use Rattle.std.specs.List.{list_any};
ghost use Rattle.std.specs.Option.{option_copied};
ghost use Rattle.std.specs.Int.{int_div_euclid};
ghost use Rattle.std.specs.Int.Signed.{lt_z};
ghost use Rattle.std.specs.Int.RustNames.{int_le};
ghost use Rattle.viz_base.specs.Numbers.{Rose};
ghost use Rattle.lin_proof.specs.Form.{Form, form_fits, plus, value};
ghost use Rattle.lin_proof.specs.Exact.{IsExact};
ghost use Rattle.lin_proof.specs.Derivations.{are_declared, first_fault, lines_of};
ghost use Rattle.cert_semantics.specs.Axes.{axis_count, variable_of};
ghost use Rattle.cert_semantics.specs.Facts.{row_of};
ghost use Rattle.cert_semantics.specs.Shapes.{has_remainders, has_variable};
ghost use Rattle.sym_calc.specs.Floors.{same_floor};
ghost use Rattle.sym_calc.specs.Divided.{can_be, divided, division_fits, floor_variable, is_floor, multiple};
ghost use Rattle.sym_calc.specs.Given.{IsGiven, IsGivenWithin, IsTallied, IsWithin};
ghost use Rattle.sym_calc.specs.Knowledge.{AreKnown, contrary, height_row, sym_state};
ghost use Rattle.sym_calc.specs.History.{are_fit, facts_from, is_accounted};
ghost use Rattle.sym_calc.specs.Tags.{tag};
ghost use Rattle.sym_calc.specs.Told.{IsTrueWhereOpen};

use crate::divisions::{quotient, remainder};
use crate::facts::add_floor;
use crate::floors::{Floor, Floors, same_row};
use crate::paths::{Origin, Path};
use crate::told::{Alike, Told};
use crate::troubles::Trouble;
use cert_semantics::{axis_count, variable_of};
use lin_proof::{Answer, Derivation, Facts, Row, RowFault, first_fault_among, line_count};
use std::alloc::{AllocError, Global};
use viz_base::{Axis, List, Mem};
use viz_calc::{Calc, Halt};

/// Arithmetic at all worlds of a path at once. A number is a row over the path's variables and floors of its own; a
/// comparison is answered by the next answer of a tape, whose derivation refutes the contrary.
#[derive(Drop)]
pub struct Sym<'a> {
    path: &'a Path,
    tape: &'a [Answer],
    taken: usize,
    rows: List<Row>,
    floors: Floors,
    told: Told,
    trouble: Option<Trouble>,
    coeffs: u64,
    opens: u64,
    ghost known: { AreKnown path.now.origin.form (path.now.facts ++ rows) (path.now.floors ++ floors) },
    ghost noted: { is_some trouble ≡ nat_lt 0 opens },
    ghost meant: { IsTrueWhereOpen path.now.origin (path.now.facts ++ rows) told },
    ghost made: { rows ≡ facts_from (length path.now.floors + axis_count path.now.origin.form) floors },
    ghost fit: { IsTrue (are_fit path.now.origin.form path.now.floors floors) },
    ghost accounted: { IsTrue (is_accounted path.now.origin.form path.now.facts path.now.floors floors tape.now taken
        trouble) },
}

/// A count that is one greater, or stands at its end.
fn raised(count: u64) -> u64
    ensures least { count ≤ result }
    ensures rose { Rose count result }
{
    count.saturating_add(1)
}

impl<'a> Sym<'a> {
    ghost use Rattle.viz_calc.specs.State.{Grows, KeepsWorlds, Cause, IsDecided, WhereOpen};
    ghost use Rattle.viz_calc.specs.declared.calc.Halt.TheVariants.{Open};
    ghost use Rattle.sym_calc.specs.Troubles.{first_of};
    ghost use Rattle.sym_calc.specs.Calc.{facts_of, named_of, state_of, variables_of, next_trouble, trouble_by_answer, contrary_fits, KeepsRest};
    ghost use Rattle.std.specs.Prelude.{◌⊎◌, if◌then◌else◌, ◌||◌};
    ghost use Rattle.sym_calc.specs.Told.{learned, tells};

    /// The calc of a path and of a tape of answers, none of which is taken yet. Takes no memory.
    pub fn new(path: &'a Path, tape: &'a [Answer]) -> Self
        requires { AreKnown path.now.origin.form path.now.facts path.now.floors }
        ensures path { result.path.now ≡ path.now }
        ensures tape { result.tape.now ≡ tape.now }
        ensures state { let origin = path.now.origin in state_of result
            ≡ sym_state origin (tag origin.form path.now.facts path.now.floors tape.now) path.now.facts
            path.now.floors 0 0 }
        ensures taken { result.taken ≡ 0 }
        ensures least { result.told.least ≡ [] }
        ensures most { result.told.most ≡ [] }
        ensures trouble { result.trouble ≡ None }
    {
        let alloc = path.facts.allocator();
        Sym {
            path,
            tape,
            taken: 0,
            rows: List::new(alloc),
            floors: Floors::new(alloc),
            told: Told::new(alloc),
            trouble: None,
            coeffs: 0,
            opens: 0,
        }
    }

    /// The row, or why there is none; where a number is outside `i128`, this is counted.
    fn counted(&mut self, answer: Result<Row, RowFault>) -> Result<Row, Halt>
        ensures grows { Grows (state_of self.old) (state_of self.new) }
        ensures worlds { KeepsWorlds (state_of self.old) (state_of self.new) }
        ensures row { IfOk result (λ row. answer ≡ Ok row) }
        ensures exact { (exact : Form) → IsExact answer exact → IsGiven result exact }
        ensures rest { KeepsRest self.old self.new }
        ensures cause { IfErr result (Cause (state_of self.old) (state_of self.new) ⊤) }
        ensures decided { IsDecided result }
        ensures tallied { IsTallied result self.old.coeffs self.new.coeffs }
    {
        match answer {
            Ok(row) => Ok(row),
            Err(RowFault::Mem) => Err(Halt::Mem),
            Err(RowFault::Coeff) => {
                self.coeffs = raised(self.coeffs);
                Err(Halt::Coeff)
            }
        }
    }

    /// The variable of a floor by a number above 1: that of the same floor on the path or behind it, or a new one.
    fn variable_of(&mut self, floor: Floor) -> Result<u32, Halt>
        requires above { pos 0 <ℤ floor.by }
        requires some { IsTrue (has_variable floor.row) }
        requires number { IsTrue (lt_z (pos 1) floor.by) }
        requires remainders { IsTrue (has_remainders floor.by floor.row) }
        ensures grows { Grows (state_of self.old) (state_of self.new) }
        ensures worlds { KeepsWorlds (state_of self.old) (state_of self.new) }
        ensures value { IfOk result (λ x. WhereOpen (state_of self.new).is_open
            (λ e. e.terms x ≡ int_div_euclid (value floor.row e.terms) floor.by)) }
        ensures cause { IfErr result (Cause (state_of self.old) (state_of self.new) ⊤) }
        ensures exact { let form = self.old.path.now.origin.form in
            IsGivenWithin result (floor_variable form (named_of self.old) floor)
            (is_floor form (named_of self.old) floor) }
        ensures decided { IsDecided result }
        ensures tallied { IsTallied result self.old.coeffs self.new.coeffs }
    {
        // The same floor is the same variable, also where a `def` above named it: then its facts are known already.
        if let Some(place) = self.path.floors.place_of(&floor) {
            return Ok(place as u32 + self.axis_count());
        }
        if let Some(place) = self.floors.place_of(&floor) {
            return Ok((self.path.floors.len() + place) as u32 + self.axis_count());
        }
        self.name(floor)
    }

    /// The new variable of a floor that has none yet.
    fn name(&mut self, floor: Floor) -> Result<u32, Halt>
        requires above { pos 0 <ℤ floor.by }
        requires some { IsTrue (has_variable floor.row) }
        requires number { IsTrue (lt_z (pos 1) floor.by) }
        requires remainders { IsTrue (has_remainders floor.by floor.row) }
        requires new_on_the_path { list_any (same_floor floor) self.old.path.now.floors ≡ false }
        requires new { list_any (same_floor floor) self.old.floors ≡ false }
        ensures grows { Grows (state_of self.old) (state_of self.new) }
        ensures worlds { KeepsWorlds (state_of self.old) (state_of self.new) }
        ensures value { IfOk result (λ x. WhereOpen (state_of self.new).is_open
            (λ e. e.terms x ≡ int_div_euclid (value floor.row e.terms) floor.by)) }
        ensures cause { IfErr result (Cause (state_of self.old) (state_of self.new) ⊤) }
        ensures exact { let next = variables_of self.old in
            IsGivenWithin result next (can_be next floor) }
        ensures decided { IsDecided result }
        ensures tallied { IsTallied result self.old.coeffs self.new.coeffs }
    {
        let variable = self.variables();
        if variable == u32::MAX {
            return Err(Halt::Mem);
        }
        // A number of another calc shows by a variable that this one has not named.
        if !is_declared(&floor.row, variable) {
            self.coeffs = raised(self.coeffs);
            return Err(Halt::Coeff);
        }
        match add_floor(&mut self.rows, &mut self.floors, floor, variable) {
            Ok(()) => Ok(variable),
            Err(RowFault::Mem) => Err(Halt::Mem),
            Err(RowFault::Coeff) => {
                self.coeffs = raised(self.coeffs);
                Err(Halt::Coeff)
            }
        }
    }

    /// How many variables stand for axes.
    fn axis_count(&self) -> u32
        ensures { result ≡ axis_count self.now.path.now.origin.form }
    {
        axis_count(self.path.origin.form)
    }

    /// How many variables there are.
    fn variables(&self) -> u32
        ensures { result ≡ variables_of self.now }
    {
        (self.path.floors.len() + self.floors.len()) as u32 + self.axis_count()
    }

    /// A row above 0, divided by a number and rounded down.
    fn divided(&mut self, row: &Row, by: i128) -> Result<Row, Halt>
        requires { pos 0 <ℤ by }
        ensures grows { Grows (state_of self.old) (state_of self.new) }
        ensures worlds { KeepsWorlds (state_of self.old) (state_of self.new) }
        ensures value { IfOk result (λ r. WhereOpen (state_of self.new).is_open
            (λ e. value r e.terms ≡ int_div_euclid (value row.now e.terms) by)) }
        ensures cause { IfErr result (Cause (state_of self.old) (state_of self.new) ⊤) }
        ensures exact { let form = self.old.path.now.origin.form in
            IsGivenWithin result (divided form (named_of self.old) by row.now)
            (division_fits form (named_of self.old) by row.now) }
        ensures decided { IsDecided result }
        ensures tallied { IsTallied result self.old.coeffs self.new.coeffs }
    {
        let whole = quotient(row, by)?;
        let rest = remainder(row, by)?;
        // Only what does not divide evenly needs a variable, so halves of even numbers cost none.
        if rest.terms.is_empty() {
            return Ok(whole);
        }
        let variable = self.variable_of(Floor { row: rest, by })?;
        let sum = with_variable(&whole, variable);
        self.counted(sum)
    }

    /// Whether a row with variables is at least 0, by the next answer of the tape.
    fn answered(&mut self, row: Row) -> Result<bool, Halt>
        requires { IsTrue (form_fits row) }
        ensures grows { Grows (state_of self.old) (state_of self.new) }
        ensures value { IfOk result (λ yes. WhereOpen (state_of self.new).is_open
            (λ e. yes ≡ int_le (pos 0) (value row e.terms))) }
        ensures cause { IfErr result (Cause (state_of self.old) (state_of self.new) ⊤) }
        ensures within { IsWithin result
            (contrary_fits row (slice_get self.old.tape.now self.old.taken)) }
        ensures answer { IfOk result (λ yes. next_trouble self.old row ≡ None) }
        ensures taken { OnOk result (self.new.taken ≡ self.old.taken + 1) }
        ensures told { self.new.told ≡ self.old.told }
        ensures opened { result ≡ Err Open → is_some (next_trouble self.old row) ≡ true }
        ensures trouble { result ≡ Err Open
            → self.new.trouble ≡ first_of self.old.trouble (next_trouble self.old row) }
        ensures tallied { IsTallied result self.old.coeffs self.new.coeffs }
    {
        let tape = self.tape;
        match tape.get(self.taken) {
            Some(answer) => self.answered_by(answer, row),
            None => Err(self.stuck(Trouble::Short, self.taken)),
        }
    }

    /// Whether a row with variables is at least 0: as was told, or else by the next answer of the tape.
    fn recalled(&mut self, question: Alike) -> Result<bool, Halt>
        requires { IsTrue (form_fits question.row) }
        ensures grows { Grows (state_of self.old) (state_of self.new) }
        ensures value { IfOk result (λ yes. WhereOpen (state_of self.new).is_open
            (λ e. yes ≡ int_le (pos 0) (value question.row e.terms))) }
        ensures cause { IfErr result (Cause (state_of self.old) (state_of self.new) ⊤) }
        ensures within { IsWithin result (is_some (tells self.old.told question)
            || contrary_fits question.row (slice_get self.old.tape.now self.old.taken)) }
        ensures answer { IfOk result (λ yes. (tells self.old.told question ≡ Some yes)
            ⊎ (next_trouble self.old question.row ≡ None)) }
        ensures taken { let told = is_some (tells self.old.told question) in
            OnOk result (self.new.taken ≡ (if told then self.old.taken else self.old.taken + 1)) }
        ensures told { let told = is_some (tells self.old.told question) in IfOk result
            (λ yes. self.new.told
            ≡ (if told then self.old.told else learned self.old.told question yes)) }
        ensures opened { result ≡ Err Open → is_some (next_trouble self.old question.row) ≡ true }
        ensures trouble { result ≡ Err Open
            → self.new.trouble ≡ first_of self.old.trouble (next_trouble self.old question.row) }
        ensures tallied { IsTallied result self.old.coeffs self.new.coeffs }
    {
        match self.told.answer_to(&question) {
            Some(yes) => Ok(yes),
            None => self.asked(question),
        }
    }

    /// Whether a row with variables is at least 0, by the next answer of the tape, which is learned.
    fn asked(&mut self, question: Alike) -> Result<bool, Halt>
        requires { IsTrue (form_fits question.row) }
        ensures grows { Grows (state_of self.old) (state_of self.new) }
        ensures value { IfOk result (λ yes. WhereOpen (state_of self.new).is_open
            (λ e. yes ≡ int_le (pos 0) (value question.row e.terms))) }
        ensures cause { IfErr result (Cause (state_of self.old) (state_of self.new) ⊤) }
        ensures within { IsWithin result
            (contrary_fits question.row (slice_get self.old.tape.now self.old.taken)) }
        ensures answer { IfOk result (λ yes. next_trouble self.old question.row ≡ None) }
        ensures taken { OnOk result (self.new.taken ≡ self.old.taken + 1) }
        ensures told { IfOk result (λ yes. self.new.told ≡ learned self.old.told question yes) }
        ensures opened { result ≡ Err Open → is_some (next_trouble self.old question.row) ≡ true }
        ensures trouble { result ≡ Err Open
            → self.new.trouble ≡ first_of self.old.trouble (next_trouble self.old question.row) }
        ensures tallied { IsTallied result self.old.coeffs self.new.coeffs }
    {
        let row = question.row.clone()?;
        let yes = self.answered(row)?;
        self.told.learn(question, yes)?;
        Ok(yes)
    }

    /// The same by this answer, which is the next one.
    fn answered_by(&mut self, answer: &Answer, row: Row) -> Result<bool, Halt>
        requires next { slice_get self.old.tape.now self.old.taken ≡ Some answer.now }
        requires room { self.old.taken + 1 < 2 ^ 64 }
        requires fits { IsTrue (form_fits row) }
        ensures grows { Grows (state_of self.old) (state_of self.new) }
        ensures value { IfOk result (λ yes. WhereOpen (state_of self.new).is_open
            (λ e. yes ≡ int_le (pos 0) (value row e.terms))) }
        ensures cause { IfErr result (Cause (state_of self.old) (state_of self.new) ⊤) }
        ensures within { IsWithin result (form_fits (contrary answer.now.yes row)) }
        ensures answer { IfOk result (λ yes. trouble_by_answer self.old row answer.now ≡ None) }
        ensures taken { OnOk result (self.new.taken ≡ self.old.taken + 1) }
        ensures told { self.new.told ≡ self.old.told }
        ensures opened { result ≡ Err Open
            → is_some (trouble_by_answer self.old row answer.now) ≡ true }
        ensures trouble { result ≡ Err Open
            → self.new.trouble ≡ first_of self.old.trouble
            (trouble_by_answer self.old row answer.now) }
        ensures tallied { IsTallied result self.old.coeffs self.new.coeffs }
    {
        let Ok(number) = u32::try_from(self.taken) else {
            return Err(Halt::Mem);
        };
        let contrary = self.contrary_of(answer.yes, &row)?;
        // Answers have no names: the row alone says whether this is the one that was meant here.
        if !same_row(&row, &answer.row) {
            let theirs = answer.row.clone()?;
            return Err(self.stuck(Trouble::Differs(number, row, theirs), self.taken + 1));
        }
        match self.fault_of(contrary, &answer.why)? {
            None => {
                self.taken += 1;
                Ok(answer.yes)
            }
            Some(line) => Err(self.stuck(Trouble::Line(number, line), self.taken + 1)),
        }
    }

    /// The row that is at least 0 where an answer is wrong.
    fn contrary_of(&mut self, yes: bool, row: &Row) -> Result<Row, Halt>
        requires { IsTrue (form_fits row.now) }
        ensures grows { Grows (state_of self.old) (state_of self.new) }
        ensures exact { IsGiven result (contrary yes row.now) }
        ensures rest { KeepsRest self.old self.new }
        ensures decided { IsDecided result }
        ensures cause { IfErr result (Cause (state_of self.old) (state_of self.new) ⊤) }
        ensures tallied { IsTallied result self.old.coeffs self.new.coeffs }
    {
        let contrary = contrary_of(yes, row);
        self.counted(contrary)
    }

    /// The first wrong line of a derivation from all facts and from one more, which is taken back.
    fn fault_of(&mut self, contrary: Row, why: &Derivation) -> Result<Option<u32>, Mem>
        ensures line { IfOk result (λ line. line
            ≡ first_fault (facts_of self.old ++ contrary ∷ []) (variables_of self.old) why.now) }
        ensures state { state_of self.new ≡ state_of self.old }
        ensures rest { KeepsRest self.old self.new }
        ensures tallied { self.new.coeffs ≡ self.old.coeffs }
    {
        let variables = self.variables();
        fault_below(
            self.path.facts.as_slice(),
            &mut self.rows,
            variables,
            contrary,
            why,
        )
    }

    /// Leaves a comparison open for this trouble, which is kept unless there was one before. So many answers are
    /// taken then.
    fn stuck(&mut self, trouble: Trouble, taken: usize) -> Halt
        requires { IsTrue (is_accounted self.old.path.now.origin.form self.old.path.now.facts self.old.path.now.floors
            self.old.floors self.old.tape.now taken (first_of self.old.trouble (Some trouble))) }
        ensures grows { Grows (state_of self.old) (state_of self.new) }
        ensures cause { Cause (state_of self.old) (state_of self.new) ⊤ result }
        ensures open { result ≡ Open }
        ensures trouble { self.new.trouble ≡ first_of self.old.trouble (Some trouble) }
        ensures told { self.new.told ≡ self.old.told }
        ensures tallied { self.new.coeffs ≡ self.old.coeffs }
    {
        // The first trouble is the verdict; what comes behind it is the layout of blanks.
        if self.trouble.is_none() {
            self.trouble = Some(trouble);
        }
        self.taken = taken;
        self.opens = raised(self.opens);
        Halt::Open
    }

    /// Why the first comparison that was left open is; none where none was. Takes no memory.
    pub fn trouble(&self) -> Option<&Trouble>
        ensures trouble { option_copied result ≡ self.now.trouble }
        ensures told { is_some result ≡ nat_lt 0 (state_of self.now).opens }
    {
        self.trouble.as_ref()
    }

    /// How many answers are not taken yet. Takes no memory.
    pub fn left(&self) -> usize
        ensures { result ≡ length self.now.tape.now - self.now.taken }
    {
        self.tape.len().saturating_sub(self.taken)
    }

    /// How many numbers were outside 128 bits, up to the greatest `u64`. Takes no memory.
    pub fn coeffs(&self) -> u64
        ensures { result ≡ (state_of self.now).coeffs }
    {
        self.coeffs
    }
}

/// The row of the viewport's height, in 1/64 px: 64 times its variable, or in form 1 the one number.
fn height_row(alloc: Global, origin: Origin) -> Result<Row, AllocError>
    ensures { IfOk result (λ row. row ≡ height_row origin) }
{
    if origin.form == 2 {
        on_axis(alloc, Axis::Height)
    } else {
        Ok(Row::constant(alloc, 64 * i128::from(origin.height)))
    }
}

/// The row of the number on an axis, in 1/64 px.
fn on_axis(alloc: Global, axis: Axis) -> Result<Row, AllocError>
    ensures { IfOk result (λ row. row ≡ row_of (pos 0) (pos 64) (variable_of axis)) }
{
    Row::of_term(alloc, 0, variable_of(axis), 64)
}

/// A row plus a variable.
fn with_variable(row: &Row, variable: u32) -> Result<Row, RowFault>
    ensures { IsExact result (plus row.now (pos 1) (row_of (pos 0) (pos 1) variable)) }
{
    let term = Row::of_term(row.terms.allocator(), 0, variable, 1)?;
    row.add_scaled(1, &term)
}

/// The row that is at least 0 where an answer is wrong.
fn contrary_of(yes: bool, row: &Row) -> Result<Row, RowFault>
    requires { IsTrue (form_fits row.now) }
    ensures { IsExact result (contrary yes row.now) }
{
    if yes { row.negate() } else { Ok(row.clone()?) }
}

/// The first wrong line of a derivation from facts and from one more, which is taken back.
fn fault_below(
    facts: &[Row],
    rows: &mut List<Row>,
    variables: u32,
    contrary: Row,
    why: &Derivation,
) -> Result<Option<u32>, Mem>
    ensures line { IfOk result (λ line.
        line ≡ first_fault (facts.now ++ (rows.old ++ contrary ∷ [])) variables why.now) }
    ensures same { rows.new ≡ rows.old }
{
    if line_count(why).is_none() {
        return Err(Mem);
    }
    let count = rows.len();
    rows.push(contrary)?;
    let known = Facts {
        first: facts,
        later: rows.as_slice(),
    };
    let line = first_fault_among(rows.allocator(), known, variables, why);
    // The contrary was a fact for this derivation alone.
    rows.truncate(count);
    line
}

/// Numbers are rows in 1/64 px over whole pixels. Open are the readings that meet all facts, and kept are the worlds of
/// the path.
impl<'a> Calc for Sym<'a> {
    ghost use Rattle.std.specs.Prelude.{◌*◌, ◌+ℤ◌, ◌*ℤ◌, ◌⊎◌};
    ghost use Rattle.std.proofs.Common.{inl, refl};
    ghost use Rattle.viz_calc.specs.State.{Stands, Grows, KeepsWorlds, Fits, Cause, IsCounted, IsDecided, WhereOpen};
    ghost use Rattle.viz_calc.specs.declared.calc.Halt.TheVariants.{Open};
    ghost use Rattle.sym_calc.specs.Knowledge.{number_at};
    ghost use Rattle.sym_calc.specs.Troubles.{first_of};
    ghost use Rattle.sym_calc.specs.Calc.{facts_of, named_of, state_of, next_trouble, comparison_fits, question_fits, taken_after, told_after};
    ghost use Rattle.sym_calc.specs.Told.{tells};
    ghost use Rattle.sym_calc.specs.Kept.{reading_by, kept_is_open};

    type Num = Row;

    ghost state = { state_of };

    ghost at = { number_at };

    ghost counts = { true };

    fn blank(&self) -> Row {
        Row::constant(self.path.facts.allocator(), 0)
    }

    fn lit(&mut self, v: i128) -> Result<Row, Halt>
        ensures grows { Grows (state_of self.old) (state_of self.new) }
        ensures worlds { KeepsWorlds (state_of self.old) (state_of self.new) }
        ensures value { IfOk result (λ r. Stands (state_of self.new) (number_at r) (λ e. v)) }
        ensures cause { IfErr result (Cause (state_of self.old) (state_of self.new)
            (Fits (state_of self.new) (λ e. v ∷ []))) }
        ensures counted { IfErr result (IsCounted true (state_of self.old) (state_of self.new)) }
        ensures decided { IsDecided result }
        ensures free { IfErr result (λ halt. halt ≡ Halt.Mem) }
        ensures tallied { IsTallied result self.old.coeffs self.new.coeffs }
    {
        Ok(Row::constant(self.path.facts.allocator(), v))
    }

    fn width(&mut self) -> Result<Row, Halt>
        ensures grows { Grows (state_of self.old) (state_of self.new) }
        ensures worlds { KeepsWorlds (state_of self.old) (state_of self.new) }
        ensures value { IfOk result (λ r. Stands (state_of self.new) (number_at r)
            (λ e. pos (64 * e.world.w))) }
        ensures cause { IfErr result (Cause (state_of self.old) (state_of self.new)
            (Fits (state_of self.new) (λ e. pos (64 * e.world.w) ∷ []))) }
        ensures counted { IfErr result (IsCounted true (state_of self.old) (state_of self.new)) }
        ensures decided { IsDecided result }
        ensures free { IfErr result (λ halt. halt ≡ Halt.Mem) }
        ensures tallied { IsTallied result self.old.coeffs self.new.coeffs }
    {
        Ok(on_axis(self.path.facts.allocator(), Axis::Width)?)
    }

    fn height(&mut self) -> Result<Row, Halt>
        ensures grows { Grows (state_of self.old) (state_of self.new) }
        ensures worlds { KeepsWorlds (state_of self.old) (state_of self.new) }
        ensures value { IfOk result (λ r. Stands (state_of self.new) (number_at r)
            (λ e. pos (64 * e.world.h))) }
        ensures cause { IfErr result (Cause (state_of self.old) (state_of self.new)
            (Fits (state_of self.new) (λ e. pos (64 * e.world.h) ∷ []))) }
        ensures counted { IfErr result (IsCounted true (state_of self.old) (state_of self.new)) }
        ensures decided { IsDecided result }
        ensures free { IfErr result (λ halt. halt ≡ Halt.Mem) }
        ensures tallied { IsTallied result self.old.coeffs self.new.coeffs }
    {
        Ok(height_row(self.path.facts.allocator(), self.path.origin)?)
    }

    fn size(&mut self) -> Result<Row, Halt>
        ensures grows { Grows (state_of self.old) (state_of self.new) }
        ensures worlds { KeepsWorlds (state_of self.old) (state_of self.new) }
        ensures value { IfOk result (λ r. Stands (state_of self.new) (number_at r)
            (λ e. pos (64 * e.world.s))) }
        ensures cause { IfErr result (Cause (state_of self.old) (state_of self.new)
            (Fits (state_of self.new) (λ e. pos (64 * e.world.s) ∷ []))) }
        ensures counted { IfErr result (IsCounted true (state_of self.old) (state_of self.new)) }
        ensures decided { IsDecided result }
        ensures free { IfErr result (λ halt. halt ≡ Halt.Mem) }
        ensures tallied { IsTallied result self.old.coeffs self.new.coeffs }
    {
        Ok(on_axis(self.path.facts.allocator(), Axis::Size)?)
    }

    fn copy(&mut self, a: &Row) -> Result<Row, Halt>
        ensures grows { Grows (state_of self.old) (state_of self.new) }
        ensures worlds { KeepsWorlds (state_of self.old) (state_of self.new) }
        ensures value { IfOk result (λ r. Stands (state_of self.new) (number_at r)
            (λ e. number_at a.now e)) }
        ensures cause { IfErr result (Cause (state_of self.old) (state_of self.new)
            (Fits (state_of self.new) (λ e. number_at a.now e ∷ []))) }
        ensures counted { IfErr result (IsCounted true (state_of self.old) (state_of self.new)) }
        ensures decided { IsDecided result }
        ensures free { IfErr result (λ halt. halt ≡ Halt.Mem) }
        ensures tallied { IsTallied result self.old.coeffs self.new.coeffs }
    {
        Ok(a.clone()?)
    }

    fn add(&mut self, a: &Row, b: &Row) -> Result<Row, Halt>
        ensures grows { Grows (state_of self.old) (state_of self.new) }
        ensures worlds { KeepsWorlds (state_of self.old) (state_of self.new) }
        ensures value { IfOk result (λ r. Stands (state_of self.new) (number_at r)
            (λ e. number_at a.now e +ℤ number_at b.now e)) }
        ensures cause { IfErr result (Cause (state_of self.old) (state_of self.new)
            (Fits (state_of self.new) (λ e. (number_at a.now e +ℤ number_at b.now e) ∷ []))) }
        ensures counted { IfErr result (IsCounted true (state_of self.old) (state_of self.new)) }
        ensures decided { IsDecided result }
        ensures exact { IsGiven result (plus a.now (pos 1) b.now) }
        ensures tallied { IsTallied result self.old.coeffs self.new.coeffs }
    {
        let sum = a.add_scaled(1, b);
        self.counted(sum)
    }

    fn sub(&mut self, a: &Row, b: &Row) -> Result<Row, Halt>
        ensures grows { Grows (state_of self.old) (state_of self.new) }
        ensures worlds { KeepsWorlds (state_of self.old) (state_of self.new) }
        ensures value { IfOk result (λ r. Stands (state_of self.new) (number_at r)
            (λ e. number_at a.now e -ℤ number_at b.now e)) }
        ensures cause { IfErr result (Cause (state_of self.old) (state_of self.new)
            (Fits (state_of self.new) (λ e. (number_at a.now e -ℤ number_at b.now e) ∷ []))) }
        ensures counted { IfErr result (IsCounted true (state_of self.old) (state_of self.new)) }
        ensures decided { IsDecided result }
        ensures exact { IsGiven result (plus a.now (negsuc 0) b.now) }
        ensures tallied { IsTallied result self.old.coeffs self.new.coeffs }
    {
        let difference = a.add_scaled(-1, b);
        self.counted(difference)
    }

    fn scale_floor(&mut self, a: &Row, num: i64, den: u64) -> Result<Row, Halt>
        requires { 1 ≤ den }
        ensures grows { Grows (state_of self.old) (state_of self.new) }
        ensures worlds { KeepsWorlds (state_of self.old) (state_of self.new) }
        ensures value { IfOk result (λ r. Stands (state_of self.new) (number_at r)
            (λ e. int_div_euclid (num *ℤ number_at a.now e) (pos den))) }
        ensures cause { IfErr result (Cause (state_of self.old) (state_of self.new)
            (Fits (state_of self.new) (λ e. int_div_euclid (num *ℤ number_at a.now e) (pos den)
            ∷ []))) }
        ensures counted { IfErr result (IsCounted true (state_of self.old) (state_of self.new)) }
        ensures decided { IsDecided result }
        ensures exact { let row = multiple num a.now in let floors = named_of self.old in
            let form = self.old.path.now.origin.form in IsGivenWithin result (divided form floors (pos den) row)
            (form_fits row && division_fits form floors (pos den) row) }
        ensures tallied { IsTallied result self.old.coeffs self.new.coeffs }
    {
        let zero = Row::constant(self.path.facts.allocator(), 0);
        let product = zero.add_scaled(i128::from(num), a);
        let product = self.counted(product)?;
        self.divided(&product, i128::from(den))
    }

    fn le(&mut self, a: &Row, b: &Row) -> Result<bool, Halt>
        ensures grows { Grows (state_of self.old) (state_of self.new) }
        ensures value { IfOk result (λ r. WhereOpen (state_of self.new).is_open
            (λ e. r ≡ int_le (number_at a.now e) (number_at b.now e))) }
        ensures cause { IfErr result (Cause (state_of self.old) (state_of self.new) ⊤) }
        ensures within { IsWithin result (comparison_fits self.old (plus b.now (negsuc 0) a.now)) }
        ensures answer { let row = plus b.now (negsuc 0) a.now in
            IfOk result (λ r. (row.terms ≡ []) ⊎ (next_trouble self.old row ≡ None)) }
        ensures opened { let row = plus b.now (negsuc 0) a.now in
            result ≡ Err Open → is_some (next_trouble self.old row) ≡ true }
        ensures trouble { let row = plus b.now (negsuc 0) a.now in result ≡ Err Open
            → self.new.trouble ≡ first_of self.old.trouble (next_trouble self.old row) }
        ensures tallied { IsTallied result self.old.coeffs self.new.coeffs }
    {
        let difference = b.add_scaled(-1, a);
        let difference = self.counted(difference)?;
        // Without variables the constant decides, and the tape has no answer for it.
        if difference.terms.is_empty() {
            return Ok(0 <= difference.k);
        }
        self.answered(difference)
    }

    fn at_most(&mut self, a: &Row, b: &Row) -> Result<bool, Halt>
        ensures grows { Grows (state_of self.old) (state_of self.new) }
        ensures value { IfOk result (λ r. WhereOpen (state_of self.new).is_open
            (λ e. r ≡ int_le (number_at a.now e) (number_at b.now e))) }
        ensures cause { IfErr result (Cause (state_of self.old) (state_of self.new) ⊤) }
        ensures within { IsWithin result (question_fits self.old (plus b.now (negsuc 0) a.now)) }
        ensures answer { let row = plus b.now (negsuc 0) a.now in IfOk result
            (λ r. (row.terms ≡ []) ⊎ ((tells self.old.told (record { row = row }) ≡ Some r)
            ⊎ (next_trouble self.old row ≡ None))) }
        ensures taken { OnOk result (self.new.taken
            ≡ taken_after self.old (plus b.now (negsuc 0) a.now)) }
        ensures told { let row = plus b.now (negsuc 0) a.now in
            IfOk result (λ r. self.new.told ≡ told_after self.old row r) }
        ensures opened { let row = plus b.now (negsuc 0) a.now in
            result ≡ Err Open → is_some (next_trouble self.old row) ≡ true }
        ensures trouble { let row = plus b.now (negsuc 0) a.now in result ≡ Err Open
            → self.new.trouble ≡ first_of self.old.trouble (next_trouble self.old row) }
        ensures tallied { IsTallied result self.old.coeffs self.new.coeffs }
    {
        let difference = b.add_scaled(-1, a);
        let difference = self.counted(difference)?;
        if difference.terms.is_empty() {
            return Ok(0 <= difference.k);
        }
        self.recalled(Alike { row: difference })
    }

    ghost keeps = { λ s w t. inl (record {
      reading = reading_by s.path.now.origin.form (named_of s) w;
      world = refl;
      is_open = kept_is_open s.path.now.origin (facts_of s) (named_of s) w t;
    }) };
}

/// Whether a row has no variable from `variables` on.
fn is_declared(row: &Row, variables: u32) -> bool
    ensures { result ≡ are_declared variables row.now.terms }
{
    row.terms.as_slice().iter().all(|term| term.0 < variables)
}
