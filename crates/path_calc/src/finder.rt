//! Finds each answer over all worlds of a path with its derivation, or leaves the row open.
ghost use Rattle.std.specs.Prelude.{◌≡◌, ◌<ℤ◌, pos};

use crate::cones::{cone_of, plus, renumbered, renumbered_floors};
use crate::footing::Footing;
use crate::pool::{Known, Pool, Signs};
use crate::renumbering::{Numbering, answer_by};
use crate::trail::{Found, Ranks};
use crate::trouble::Trouble;
use lin_proof::{Answer, Derivation, Row};
use lin_search::{Search, refute};
use std::alloc::Global;
use sym_calc::{Alike, Floor, Floors, Told, add_floor, quotient, remainder};
use viz_base::{List, Mem};

/// How many cases and pairs of rows are tried for one answer.
pub const LIMIT: u64 = 4096;

/// How many floors a path names at most where a split rests on fewer.
const MOST_NAMED: usize = 64;

/// A comparison that was answered.
#[derive(Clone, Copy)]
struct Asked {
    /// The number of its row among all that were asked about.
    row: usize,
    /// How many floors the run had then.
    floors: u32,
}

/// A row whose sign is left open on a path.
#[derive(Drop)]
pub struct Opening {
    /// Floors that the path doesn't name yet, those on which the row rests among them, in order.
    pub floors: Vec<Floor>,
    /// The row, over the variables of the path and then these floors.
    pub row: Row,
    /// A world of the path that was found on the way.
    pub point: Option<Known>,
}

/// The floors of a run over all worlds of a path, and its answers with their reasons.
#[derive(Drop)]
pub struct Finder<'a> {
    footing: Footing<'a>,
    pool: &'a mut Pool,
    /// The two facts of each floor behind those of the path, in order.
    rows: List<Row>,
    /// The floors behind those of the path.
    floors: Floors,
    /// The facts of the path.
    ground: List<Row>,
    /// Each row that was answered, divided by 1.
    answered: Floors,
    /// The answers, known ones first.
    found: &'a mut Vec<Found>,
    ranks: Ranks,
    /// The comparisons that were answered, in the order in which they were asked for.
    tape: Vec<Asked>,
    /// What the answers on the tape tell, as it is told to whoever reads them.
    told: Told,
    /// The row that was left open, if one was.
    open: Option<Opening>,
    /// The row that was left open last, where the run looks for one behind it that is as good.
    ahead: Option<Row>,
}

impl<'a> Finder<'a> {
    ghost use Rattle.std.specs.Prelude.{false};
    ghost use Rattle.std.specs.List.{list_any};
    ghost use Rattle.sym_calc.specs.Floors.{same_floor};

    /// The beginning of a run, with known worlds of the path, and with the answers of the run that led to it.
    pub fn new(
        footing: Footing<'a>,
        pool: &'a mut Pool,
        found: &'a mut Vec<Found>,
    ) -> Result<Self, Mem> {
        let alloc = footing.alloc();
        let ground = footing.path.facts.clone()?;
        let ranks = Ranks::new(alloc, footing.path.floors.len())?;
        Ok(Finder {
            footing,
            pool,
            rows: List::new(alloc),
            floors: Floors::new(alloc),
            ground,
            answered: Floors::new(alloc),
            found,
            ranks,
            tape: Vec::new(alloc),
            told: Told::new(alloc),
            open: None,
            ahead: None,
        })
    }

    /// Where it takes memory.
    pub fn alloc(&self) -> Global {
        self.footing.alloc()
    }

    /// How many floors there are behind those of the path. The variable of each has a number of 32 bits.
    fn floor_count(&self) -> u32 {
        u32::try_from(self.floors.len()).unwrap_or(u32::MAX)
    }

    /// A multiple of a row, divided by a number above 0 and rounded down.
    pub fn scaled(&mut self, row: &Row, times: i128, by: i128) -> Result<Row, Trouble>
        requires { pos 0 <ℤ by }
    {
        let product = Row::constant(self.alloc(), 0).add_scaled(times, row)?;
        self.divided(&product, by)
    }

    /// A row divided by a number above 0 and rounded down.
    fn divided(&mut self, row: &Row, by: i128) -> Result<Row, Trouble>
        requires { pos 0 <ℤ by }
    {
        let rest = remainder(row, by)?;
        let whole = quotient(row, by)?;
        self.with_rest(whole, rest, by)
    }

    /// A row with another one added that is divided by a number above 0 and rounded down, and each of whose numbers is
    /// at least 0 and below that number.
    fn with_rest(&mut self, whole: Row, rest: Row, by: i128) -> Result<Row, Trouble>
        requires { pos 0 <ℤ by }
    {
        if rest.terms.is_empty() {
            return Ok(whole);
        }
        let variable = self.variable_of(Floor { row: rest, by })?;
        Ok(plus(self.alloc(), &whole, variable, 1)?)
    }

    /// The variable of a floor: that of the same floor on the path or behind it, or a new one.
    fn variable_of(&mut self, floor: Floor) -> Result<u32, Trouble>
        requires above { pos 0 <ℤ floor.by }
    {
        if let Some(place) = self.footing.path.floors.place_of(&floor) {
            self.ranks.use_named(place)?;
            return numbered(place, self.footing.axis_count());
        }
        if let Some(place) = self.floors.place_of(&floor) {
            return numbered(place, self.footing.variables);
        }
        self.name(floor)
    }

    /// The new variable of a floor that has none yet.
    fn name(&mut self, floor: Floor) -> Result<u32, Trouble>
        requires above { pos 0 <ℤ floor.by }
        requires new { list_any (same_floor floor) self.old.floors ≡ false }
    {
        let variable = self.new_variable(&floor)?;
        add_floor(&mut self.rows, &mut self.floors, floor, variable)?;
        Ok(variable)
    }

    /// The variable that comes next, for a floor whose values are added to the known worlds.
    fn new_variable(&mut self, floor: &Floor) -> Result<u32, Trouble>
        ensures floors { self.new.floors ≡ self.old.floors }
    {
        if self.ranks.use_new()? && self.pool.name(&floor.row, floor.by)? {
            numbered(self.floors.len(), self.footing.variables)
        } else {
            Err(Trouble::TooLarge)
        }
    }

    /// Whether a row is at least 0.
    pub fn is_reached(&mut self, row: Row) -> Result<bool, Trouble> {
        if row.terms.is_empty() {
            return Ok(0 <= row.k);
        }
        self.answer(Floor { row, by: 1 })
    }

    /// Whether a row is at least 0, where an answer that was told before is not written once more.
    pub fn is_told_reached(&mut self, row: Row) -> Result<bool, Trouble> {
        if row.terms.is_empty() {
            return Ok(0 <= row.k);
        }
        let question = Alike { row };
        match self.told.answer_to(&question) {
            Some(yes) => Ok(yes),
            None => self.asked(question),
        }
    }

    /// Whether a row with variables is at least 0, and it is learned where the answer is written.
    fn asked(&mut self, question: Alike) -> Result<bool, Trouble> {
        let row = question.row.clone()?;
        let written = self.tape.len();
        let yes = self.answer(Floor { row, by: 1 })?;
        if written < self.tape.len() {
            self.told.learn(question, yes)?;
        }
        Ok(yes)
    }

    /// Whether a row with variables, divided by 1, is at least 0.
    fn answer(&mut self, question: Floor) -> Result<bool, Trouble> {
        // A row that was asked before has its answer and its derivation; it is written once more.
        if let Some(place) = self.answered.place_of(&question) {
            return self.told(place);
        }
        if self.ahead.is_some() {
            return self.look(&question.row);
        }
        self.settle(&question.row)?;
        if self.ahead.is_some() {
            return Ok(true);
        }
        self.recall(question)
    }

    /// The answer of the known worlds to a row behind one that was left open.
    fn look(&mut self, row: &Row) -> Result<bool, Trouble> {
        match self.pool.signs_of(row) {
            Signs::Same(yes) => Ok(yes),
            Signs::Both if self.is_as_good(row) => self.open_instead(row),
            _ => Err(Trouble::Open),
        }
    }

    /// Whether a split by a row does for that by the row which was left open: it is nowhere above that one, so where it
    /// is at least 0 that one is too.
    fn is_as_good(&self, row: &Row) -> bool {
        match &self.ahead {
            Some(last) => self.pool.is_below(row, last) && self.pool.is_met_by_first(row),
            None => false,
        }
    }

    /// Leaves a row open in place of the last one. The run goes on where it is at least 0.
    fn open_instead(&mut self, row: &Row) -> Result<bool, Trouble> {
        let cone = cone_of(self.alloc(), &self.floors, self.footing.variables, row)?;
        self.open = Some(self.opening(row, cone.as_slice(), None)?);
        self.ahead = Some(row.clone()?);
        Ok(true)
    }

    /// Finds the answer on the row that is asked about next, if it isn't known, or leaves it open.
    fn settle(&mut self, row: &Row) -> Result<(), Trouble> {
        // Below a split the layout asks the same rows as above it, in the same order, up to the one that was split.
        if self.answered.len() < self.found.len() {
            return Ok(());
        }
        let cone = cone_of(self.alloc(), &self.floors, self.footing.variables, row)?;
        // Known worlds first: two with different signs leave the row open at no cost, and one tells which side to
        // refute.
        match self.pool.signs_of(row) {
            Signs::Same(yes) => self.decide(row, yes, cone),
            Signs::Unknown => self.decide(row, true, cone),
            Signs::Both => self.leave_open(row, cone.as_slice(), None),
        }
    }

    /// Keeps an answer whose contrary is at no known world, if it can be derived, or leaves its row open.
    fn decide(&mut self, row: &Row, yes: bool, cone: Vec<u32>) -> Result<(), Trouble> {
        match self.refuted(row, yes, cone.as_slice())? {
            Search::Found(why) => self.keep(yes, why, cone),
            // Where both answers occur, a world of the other one was found, and is known from then on.
            Search::Point(values) => {
                let known = known_of(values, self.footing.variables);
                self.leave_open(row, cone.as_slice(), Some(known))
            }
            Search::GaveUp => self.leave_open(row, cone.as_slice(), None),
        }
    }

    /// Keeps an answer with its derivation, over the variables of the path and these floors behind it.
    fn keep(&mut self, yes: bool, why: Derivation, cone: Vec<u32>) -> Result<(), Trouble> {
        let alloc = self.alloc();
        let cone = self.ranks.cone_at(alloc, cone)?;
        self.found.push(Found {
            yes,
            why,
            path: self.footing.facts,
            base: self.footing.variables,
            cone,
        })?;
        Ok(())
    }

    /// The answer to a question that this run didn't ask before, where it is the next one.
    fn recall(&mut self, question: Floor) -> Result<bool, Trouble> {
        if self.answered.place_of(&question).is_some() {
            return Err(Trouble::Lost);
        }
        let place = self.answered.len();
        self.answered.push(question)?;
        self.told(place)
    }

    /// The answer to the question at a place, noted as asked once more.
    fn told(&mut self, row: usize) -> Result<bool, Trouble> {
        let Some(found) = self.found.get(row) else {
            return Err(Trouble::Lost);
        };
        let yes = found.yes;
        let floors = self.floor_count();
        self.tape.push(Asked { row, floors })?;
        Ok(yes)
    }

    /// Why the facts of the path and of a cone can't hold together with the contrary of an answer, if they can't.
    fn refuted(&mut self, row: &Row, yes: bool, cone: &[u32]) -> Result<Search, Trouble> {
        let contrary = contrary_of(row, yes)?;
        Ok(self.searched(contrary, cone)?)
    }

    /// Why the facts of the path and of a cone and one more can't hold together, if they can't.
    fn searched(&mut self, contrary: Row, cone: &[u32]) -> Result<Search, Mem> {
        let count = self.ground.len();
        // Only the floors on which the row rests: others bound nothing in it, and the search pairs all facts.
        add_cone(&mut self.ground, &self.rows, cone)?;
        self.ground.push(contrary)?;
        let variables = self.footing.variables.saturating_add(self.floor_count());
        let found = refute(self.alloc(), self.ground.as_slice(), variables, LIMIT)?;
        self.ground.truncate(count);
        Ok(found)
    }

    /// Leaves a row open, with a world that was found. The run looks on where it is at least 0, if none was.
    fn leave_open(&mut self, row: &Row, cone: &[u32], point: Option<Known>) -> Result<(), Trouble> {
        let is_found = point.is_some();
        self.open = Some(self.opening(row, cone, point)?);
        if is_found || !self.pool.is_met_by_first(row) {
            return Err(Trouble::Open);
        }
        self.ahead = Some(row.clone()?);
        Ok(())
    }

    /// A row with the floors on which it rests and others, over the variables of the path and then these floors.
    fn opening(&self, row: &Row, cone: &[u32], point: Option<Known>) -> Result<Opening, Trouble> {
        let variables = self.footing.variables;
        let places = self.to_name(cone)?;
        let floors = renumbered_floors(self.alloc(), &self.floors, variables, places.as_slice())?;
        let row = renumbered(self.alloc(), row, variables, places.as_slice())?;
        Ok(Opening { floors, row, point })
    }

    /// The places of the floors that the path is to name for a row with this cone: all, or the cone where these would
    /// be many.
    fn to_name(&self, cone: &[u32]) -> Result<Vec<u32>, Mem> {
        let mut places = Vec::new(self.alloc());
        let count = self
            .footing
            .path
            .floors
            .len()
            .saturating_add(self.floors.len());
        // What the leaves below derive alike can be a lemma only where it rests on no floor of their own.
        if count <= MOST_NAMED {
            for place in 0..self.floor_count() {
                places.push(place)?;
            }
        } else {
            places.extend_from_slice(cone)?;
        }
        Ok(places)
    }

    /// The answers in the order in which they were asked for.
    pub fn answers(&self) -> Result<List<Answer>, Mem> {
        let mut answers = List::new(self.alloc());
        for asked in &self.tape {
            self.write(&mut answers, *asked)?;
        }
        Ok(answers)
    }

    /// Writes an answer behind others.
    fn write(&self, answers: &mut List<Answer>, asked: Asked) -> Result<(), Mem> {
        if let (Some(question), Some(found)) = (
            self.answered.get(asked.row),
            self.found.get(asked.row),
        ) {
            let numbers = self.numbering(found, asked.floors);
            answers.push(answer_by(self.alloc(), &question.row, &numbers)?)?;
        }
        Ok(())
    }

    /// How an answer is numbered where the run had so many floors.
    fn numbering<'b>(&'b self, found: &'b Found, floors: u32) -> Numbering<'b> {
        Numbering {
            found,
            spots: self.ranks.spots.as_slice(),
            named: self.footing.named,
            path: self.footing.facts,
            axes: self.footing.axis_count(),
            base: self.footing.variables,
            contrary: self.footing.facts.saturating_add(floors.saturating_mul(2)),
        }
    }

    /// The row that was left open, if one was.
    pub fn opened(&mut self) -> Option<Opening> {
        self.open.take()
    }
}

/// The row that is at least 0 where an answer is wrong.
fn contrary_of(row: &Row, yes: bool) -> Result<Row, Trouble> {
    if yes {
        Ok(row.negate()?)
    } else {
        Ok(row.clone()?)
    }
}

/// Adds the two facts of each floor of a cone.
fn add_cone(ground: &mut List<Row>, rows: &List<Row>, cone: &[u32]) -> Result<(), Mem> {
    for place in cone {
        let lower = (*place as usize).saturating_mul(2);
        add_fact(ground, rows, lower)?;
        add_fact(ground, rows, lower.saturating_add(1))?;
    }
    Ok(())
}

fn add_fact(ground: &mut List<Row>, rows: &List<Row>, number: usize) -> Result<(), Mem> {
    if let Some(row) = rows.get(number) {
        ground.push(row.clone()?)?;
    }
    Ok(())
}

/// The world at which the first variables have these values.
fn known_of(values: List<i128>, variables: u32) -> Known {
    let mut values = values.into_vec();
    values.truncate(variables as usize);
    Known { values }
}

/// The variable at a place, where the first has this number.
fn numbered(place: usize, first: u32) -> Result<u32, Trouble> {
    match u32::try_from(place) {
        Ok(place) => place.checked_add(first).ok_or(Trouble::TooLarge),
        Err(_) => Err(Trouble::TooLarge),
    }
}
