ghost use Rattle.std.specs.Prelude.{◌≡◌, IfOk};
ghost use Rattle.vis_read.specs.Grammar.{paired, quantified};
ghost use Rattle.vis_read.specs.steps.Machine.{anded, at, behind, closed, completed, fresh, held, initial, inner, joined, notted, ored, others, outside_of, settled};

use crate::faults::given_up;
use crate::lexemes::{Pair, Quantifier};
use crate::reading::{Closed, Frame, Held, Outside, Place, Reading};
use crate::stacks::Stack;
use std::alloc::Global;
use std::mem::replace;
use viz_base::{Boxed, Formula, Mem, Set, Text};

/// A formula behind so many `not`s.
fn notted(alloc: Global, nots: u32, formula: Formula) -> Result<Formula, Mem>
    ensures { IfOk result (λ f. f ≡ notted nots formula) }
{
    let mut whole = formula;
    for _not in 0..nots {
        whole = Formula::Not(Boxed::new(alloc, whole)?);
    }
    Ok(whole)
}

/// Two formulas, each in a box of its own.
fn boxed(
    alloc: Global,
    left: Formula,
    right: Formula,
) -> Result<(Boxed<Formula>, Boxed<Formula>), Mem>
    ensures { IfOk result (λ both. both ≡ (left, right)) }
{
    match Boxed::new(alloc, left) {
        Ok(left) => Ok((left, Boxed::new(alloc, right)?)),
        Err(_) => Err(given_up(right, Mem)),
    }
}

fn anded(alloc: Global, left: Option<Formula>, right: Formula) -> Result<Formula, Mem>
    ensures { IfOk result (λ f. f ≡ anded left right) }
{
    match left {
        Some(left) => {
            let (left, right) = boxed(alloc, left, right)?;
            Ok(Formula::And(left, right))
        }
        None => Ok(right),
    }
}

/// A conjunction with a formula behind so many `not`s as its last operand.
fn conjoined(
    alloc: Global,
    nots: u32,
    left: Option<Formula>,
    formula: Formula,
) -> Result<Formula, Mem>
    ensures { IfOk result (λ f. f ≡ anded left (notted nots formula)) }
{
    match notted(alloc, nots, formula) {
        Ok(right) => anded(alloc, left, right),
        Err(mem) => Err(given_up(left, mem)),
    }
}

/// A disjunction with what stands on its left, where there is such; its only error is want of memory.
pub fn ored(alloc: Global, left: Option<Formula>, right: Formula) -> Result<Formula, Mem>
    ensures { IfOk result (λ f. f ≡ ored left right) }
{
    match left {
        Some(left) => {
            let (left, right) = boxed(alloc, left, right)?;
            Ok(Formula::Or(left, right))
        }
        None => Ok(right),
    }
}

fn implied(alloc: Global, left: Formula, right: Formula) -> Result<Formula, Mem>
    ensures { IfOk result (λ f. f ≡ Formula.Implies left right) }
{
    let (left, right) = boxed(alloc, left, right)?;
    Ok(Formula::Implies(left, right))
}

fn quantified(alloc: Global, q: Quantifier, set: Set, body: Formula) -> Result<Formula, Mem>
    ensures { IfOk result (λ f. f ≡ quantified q set body) }
{
    let body = Boxed::new(alloc, body)?;
    Ok(match q {
        Quantifier::Forall => Formula::Forall(set, body),
        Quantifier::Exists => Formula::Exists(set, body),
    })
}

/// Whether the boxes of two names overlap, or are the same.
pub fn paired(pair: Pair, first: u32, second: u32) -> Formula
    ensures { result ≡ paired pair first second }
{
    match pair {
        Pair::Overlap => Formula::Overlap(first, second),
        Pair::Same => Formula::Same(first, second),
    }
}

/// The names around the innermost one.
fn others(names: Stack<Text>) -> Stack<Text>
    ensures { result ≡ others names }
{
    let mut names = names;
    let _ = names.pop();
    names
}

/// Ends a formula and those that end with it.
pub fn closed(
    alloc: Global,
    frames: Stack<Frame>,
    names: Stack<Text>,
    formula: Formula,
) -> Result<Closed, Mem>
    ensures { IfOk result (λ c. c ≡ closed frames names formula) }
{
    let mut frames = frames;
    let mut names = names;
    let mut value = formula;
    while let Some(frame) = frames.pop() {
        match frame {
            Frame::Quantified(q, set) => {
                names = others(names);
                value = quantified(alloc, q, set, value)?;
            }
            Frame::Implied(left) => value = implied(alloc, left, value)?,
            Frame::Parens(outside) => {
                return Ok(Closed {
                    parens: Some(outside),
                    frames,
                    names,
                    value,
                });
            }
        }
    }
    Ok(Closed {
        parens: None,
        frames,
        names,
        value,
    })
}

/// What stands behind a formula that was in parentheses, before it is taken.
pub fn outside_of(outside: Outside, frames: Stack<Frame>, names: Stack<Text>) -> Reading
    ensures { result ≡ outside_of outside frames names }
{
    Reading {
        frames,
        names,
        level: outside.level,
        nested: outside.nested,
        nots: outside.nots,
        disjunct: outside.disjunct,
        conjunct: outside.conjunct,
        place: Place::Start,
    }
}

impl Reading {
    /// Before a formula, of which nothing is read.
    pub fn new(alloc: Global) -> Self
        ensures { result ≡ initial }
    {
        Reading {
            frames: Stack::new(alloc),
            names: Stack::new(alloc),
            level: 0,
            nested: 0,
            nots: 0,
            disjunct: None,
            conjunct: None,
            place: Place::Start,
        }
    }

    /// Another place.
    pub fn at(mut self, place: Place) -> Self
        ensures { result ≡ at self place }
    {
        drop(replace(&mut self.place, place));
        self
    }

    /// The same before a formula, and its place.
    pub fn split(self) -> (Self, Place)
        ensures { result ≡ (at self Place.Start, self.place) }
    {
        let Reading {
            frames,
            names,
            level,
            nested,
            nots,
            disjunct,
            conjunct,
            place,
        } = self;
        let rest = Reading {
            frames,
            names,
            level,
            nested,
            nots,
            disjunct,
            conjunct,
            place: Place::Start,
        };
        (rest, place)
    }

    /// All but the place.
    pub fn held(self) -> Held
        ensures { result ≡ held self }
    {
        let Reading {
            frames,
            names,
            level,
            nested,
            nots,
            disjunct,
            conjunct,
            place,
        } = self;
        drop(place);
        Held {
            frames,
            names,
            level,
            nested,
            nots,
            disjunct,
            conjunct,
        }
    }

    /// Before an operand that follows nothing.
    pub fn fresh(mut self) -> Self
        ensures { result ≡ fresh self }
    {
        self.nested = self.level;
        self.nots = 0;
        drop(self.disjunct.take());
        drop(self.conjunct.take());
        self
    }

    /// Behind a conjunction.
    pub fn behind(mut self, formula: Formula) -> Self
        ensures { result ≡ behind self formula }
    {
        self.nested = self.level;
        self.nots = 0;
        drop(self.conjunct.take());
        drop(replace(&mut self.place, Place::Behind(formula)));
        self
    }

    /// With the conjunction of which it has one more operand, and behind it.
    pub fn joined(mut self, alloc: Global, formula: Formula) -> Result<(Self, Formula), Mem>
        ensures { IfOk result (λ p. p ≡ (settled self, joined self formula)) }
    {
        match conjoined(alloc, self.nots, self.conjunct.take(), formula) {
            Ok(formula) => {
                self.nested = self.level;
                self.nots = 0;
                Ok((self, formula))
            }
            Err(mem) => {
                drop(self);
                Err(mem)
            }
        }
    }

    /// Behind an operand.
    pub fn completed(self, alloc: Global, formula: Formula) -> Result<Self, Mem>
        ensures { IfOk result (λ next. next ≡ completed self formula) }
    {
        let (rest, formula) = self.joined(alloc, formula)?;
        Ok(rest.behind(formula))
    }
}
