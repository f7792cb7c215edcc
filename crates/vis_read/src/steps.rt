ghost use Rattle.std.specs.Prelude.{◌≡◌, ◌∷◌, ◌+◌, ◌<◌, IfOk, MatchResult, OnOk, false};
ghost use Rattle.vis_read.specs.Grammar.{comparison};
ghost use Rattle.vis_read.specs.steps.Machine.{Ends, Moves, Steps, at_first, at_operand, at_quantifier, at_second, bind, close_parens, compared_with, ended, implied, inner, keeps, ored, step, step_added, step_at, step_behind, step_binder, step_comma, step_compared, step_domain, step_first, step_last, step_number, step_operand, step_pair, step_quantifier, step_ranged, step_second, step_start, closing, ended_added, move_at, negated, opened, quantifier, step_sign, whole, with_and, with_or, with_part};

use crate::acts::{closed, ored, outside_of, paired};
use crate::faults::{Stop, given_up};
use crate::lexemes::{Lexeme, Pair, Quantifier};
use crate::places::place;
use crate::reading::{Closed, Compared, Frame, Held, Outside, Place, Reading, Sum};
use crate::stacks::Stack;
use crate::terms::{empty_sum, step_edge, step_part, step_side, step_spot, with_part, with_sign};
use std::alloc::Global;
use std::mem::replace;
use viz_base::{Edge, Formula, List, Mem, Set, Sign, Summand, Term, Text};

/// How many quantifiers, parentheses and `not`s may be around one.
const MOST_NESTED: u32 = 64;

/// How many quantifiers may be around a quantifier, plus one.
const MOST_NAMES: usize = 2;

/// Behind the parentheses around what has ended.
fn close_parens(alloc: Global, closed: Closed) -> Result<Reading, Stop>
    ensures { Steps result (close_parens closed) }
{
    let Closed {
        parens,
        frames,
        names,
        value,
    } = closed;
    match parens {
        Some(outside) => Ok(outside_of(outside, frames, names).completed(alloc, value)?),
        None => Err(given_up(((frames, names), value), Stop::Bad)),
    }
}

/// With one more thing that is open.
fn pushed(frames: Stack<Frame>, frame: Frame) -> Result<Stack<Frame>, Mem>
    ensures { IfOk result (λ all. all ≡ frame ∷ frames) }
{
    let mut frames = frames;
    frames.push(frame)?;
    Ok(frames)
}

/// With one more thing that is open, and a name that is bound in it.
fn open_frame(
    frames: &mut Stack<Frame>,
    names: &mut Stack<Text>,
    frame: Frame,
    name: Text,
) -> Result<(), Mem>
    ensures frames { OnOk result (frames.new ≡ frame ∷ frames.old) }
    ensures names { OnOk result (names.new ≡ name ∷ names.old) }
{
    frames.push(frame)?;
    names.push(name)?;
    Ok(())
}

/// Behind `and`.
fn with_and(reading: Reading, formula: Formula) -> Reading
    ensures { result ≡ with_and reading formula }
{
    let mut next = reading.at(Place::Operand);
    drop(replace(&mut next.conjunct, Some(formula)));
    next
}

/// Behind `or`.
fn with_or(alloc: Global, reading: Reading, formula: Formula) -> Result<Reading, Mem>
    ensures { IfOk result (λ next. next ≡ with_or reading formula) }
{
    let mut next = reading.at(Place::Operand);
    match ored(alloc, next.disjunct.take(), formula) {
        Ok(left) => {
            drop(replace(&mut next.disjunct, Some(left)));
            Ok(next)
        }
        Err(mem) => Err(given_up(next, mem)),
    }
}

/// Behind `implies`.
fn with_implies(alloc: Global, reading: Reading, formula: Formula) -> Result<Reading, Mem>
    ensures { IfOk result (λ next. next ≡ implied reading (ored reading.disjunct formula)) }
{
    let Held {
        frames,
        names,
        level,
        nested: _,
        nots: _,
        disjunct,
        conjunct,
    } = reading.held();
    drop(conjunct);
    let left = ored(alloc, disjunct, formula)?;
    let frames = pushed(frames, Frame::Implied(left))?;
    Ok(Reading {
        frames,
        names,
        level,
        nested: level,
        nots: 0,
        disjunct: None,
        conjunct: None,
        place: Place::Start,
    })
}

/// The formula that ends here, with those that end with it.
fn closing(alloc: Global, reading: Reading, formula: Formula) -> Result<Closed, Mem>
    ensures { IfOk result (λ c. c ≡ closing reading formula) }
{
    let Held {
        frames,
        names,
        level: _,
        nested: _,
        nots: _,
        disjunct,
        conjunct,
    } = reading.held();
    drop(conjunct);
    let value = ored(alloc, disjunct, formula)?;
    closed(alloc, frames, names, value)
}

fn step_behind(
    alloc: Global,
    reading: Reading,
    formula: Formula,
    lexeme: &Lexeme,
) -> Result<Reading, Stop>
    ensures { Steps result (step_behind reading formula lexeme.now) }
{
    match lexeme {
        Lexeme::And => Ok(with_and(reading, formula)),
        Lexeme::Or => Ok(with_or(alloc, reading, formula)?),
        Lexeme::Implies => Ok(with_implies(alloc, reading, formula)?),
        Lexeme::Close => close_parens(alloc, closing(alloc, reading, formula)?),
        _ => Err(given_up((reading, formula), Stop::Bad)),
    }
}

/// Behind a term and a sign.
fn step_sign(
    alloc: Global,
    reading: Reading,
    parts: List<Summand>,
    lexeme: &Lexeme,
) -> Result<Reading, Stop>
    ensures { Steps result (step_sign reading parts lexeme.now) }
{
    match *lexeme {
        Lexeme::Sign(sign) => {
            let compared = Compared {
                left: Term { parts },
                sign,
            };
            Ok(reading.at(Place::Side(empty_sum(alloc, Some(compared)))))
        }
        _ => Err(given_up(reading, Stop::Bad)),
    }
}

/// The comparison that a right side ends.
fn compared_with(right: List<Summand>, compared: Compared) -> Formula
    ensures { result ≡ compared_with right compared }
{
    Formula::Cmp(compared.left, compared.sign, Term { parts: right })
}

fn step_compared(
    alloc: Global,
    reading: Reading,
    sum: Sum,
    lexeme: &Lexeme,
) -> Result<Reading, Stop>
    ensures { Steps result (step_compared reading sum sum.compared lexeme.now) }
{
    let Sum {
        compared,
        parts,
        ..
    } = sum;
    match compared {
        Some(compared) => {
            let (rest, formula) = reading.joined(alloc, compared_with(parts, compared))?;
            step_behind(alloc, rest, formula, lexeme)
        }
        None => step_sign(alloc, reading, parts, lexeme),
    }
}

fn step_added(alloc: Global, reading: Reading, sum: Sum, lexeme: &Lexeme) -> Result<Reading, Stop>
    ensures { Steps result (step_added reading sum lexeme.now) }
{
    match lexeme {
        Lexeme::Plus => Ok(reading.at(Place::Part(with_sign(sum, false)))),
        Lexeme::Minus => Ok(reading.at(Place::Part(with_sign(sum, true)))),
        lexeme => step_compared(alloc, reading, sum, lexeme),
    }
}

/// Behind a token that follows a number of units.
fn after_number(
    alloc: Global,
    reading: Reading,
    sum: Sum,
    number: u32,
    lexeme: &Lexeme,
) -> Result<Reading, Stop>
    ensures { Steps result (step_added reading (with_part sum number Edge.One) lexeme.now) }
{
    match with_part(sum, u64::from(number), Edge::One) {
        Ok(sum) => step_added(alloc, reading, sum, lexeme),
        Err(_) => Err(given_up(reading, Stop::Mem)),
    }
}

fn step_number(
    alloc: Global,
    reading: Reading,
    sum: Sum,
    number: u32,
    lexeme: &Lexeme,
) -> Result<Reading, Stop>
    ensures { Steps result (step_number reading sum number lexeme.now) }
{
    match lexeme {
        Lexeme::Star => Ok(reading.at(Place::Factor(sum, number))),
        lexeme => after_number(alloc, reading, sum, number, lexeme),
    }
}

/// One more than a number. Past `2^32` counts as want of memory.
fn one_more(number: u32) -> Result<u32, Stop>
    ensures { MatchResult result (λ next. next ≡ number + 1) (λ stop. stop ≡ Stop.Mem) }
{
    number.checked_add(1).ok_or(Stop::Mem)
}

/// Behind so many `not`s.
fn with_nots(reading: Reading, nots: u32) -> Reading
    requires { reading.nested < 64 }
    ensures { result ≡ at_operand reading nots }
{
    let mut next = reading.at(Place::Operand);
    next.nested += 1;
    next.nots = nots;
    next
}

/// Behind a `not` that may stand there.
fn with_not(reading: Reading) -> Result<Reading, Stop>
    requires { reading.nested < 64 }
    ensures { Steps result (negated reading) }
{
    match one_more(reading.nots) {
        Ok(nots) => Ok(with_nots(reading, nots)),
        Err(stop) => Err(given_up(reading, stop)),
    }
}

/// Behind a `not`.
fn negated(reading: Reading) -> Result<Reading, Stop>
    ensures { Steps result (negated reading) }
{
    if reading.nested < MOST_NESTED {
        with_not(reading)
    } else {
        Err(given_up(reading, Stop::TooDeep))
    }
}

/// Inside a parenthesis.
fn inner(reading: Reading) -> Result<Reading, Mem>
    requires { reading.nested < 64 }
    ensures { IfOk result (λ next. next ≡ inner reading) }
{
    let Held {
        frames,
        names,
        level,
        nested,
        nots,
        disjunct,
        conjunct,
    } = reading.held();
    let outside = Outside {
        level,
        nested,
        nots,
        disjunct,
        conjunct,
    };
    let frames = pushed(frames, Frame::Parens(outside))?;
    Ok(Reading {
        frames,
        names,
        level: nested + 1,
        nested: 0,
        nots: 0,
        disjunct: None,
        conjunct: None,
        place: Place::Start,
    })
}

/// Inside a parenthesis that may stand there.
fn opened(reading: Reading) -> Result<Reading, Stop>
    ensures { Steps result (opened reading) }
{
    if reading.nested < MOST_NESTED {
        Ok(inner(reading)?)
    } else {
        Err(given_up(reading, Stop::TooDeep))
    }
}

fn step_operand(alloc: Global, reading: Reading, lexeme: &Lexeme) -> Result<Reading, Stop>
    ensures { Steps result (step_operand reading lexeme.now) }
{
    match *lexeme {
        Lexeme::Not => negated(reading),
        Lexeme::Open => opened(reading),
        Lexeme::Truth(value) => Ok(reading.completed(alloc, Formula::Const(value))?),
        Lexeme::Pair(pair) => Ok(reading.at(Place::Pair(pair))),
        _ => match step_side(&reading, empty_sum(alloc, None), lexeme) {
            Ok(place) => Ok(reading.at(place)),
            Err(stop) => Err(given_up(reading, stop)),
        },
    }
}

/// Behind a quantifier that may stand there.
fn with_quantifier(reading: Reading, q: Quantifier) -> Reading
    requires { reading.nested < 64 }
    ensures { result ≡ at_quantifier reading q }
{
    let mut next = reading.at(Place::Quantifier(q));
    next.nested += 1;
    next
}

/// Behind a quantifier.
fn quantifier(reading: Reading, q: Quantifier) -> Result<Reading, Stop>
    ensures { Steps result (quantifier reading q) }
{
    if reading.names.len() < MOST_NAMES && reading.nested < MOST_NESTED {
        Ok(with_quantifier(reading, q))
    } else {
        Err(given_up(reading, Stop::TooDeep))
    }
}

fn step_start(alloc: Global, reading: Reading, lexeme: &Lexeme) -> Result<Reading, Stop>
    ensures { Steps result (step_start reading lexeme.now) }
{
    let fresh = reading.fresh();
    match *lexeme {
        Lexeme::Quantifier(q) => quantifier(fresh, q),
        _ => step_operand(alloc, fresh, lexeme),
    }
}

fn step_quantifier(reading: Reading, q: Quantifier, lexeme: Lexeme) -> Result<Reading, Stop>
    ensures { Steps result (step_quantifier reading q lexeme) }
{
    match lexeme {
        Lexeme::Name(name) => Ok(reading.at(Place::Binder(q, name))),
        lexeme => Err(given_up((reading, lexeme), Stop::Bad)),
    }
}

fn step_binder(reading: &Reading, q: Quantifier, name: Text, lexeme: &Lexeme) -> Result<Place, Stop>
    ensures { Moves reading.now result (step_binder reading.now q name lexeme.now) }
{
    match lexeme {
        Lexeme::In => Ok(Place::Domain(q, name)),
        _ => Err(Stop::Bad),
    }
}

fn step_domain(reading: Reading, q: Quantifier, name: Text, lexeme: Lexeme) -> Result<Reading, Stop>
    ensures { Steps result (step_domain reading q name lexeme) }
{
    match lexeme {
        Lexeme::Members(set) => Ok(reading.at(Place::Ranged(q, name, set))),
        lexeme => Err(given_up(((reading, name), lexeme), Stop::Bad)),
    }
}

/// Inside a quantifier, which binds a name.
fn bind(reading: Reading, q: Quantifier, name: Text, set: Set) -> Result<Reading, Mem>
    ensures { IfOk result (λ next. next ≡ bind reading q name set) }
{
    let mut next = reading.at(Place::Start);
    next.level = next.nested;
    match open_frame(
        &mut next.frames,
        &mut next.names,
        Frame::Quantified(q, set),
        name,
    ) {
        Ok(()) => Ok(next),
        Err(mem) => {
            drop(next);
            Err(mem)
        }
    }
}

fn step_ranged(
    reading: Reading,
    q: Quantifier,
    name: Text,
    set: Set,
    lexeme: &Lexeme,
) -> Result<Reading, Stop>
    ensures { Steps result (step_ranged reading q name set lexeme.now) }
{
    match lexeme {
        Lexeme::Colon => Ok(bind(reading, q, name, set)?),
        _ => Err(given_up(((reading, name), set), Stop::Bad)),
    }
}

fn step_pair(reading: &Reading, pair: Pair, lexeme: &Lexeme) -> Result<Place, Stop>
    ensures { Moves reading.now result (step_pair reading.now pair lexeme.now) }
{
    match lexeme {
        Lexeme::Open => Ok(Place::First(pair)),
        _ => Err(Stop::Bad),
    }
}

fn step_first(reading: &Reading, pair: Pair, lexeme: &Lexeme) -> Result<Place, Stop>
    ensures { Moves reading.now result (step_first reading.now pair lexeme.now) }
{
    match lexeme {
        Lexeme::Name(name) => match reading.names.above(name.as_str()) {
            Some(above) => Ok(Place::Comma(pair, place(above)?)),
            None => Err(Stop::Unbound),
        },
        _ => Err(Stop::Bad),
    }
}

fn step_comma(reading: &Reading, pair: Pair, first: u32, lexeme: &Lexeme) -> Result<Place, Stop>
    ensures { Moves reading.now result (step_comma reading.now pair first lexeme.now) }
{
    match lexeme {
        Lexeme::Comma => Ok(Place::Second(pair, first)),
        _ => Err(Stop::Bad),
    }
}

fn step_second(reading: &Reading, pair: Pair, first: u32, lexeme: &Lexeme) -> Result<Place, Stop>
    ensures { Moves reading.now result (step_second reading.now pair first lexeme.now) }
{
    match lexeme {
        Lexeme::Name(name) => match reading.names.above(name.as_str()) {
            Some(above) => Ok(Place::Last(pair, first, place(above)?)),
            None => Err(Stop::Unbound),
        },
        _ => Err(Stop::Bad),
    }
}

fn step_last(
    alloc: Global,
    reading: Reading,
    pair: Pair,
    names: (u32, u32),
    lexeme: &Lexeme,
) -> Result<Reading, Stop>
    ensures { Steps result (step_last reading pair names.0 names.1 lexeme.now) }
{
    match lexeme {
        Lexeme::Close => Ok(reading.completed(alloc, paired(pair, names.0, names.1))?),
        _ => Err(given_up(reading, Stop::Bad)),
    }
}

/// Where the next token leads from a place where nothing but the place changes.
fn move_on(reading: &Reading, place: Place, lexeme: &Lexeme) -> Result<Place, Stop>
    requires { keeps place ≡ false }
    ensures { Moves reading.now result (move_at place reading.now lexeme.now) }
{
    match place {
        Place::Binder(q, name) => step_binder(reading, q, name, lexeme),
        Place::Pair(pair) => step_pair(reading, pair, lexeme),
        Place::First(pair) => step_first(reading, pair, lexeme),
        Place::Comma(pair, first) => step_comma(reading, pair, first, lexeme),
        Place::Second(pair, first) => step_second(reading, pair, first, lexeme),
        Place::Side(sum) => step_side(reading, sum, lexeme),
        Place::Part(sum) => step_part(reading, sum, lexeme),
        Place::Factor(sum, times) => step_edge(reading, sum, times, lexeme),
        Place::Edge(sum, times, spot) => step_spot(reading, sum, times, spot, lexeme),
        place => Err(given_up(place, Stop::Bad)),
    }
}

/// Behind one more token, of which nothing is kept.
fn step_from(alloc: Global, rest: Reading, place: Place, lexeme: &Lexeme) -> Result<Reading, Stop>
    requires { keeps place ≡ false }
    ensures { Steps result (step_at place rest lexeme.now) }
{
    match place {
        Place::Start => step_start(alloc, rest, lexeme),
        Place::Operand => step_operand(alloc, rest, lexeme),
        Place::Behind(formula) => step_behind(alloc, rest, formula, lexeme),
        Place::Ranged(q, name, set) => step_ranged(rest, q, name, set, lexeme),
        Place::Last(pair, first, second) => step_last(alloc, rest, pair, (first, second), lexeme),
        Place::Number(sum, number) => step_number(alloc, rest, sum, number, lexeme),
        Place::Added(sum) => step_added(alloc, rest, sum, lexeme),
        place => match move_on(&rest, place, lexeme) {
            Ok(next) => Ok(rest.at(next)),
            Err(stop) => Err(given_up(rest, stop)),
        },
    }
}

/// Behind one more token.
pub fn step(alloc: Global, reading: Reading, lexeme: Lexeme) -> Result<Reading, Stop>
    ensures { Steps result (step reading lexeme) }
{
    let (rest, place) = reading.split();
    match place {
        Place::Quantifier(q) => step_quantifier(rest, q, lexeme),
        Place::Domain(q, name) => step_domain(rest, q, name, lexeme),
        place => {
            let next = step_from(alloc, rest, place, &lexeme);
            drop(lexeme);
            next
        }
    }
}

/// The formula that has ended, where no parenthesis is open.
fn whole(closed: Closed) -> Result<Formula, Stop>
    ensures { Ends result (whole closed) }
{
    let Closed {
        parens,
        frames,
        names,
        value,
    } = closed;
    drop(frames);
    drop(names);
    match parens {
        Some(outside) => Err(given_up((outside, value), Stop::Bad)),
        None => Ok(value),
    }
}

fn end_behind(alloc: Global, reading: Reading, formula: Formula) -> Result<Formula, Stop>
    ensures { Ends result (whole (closing reading formula)) }
{
    whole(closing(alloc, reading, formula)?)
}

fn end_added(alloc: Global, reading: Reading, sum: Sum) -> Result<Formula, Stop>
    ensures { Ends result (ended_added reading sum sum.compared) }
{
    let Sum {
        compared,
        parts,
        ..
    } = sum;
    match compared {
        Some(compared) => {
            let (rest, formula) = reading.joined(alloc, compared_with(parts, compared))?;
            end_behind(alloc, rest, formula)
        }
        None => Err(given_up(reading, Stop::Bad)),
    }
}

/// The formula that is read where the text ends.
pub fn ended(alloc: Global, reading: Reading) -> Result<Formula, Stop>
    ensures { Ends result (ended reading) }
{
    let (rest, place) = reading.split();
    match place {
        Place::Behind(formula) => end_behind(alloc, rest, formula),
        Place::Number(sum, number) => match with_part(sum, u64::from(number), Edge::One) {
            Ok(sum) => end_added(alloc, rest, sum),
            Err(_) => Err(given_up(rest, Stop::Mem)),
        },
        Place::Added(sum) => end_added(alloc, rest, sum),
        place => Err(given_up((rest, place), Stop::Bad)),
    }
}
