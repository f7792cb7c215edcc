ghost use Rattle.std.specs.Prelude.{◌≡◌, ◌<◌, ◌^◌, nat_le, IfOk};
ghost use Rattle.vis_read.specs.Grammar.{multiple};
ghost use Rattle.vis_read.specs.steps.Machine.{Moves, at, at_number, empty_sum, step_dot, step_edge, step_face, step_part, step_ring, step_side, step_spot, step_view, with_part, with_sign};

use crate::faults::{Stop, given_up};
use crate::lexemes::{Lexeme, Unit};
use crate::places::place;
use crate::reading::{Compared, Place, Reading, Spot, Sum};
use std::alloc::Global;
use viz_base::{Edge, List, Mem, Ring, Summand};

/// The greatest factor.
const MOST_FACTOR: u32 = 65_536;

/// So often an edge, or less where a minus stands before it.
fn multiple(minus: bool, times: u64, edge: Edge) -> Summand
    requires { times < 2 ^ 40 }
    ensures { result ≡ multiple minus times edge }
{
    let times = times as i64;
    Summand {
        times: if minus { -times } else { times },
        edge,
    }
}

/// A term of which nothing is read.
pub fn empty_sum(alloc: Global, compared: Option<Compared>) -> Sum
    ensures { result ≡ empty_sum compared }
{
    Sum {
        compared,
        parts: List::new(alloc),
        minus: false,
    }
}

/// Behind a sign.
pub fn with_sign(mut sum: Sum, minus: bool) -> Sum
    ensures { result ≡ with_sign sum minus }
{
    sum.minus = minus;
    sum
}

/// With one more part.
pub fn with_part(sum: Sum, times: u64, edge: Edge) -> Result<Sum, Mem>
    requires { times < 2 ^ 40 }
    ensures { IfOk result (λ next. next ≡ with_part sum times edge) }
{
    let Sum {
        compared,
        mut parts,
        minus,
    } = sum;
    parts.push(multiple(minus, times, edge))?;
    Ok(Sum {
        compared,
        parts,
        minus: false,
    })
}

/// Behind a part of a term.
fn added(sum: Sum, times: u64, edge: Edge) -> Result<Place, Mem>
    requires { times < 2 ^ 40 }
    ensures { IfOk result (λ next. next ≡ Place.Added (with_part sum times edge)) }
{
    Ok(Place::Added(with_part(sum, times, edge)?))
}

/// After a number of times in a sum: the name of a box, or the viewport.
pub fn step_edge(reading: &Reading, sum: Sum, times: u32, lexeme: &Lexeme) -> Result<Place, Stop>
    ensures { Moves reading.now result (step_edge reading.now sum times lexeme.now) }
{
    match lexeme {
        Lexeme::Name(name) => match reading.names.above(name.as_str()) {
            Some(above) => match place(above) {
                Ok(name) => Ok(Place::Edge(sum, times, Spot::Name(name))),
                Err(_) => Err(given_up(sum, Stop::Mem)),
            },
            None => Err(given_up(sum, Stop::Unbound)),
        },
        Lexeme::View => Ok(Place::Edge(sum, times, Spot::View)),
        _ => Err(given_up(sum, Stop::Bad)),
    }
}

/// Behind a number of units, which a `*` may follow where it is not too great.
fn at_number(reading: &Reading, sum: Sum, number: u32) -> Result<Place, Mem>
    ensures { IfOk result (λ place. at reading.now place
        ≡ at_number reading.now sum number (nat_le number 65536)) }
{
    if number <= MOST_FACTOR {
        Ok(Place::Number(sum, number))
    } else {
        added(sum, u64::from(number), Edge::One)
    }
}

/// After the sign of a part of a sum: a number, or an edge taken once.
pub fn step_part(reading: &Reading, sum: Sum, lexeme: &Lexeme) -> Result<Place, Stop>
    ensures { Moves reading.now result (step_part reading.now sum lexeme.now) }
{
    match *lexeme {
        Lexeme::Number(number, Unit::One) => Ok(at_number(reading, sum, number)?),
        Lexeme::Number(number, Unit::Px) => Ok(added(sum, u64::from(number) * 64, Edge::One)?),
        _ => step_edge(reading, sum, 1, lexeme),
    }
}

/// At the beginning of a sum: a minus, or its first part.
pub fn step_side(reading: &Reading, sum: Sum, lexeme: &Lexeme) -> Result<Place, Stop>
    ensures { Moves reading.now result (step_side reading.now sum lexeme.now) }
{
    match lexeme {
        Lexeme::Minus => Ok(Place::Part(with_sign(sum, true))),
        lexeme => step_part(reading, sum, lexeme),
    }
}

fn step_dot(
    reading: &Reading,
    sum: Sum,
    times: u32,
    spot: Spot,
    lexeme: &Lexeme,
) -> Result<Place, Stop>
    ensures { Moves reading.now result (step_dot reading.now sum times spot lexeme.now) }
{
    match lexeme {
        Lexeme::Dot => Ok(Place::Edge(sum, times, spot)),
        _ => Err(given_up(sum, Stop::Bad)),
    }
}

fn step_ring(
    reading: &Reading,
    sum: Sum,
    times: u32,
    name: u32,
    lexeme: &Lexeme,
) -> Result<Place, Stop>
    ensures { Moves reading.now result (step_ring reading.now sum times name lexeme.now) }
{
    match *lexeme {
        Lexeme::Face(face) => {
            let edge = Edge::Name(name, Ring::Border, face);
            Ok(added(sum, u64::from(times), edge)?)
        }
        Lexeme::Ring(ring) => Ok(Place::Edge(sum, times, Spot::Ring(name, ring))),
        _ => Err(given_up(sum, Stop::Bad)),
    }
}

fn step_face(
    reading: &Reading,
    sum: Sum,
    times: u32,
    spot: (u32, Ring),
    lexeme: &Lexeme,
) -> Result<Place, Stop>
    ensures { Moves reading.now result (step_face reading.now sum times spot.0 spot.1 lexeme.now) }
{
    match *lexeme {
        Lexeme::Face(face) => {
            let edge = Edge::Name(spot.0, spot.1, face);
            Ok(added(sum, u64::from(times), edge)?)
        }
        _ => Err(given_up(sum, Stop::Bad)),
    }
}

fn step_view(reading: &Reading, sum: Sum, times: u32, lexeme: &Lexeme) -> Result<Place, Stop>
    ensures { Moves reading.now result (step_view reading.now sum times lexeme.now) }
{
    match lexeme {
        Lexeme::Width => Ok(added(sum, u64::from(times), Edge::ViewWidth)?),
        Lexeme::Height => Ok(added(sum, u64::from(times), Edge::ViewHeight)?),
        _ => Err(given_up(sum, Stop::Bad)),
    }
}

/// Within an edge: its dot, its rectangle, or its side.
pub fn step_spot(
    reading: &Reading,
    sum: Sum,
    times: u32,
    spot: Spot,
    lexeme: &Lexeme,
) -> Result<Place, Stop>
    ensures { Moves reading.now result (step_spot reading.now sum times spot lexeme.now) }
{
    match spot {
        Spot::Name(name) => step_dot(reading, sum, times, Spot::NameDot(name), lexeme),
        Spot::NameDot(name) => step_ring(reading, sum, times, name, lexeme),
        Spot::Ring(name, ring) => {
            step_dot(reading, sum, times, Spot::RingDot(name, ring), lexeme)
        }
        Spot::RingDot(name, ring) => step_face(reading, sum, times, (name, ring), lexeme),
        Spot::View => step_dot(reading, sum, times, Spot::ViewDot, lexeme),
        Spot::ViewDot => step_view(reading, sum, times, lexeme),
    }
}
