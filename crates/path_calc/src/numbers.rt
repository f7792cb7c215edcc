//! The numbers of a run, each the place of its row, since a layout copies numbers all the time.
use crate::footing::Footing;
use crate::trouble::Trouble;
use cert_semantics::variable_of;
use indexmap::IndexMap;
use lin_proof::Row;
use std::alloc::Global;
use viz_base::{Axis, List, Mem};

/// A number of a run, as the place of its row: a row is large, and a layout copies and moves numbers all the time.
#[derive(Clone, Copy, PartialEq, Eq, Hash)]
pub struct Number {
    place: usize,
}

/// The number 0, with which all runs begin.
pub const NOTHING: Number = Number { place: 0 };

/// The viewport's width in 1/64 px.
pub const WIDTH: Number = Number { place: 1 };

/// The default font size in 1/64 px.
pub const SIZE: Number = Number { place: 2 };

/// The viewport's height in 1/64 px.
pub const HEIGHT: Number = Number { place: 3 };

/// A multiple of a number, divided and rounded down.
#[derive(Clone, Copy, PartialEq, Eq, Hash)]
pub struct Scaling {
    /// The number.
    pub number: Number,
    /// By what it is multiplied.
    pub num: i64,
    /// By what the multiple is divided.
    pub den: u64,
}

/// The rows of a run's numbers. They are kept as long as the run goes on.
#[derive(Drop)]
pub struct Numbers {
    rows: List<Row>,
    /// What was scaled: a layout asks for the measures of a font over and over.
    scaled: IndexMap<Scaling, Number>,
}

/// The row of the number on an axis in 1/64 px.
fn on_axis(alloc: Global, axis: Axis) -> Result<Row, Mem> {
    Ok(Row::of_term(alloc, 0, variable_of(axis), 64)?)
}

impl Numbers {
    /// The number 0 and those on the axes.
    pub fn new(footing: Footing<'_>) -> Result<Self, Mem> {
        let alloc = footing.alloc();
        let mut rows = List::new(alloc);
        rows.push(Row::constant(alloc, 0))?;
        rows.push(on_axis(alloc, Axis::Width)?)?;
        rows.push(on_axis(alloc, Axis::Size)?)?;
        rows.push(footing.height_row()?)?;
        Ok(Numbers {
            rows,
            scaled: IndexMap::new(alloc),
        })
    }

    /// The row of a number. One of another run may have none here.
    pub fn row(&self, number: Number) -> Result<&Row, Trouble> {
        match self.rows.get(number.place) {
            Some(row) => Ok(row),
            None => Err(Trouble::Lost),
        }
    }

    /// A number plus a multiple of another.
    pub fn plus_times(&self, number: Number, times: i128, other: Number) -> Result<Row, Trouble> {
        let row = self.row(number)?;
        Ok(row.add_scaled(times, self.row(other)?)?)
    }

    /// Keeps a row, if there is one.
    pub fn keep(&mut self, given: Result<Row, Trouble>) -> Result<Number, Trouble> {
        let place = self.rows.len();
        self.rows.push(given?)?;
        Ok(Number { place })
    }

    /// What a scaling gave before, if it did.
    pub fn scaled(&self, scaling: Scaling) -> Option<Number> {
        self.scaled.get(&scaling).copied()
    }

    /// Keeps what a scaling gave, if it did.
    pub fn keep_scaled(
        &mut self,
        scaling: Scaling,
        given: Result<Row, Trouble>,
    ) -> Result<Number, Trouble> {
        let number = self.keep(given)?;
        self.scaled.insert(scaling, number)?;
        Ok(number)
    }
}
