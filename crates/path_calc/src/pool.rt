//! Known worlds of a path: where two of them show both signs of a row, it is left open at no cost.
use crate::values::{floor_of, value_of};
use cert_semantics::{along, axis_count, axis_of, variable_of};
use lin_proof::Row;
use std::alloc::Global;
use viz_base::{Axis, Mem, Rect, World};

/// A world of a path, with what the path's variables are there: the numbers on the axes, and the floors.
#[derive(Drop)]
pub struct Known {
    /// What the variables are, by their numbers.
    pub values: Vec<i128>,
}

/// What the known worlds tell of the sign of a row.
#[derive(Clone, Copy)]
pub enum Signs {
    /// Nothing.
    Unknown,
    /// Whether it is at least 0 at each of them.
    Same(bool),
    /// It is at least 0 at one of them, and below 0 at another.
    Both,
}

/// The widths of a path at one size and one height, as far as is known: all from the least to the greatest, and no
/// others.
#[derive(Clone, Copy)]
pub struct Slice {
    /// The size.
    pub size: u32,
    /// The height.
    pub height: u32,
    /// The least width.
    pub least: u32,
    /// The greatest width.
    pub most: u32,
}

/// Worlds of a path. The first stands for all.
#[derive(Drop)]
pub struct Pool {
    /// The worlds.
    pub worlds: Vec<Known>,
    /// The path size by size, at some heights; none where it has too many sizes.
    pub slices: Vec<Slice>,
}

impl Known {
    /// A world of the range of a job of this form, where no floor is named yet.
    pub fn new(alloc: Global, form: u8, world: World) -> Result<Self, Mem> {
        let mut values = Vec::new(alloc);
        for variable in 0..axis_count(form) {
            if let Some(axis) = axis_of(form, variable) {
                values.push(i128::from(along(axis, world)))?;
            }
        }
        Ok(Known { values })
    }

    /// The world, of the range of a job of this form.
    pub fn world(&self, form: u8, range: Rect) -> Option<World> {
        let w = self.number_on(form, range, Axis::Width)?;
        let s = self.number_on(form, range, Axis::Size)?;
        let h = self.number_on(form, range, Axis::Height)?;
        Some(World { w, s, h })
    }

    /// The world's number on an axis. The range has but one where the form has no variable for it.
    fn number_on(&self, form: u8, range: Rect, axis: Axis) -> Option<u32> {
        let variable = variable_of(axis);
        if variable >= axis_count(form) {
            return Some(range.side(axis).least);
        }
        let number = *self.values.get(variable as usize)?;
        u32::try_from(number).ok()
    }

    /// Whether a row is at least 0 here, if its value is in `i128`.
    fn sign_of(&self, row: &Row) -> Option<bool> {
        // A value outside 128 bits tells nothing, and the world is passed over for this row.
        let value = value_of(row, self.values.as_slice())?;
        Some(value >= 0)
    }

    /// Whether a row is not above another one here, and their values are in `i128`.
    fn is_below(&self, row: &Row, other: &Row) -> bool {
        let values = self.values.as_slice();
        match value_of(row, values).zip(value_of(other, values)) {
            Some((value, bound)) => value <= bound,
            None => false,
        }
    }

    /// Adds the value of a floor, which is the next variable. False where it is outside `i128`.
    fn name(&mut self, row: &Row, by: i128) -> Result<bool, Mem> {
        match floor_of(row, by, self.values.as_slice()) {
            Some(value) => {
                self.values.push(value)?;
                Ok(true)
            }
            None => Ok(false),
        }
    }
}

impl Pool {
    /// A pool without worlds.
    pub fn new(alloc: Global) -> Self {
        Pool {
            worlds: Vec::new(alloc),
            slices: Vec::new(alloc),
        }
    }

    /// What the worlds tell of the sign of a row.
    pub fn signs_of(&self, row: &Row) -> Signs {
        let mut signs = Signs::Unknown;
        for known in &self.worlds {
            if let Some(yes) = known.sign_of(row) {
                signs = joined(signs, yes);
            }
        }
        signs
    }

    /// Whether a row is at least 0 at the first world.
    pub fn is_met_by_first(&self, row: &Row) -> bool {
        match self.worlds.first() {
            Some(known) => known.sign_of(row) == Some(true),
            None => false,
        }
    }

    /// Whether a row is nowhere above another one.
    pub fn is_below(&self, row: &Row, other: &Row) -> bool {
        for known in &self.worlds {
            if !known.is_below(row, other) {
                return false;
            }
        }
        true
    }

    /// Names a floor, which is the next variable, at each world. False where one of its values is outside `i128`.
    pub fn name(&mut self, row: &Row, by: i128) -> Result<bool, Mem> {
        for known in self.worlds.iter_mut() {
            if !known.name(row, by)? {
                return Ok(false);
            }
        }
        Ok(true)
    }

    /// Forgets all variables but the first ones.
    pub fn forget(&mut self, variables: usize) {
        for known in self.worlds.iter_mut() {
            known.values.truncate(variables);
        }
    }

    /// Takes out the worlds at which a row is at least 0, and those at which it is below 0.
    pub fn parted(&mut self, alloc: Global, row: &Row) -> Result<(Pool, Pool), Mem> {
        let worlds = std::mem::replace(&mut self.worlds, Vec::new(alloc));
        let mut first = Pool::new(alloc);
        let mut second = Pool::new(alloc);
        part(worlds, row, &mut first, &mut second)?;
        Ok((first, second))
    }

    /// Adds a world.
    pub fn put(&mut self, known: Known) -> Result<(), Mem> {
        self.worlds.push(known)?;
        Ok(())
    }

    /// The world that stands for all, of the range of a job of this form.
    pub fn first_world(&self, form: u8, range: Rect) -> Option<World> {
        self.worlds.first()?.world(form, range)
    }
}

/// Moves the worlds at which a row is at least 0 to a pool, and those at which it is below 0 to another.
fn part(worlds: Vec<Known>, row: &Row, first: &mut Pool, second: &mut Pool) -> Result<(), Mem> {
    for known in worlds {
        match known.sign_of(row) {
            Some(true) => first.put(known)?,
            Some(false) => second.put(known)?,
            None => {}
        }
    }
    Ok(())
}

/// What is told by signs and by one more.
fn joined(signs: Signs, yes: bool) -> Signs {
    match signs {
        Signs::Unknown => Signs::Same(yes),
        Signs::Same(other) if other == yes => Signs::Same(other),
        _ => Signs::Both,
    }
}
