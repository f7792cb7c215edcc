//! The path on which a run stands, with the counts by which its facts and variables are numbered.
ghost use Rattle.std.specs.Prelude.{◌≡◌, ◌+◌, IfSome, length};
ghost use Rattle.cert_semantics.specs.Axes.{axis_count};

use cert_semantics::{axis_count, variable_of};
use lin_proof::Row;
use std::alloc::Global;
use sym_calc::Path;
use viz_base::{Axis, Mem};

/// The path on which a run stands, and how its facts and variables are numbered.
#[derive(Clone, Copy)]
pub struct Footing<'a> {
    /// The path.
    pub path: &'a Path,
    /// The number of the first of the two facts of each floor that the path names.
    pub named: &'a [u32],
    /// How many facts the path has.
    pub facts: u32,
    /// How many variables the path has.
    pub variables: u32,
}

impl<'a> Footing<'a> {
    /// The footing of a path. None where numbers of 32 bits don't do for its facts and variables.
    pub fn on(path: &'a Path, named: &'a [u32]) -> Option<Footing<'a>> {
        Some(Footing {
            path,
            named,
            facts: u32::try_from(path.facts.len()).ok()?,
            variables: variable_count(path)?,
        })
    }

    /// How many axes its variables stand for.
    pub fn axis_count(self) -> u32 {
        axis_count(self.path.origin.form)
    }

    /// The viewport's height in 1/64 px.
    pub fn height_row(self) -> Result<Row, Mem> {
        let variable = variable_of(Axis::Height);
        if variable < self.axis_count() {
            return Ok(Row::of_term(self.alloc(), 0, variable, 64)?);
        }
        let units = i128::from(self.path.origin.height).saturating_mul(64);
        Ok(Row::constant(self.alloc(), units))
    }

    /// Where runs take memory.
    pub fn alloc(self) -> Global {
        self.path.facts.allocator()
    }
}

/// How many variables a path has. None where numbers of 32 bits don't do for them.
pub fn variable_count(path: &Path) -> Option<u32>
    ensures { IfSome result (λ count. count
        ≡ length path.now.floors + axis_count path.now.origin.form) }
{
    u32::try_from(
        path.floors
            .len()
            .saturating_add(axis_count(path.origin.form) as usize),
    )
    .ok()
}
