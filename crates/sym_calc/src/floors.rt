ghost use Rattle.std.specs.Prelude.{◌≡◌, [], ◌∷◌, ◌++◌, false, is_some, length, position, slice_get, take, OnErr, OnOk};
ghost use Rattle.std.specs.List.{list_any};
ghost use Rattle.std.specs.Option.{option_copied};
ghost use Rattle.cert_semantics.specs.Shapes.{same_row};

use indexmap::IndexSet;
use lin_proof::Row;
use std::alloc::Global;
use std::hash::{Hash, Hasher};
use std::marker::Model;
use viz_base::Mem;

/// A row divided by a number and rounded down.
#[derive(Drop)]
pub struct Floor {
    /// The row.
    pub row: Row,
    /// The number that divides it.
    pub by: i128,
}

/// Whether two rows are the same.
pub fn same_row(row: &Row, other: &Row) -> bool
    ensures { result ≡ same_row row.now other.now }
{
    row.k == other.k && row.terms.as_slice() == other.terms.as_slice()
}

impl PartialEq for Floor {
    ghost use Rattle.std.specs.Cmp.{partial_equiv_from_equiv};
    ghost use Rattle.sym_calc.specs.Floors.{same_floor};
    ghost use Rattle.sym_calc.specs.Same.{same_floor_equivalence};

    ghost eq = { same_floor };

    ghost laws = { partial_equiv_from_equiv same_floor_equivalence };

    fn eq(&self, other: &Floor) -> bool {
        same_row(&self.row, &other.row) && self.by == other.by
    }
}

impl Eq for Floor {
    ghost use Rattle.sym_calc.specs.Same.{same_floor_equivalence};

    ghost laws = { same_floor_equivalence };
}

impl Hash for Floor {
    ghost use Rattle.std.specs.Prelude.{◌++◌};
    ghost use Rattle.std.specs.Hash as fed;
    ghost use Rattle.std.specs.Hash.{same_Alike};
    ghost use Rattle.sym_calc.specs.Same.{decides_same_floor, terms_input};

    ghost hash_input = { λ f. fed.i128 f.row.k ++ terms_input f.row.terms ++ fed.i128 f.by };

    ghost respects_eq = { (same_Alike _ decides_same_floor).fed };

    fn hash<H: Hasher>(&self, state: &mut H) {
        self.row.k.hash(state);
        self.row.terms.as_slice().hash(state);
        self.by.hash(state);
    }
}

/// Floors, each once, in the order in which they are named. Contracts see them as the list of them.
#[derive(Drop)]
pub struct Floors {
    inner: IndexSet<Floor>,
}

impl Model for Floors {
    ghost use Rattle.std.specs.Prelude.{List};
    ghost use Rattle.sym_calc.specs.declared.floors.Floor.{Floor};

    ghost Value = { List Floor };

    ghost view = { λ a. a.inner.keys };
}

impl Floors {
    ghost use Rattle.sym_calc.specs.Floors.{same_floor};

    /// No floors. Takes no memory.
    pub fn new(alloc: Global) -> Self
        ensures { result ≡ [] }
    {
        Floors {
            inner: IndexSet::new(alloc),
        }
    }

    /// How many there are.
    pub fn len(&self) -> usize
        ensures { result ≡ length self.now }
    {
        self.inner.len()
    }

    /// The floor at a place, from 0; none past the end.
    pub fn get(&self, place: usize) -> Option<&Floor>
        ensures { option_copied result ≡ slice_get self.now place }
    {
        self.inner.get_index(place)
    }

    /// The place of a floor, if it is among them.
    pub fn place_of(&self, floor: &Floor) -> Option<usize>
        ensures place { result ≡ position (same_floor floor.now) self.now }
        ensures found { is_some result ≡ list_any (same_floor floor.now) self.now }
    {
        self.inner.get_index_of(floor)
    }

    /// Adds a floor that is not among them, behind all others. An `Err` leaves them as they were.
    pub fn push(&mut self, floor: Floor) -> Result<(), Mem>
        requires { list_any (same_floor floor) self.old ≡ false }
        ensures ok { OnOk result (self.new ≡ self.old ++ floor ∷ []) }
        ensures err { OnErr result (self.new ≡ self.old) }
    {
        self.inner.insert(floor)?;
        Ok(())
    }

    /// Keeps the first of them.
    pub fn truncate(&mut self, len: usize)
        ensures { self.new ≡ take len self.old }
    {
        self.inner.truncate(len);
    }
}
