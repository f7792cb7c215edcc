ghost use Rattle.std.specs.Prelude.{◌≡◌, [], OnErr, OnOk};
ghost use Rattle.std.specs.List.{find};
ghost use Rattle.std.specs.Option.{option_copied};

use indexmap::IndexSet;
use lin_proof::Row;
use std::alloc::Global;
use std::hash::{Hash, Hasher};
use std::marker::Model;
use viz_base::Mem;

/// A row, equal to each row that has the same terms.
#[derive(Drop)]
pub struct Alike {
    /// The row.
    pub row: Row,
}

impl PartialEq for Alike {
    ghost use Rattle.std.specs.Cmp.{partial_equiv_from_equiv};
    ghost use Rattle.sym_calc.specs.Told.{same_terms};
    ghost use Rattle.sym_calc.specs.Same.{same_terms_equivalence};

    ghost eq = { same_terms };

    ghost laws = { partial_equiv_from_equiv same_terms_equivalence };

    fn eq(&self, other: &Alike) -> bool {
        self.row.terms.as_slice() == other.row.terms.as_slice()
    }
}

impl Eq for Alike {
    ghost use Rattle.sym_calc.specs.Same.{same_terms_equivalence};

    ghost laws = { same_terms_equivalence };
}

impl Hash for Alike {
    ghost use Rattle.sym_calc.specs.Same.{same_terms_fed, terms_input};

    ghost hash_input = { λ a. terms_input a.row.terms };

    ghost respects_eq = { same_terms_fed };

    fn hash<H: Hasher>(&self, state: &mut H) {
        self.row.terms.as_slice().hash(state);
    }
}

/// Rows, one for all that have the same terms. Contracts see them as the list of them.
#[derive(Drop)]
pub struct Bounds {
    inner: IndexSet<Alike>,
}

impl Model for Bounds {
    ghost use Rattle.std.specs.Prelude.{List};
    ghost use Rattle.sym_calc.specs.declared.told.Alike.{Alike};

    ghost Value = { List Alike };

    ghost view = { λ a. a.inner.keys };
}

impl Bounds {
    ghost use Rattle.sym_calc.specs.Told.{put, same_terms};

    /// No rows. Takes no memory.
    pub fn new(alloc: Global) -> Self
        ensures { result ≡ [] }
    {
        Bounds {
            inner: IndexSet::new(alloc),
        }
    }

    /// The one that has the same terms, if there is one.
    pub fn get(&self, row: &Alike) -> Option<&Alike>
        ensures { option_copied result ≡ find (same_terms row.now) self.now }
    {
        self.inner.get(row)
    }

    /// Puts a row in the place of the one that has the same terms, or behind all. An `Err` leaves them as they were.
    pub fn put(&mut self, row: Alike) -> Result<(), Mem>
        ensures ok { OnOk result (self.new ≡ put self.old row) }
        ensures err { OnErr result (self.new ≡ self.old) }
    {
        self.inner.replace(row)?;
        Ok(())
    }
}

/// What answers told of rows.
#[derive(Drop)]
pub struct Told {
    /// Rows that are at least 0, each with the least constant that was told of its terms.
    pub least: Bounds,
    /// Rows that are below 0, each with the greatest one.
    pub most: Bounds,
}

impl Told {
    ghost use Rattle.sym_calc.specs.Told.{learned, tells};

    /// Nothing was told. Takes no memory.
    pub fn new(alloc: Global) -> Self
        ensures least { result.least ≡ [] }
        ensures most { result.most ≡ [] }
    {
        Told {
            least: Bounds::new(alloc),
            most: Bounds::new(alloc),
        }
    }

    /// Whether a row is at least 0, if that was told. Takes no memory.
    pub fn answer_to(&self, row: &Alike) -> Option<bool>
        ensures { result ≡ tells self.now row.now }
    {
        if let Some(least) = self.least.get(row) {
            if least.row.k <= row.row.k {
                return Some(true);
            }
        }
        match self.most.get(row) {
            Some(most) if row.row.k <= most.row.k => Some(false),
            _ => None,
        }
    }

    /// Learns whether a row is at least 0, which was not told. An `Err` leaves all as it was.
    pub fn learn(&mut self, row: Alike, yes: bool) -> Result<(), Mem>
        ensures ok { OnOk result (self.new ≡ learned self.old row yes) }
        ensures err { OnErr result (self.new ≡ self.old) }
    {
        if yes {
            self.least.put(row)
        } else {
            self.most.put(row)
        }
    }
}
