ghost use Rattle.std.specs.Prelude.{◌≡◌, ◌↔◌, [], ◌∷◌, ◌++◌, length, IsTrue, IfOk, OnErr, OnOk};

use smallvec::SmallVec;
use std::alloc::{AllocError, Global};
use std::marker::Model;

/// A row's terms, each a variable's number and its coefficient. Four of them lie in place.
/// Contracts see them as the list of these pairs.
#[derive(Debug, Drop)]
pub struct Terms {
    inner: SmallVec<(u32, i128), 4>,
}

impl Model for Terms {
    ghost use Rattle.std.specs.Prelude.{List, ℕ, ℤ};

    ghost Value = { List (ℕ × ℤ) };

    ghost view = { λ a. a.inner.items };
}

impl Terms {
    /// No terms. Takes no memory.
    pub fn new(alloc: Global) -> Self
        ensures { result ≡ [] }
    {
        Terms {
            inner: SmallVec::new(alloc),
        }
    }

    /// A copy of terms.
    pub fn from_slice(alloc: Global, terms: &[(u32, i128)]) -> Result<Self, AllocError>
        ensures { IfOk result (λ t. t ≡ terms.now) }
    {
        Ok(Terms {
            inner: SmallVec::from_slice(alloc, terms)?,
        })
    }

    /// Where the terms lie once they are more than four.
    pub fn allocator(&self) -> Global {
        *self.inner.allocator()
    }

    /// How many terms there are.
    pub fn len(&self) -> usize
        ensures { result ≡ length self.now }
    {
        self.inner.len()
    }

    /// Whether there are none.
    pub fn is_empty(&self) -> bool
        ensures { IsTrue result ↔ (self.now ≡ []) }
    {
        self.inner.is_empty()
    }

    /// The terms, as pairs of a variable's number and its coefficient.
    pub fn as_slice(&self) -> &[(u32, i128)]
        ensures { result.now ≡ self.now }
    {
        self.inner.as_slice()
    }

    /// Adds a term at the end. An `Err` leaves the terms as they were.
    pub fn push(&mut self, variable: u32, coefficient: i128) -> Result<(), AllocError>
        ensures ok { OnOk result (self.new ≡ self.old ++ (variable, coefficient) ∷ []) }
        ensures err { OnErr result (self.new ≡ self.old) }
    {
        self.inner.push((variable, coefficient))?;
        Ok(())
    }
}
