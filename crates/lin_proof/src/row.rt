ghost use Rattle.std.specs.Prelude.{◌≡◌, ◌≢◌, ◌<ℤ◌, ◌∷◌, [], pos, IfOk, IsTrue};
ghost use Rattle.lin_proof.specs.Form.{checked_terms, opposites};
ghost use Rattle.lin_proof.specs.Cut.{are_multiples, quotients};

use crate::merge::{add_product, merged};
use crate::terms::Terms;
use std::alloc::{AllocError, Global};
use std::marker::Model;
use thiserror::Error;
use viz_base::Mem;

/// A linear form: a constant, and terms with strictly ascending variables and coefficients other
/// than 0. It claims that the form is at least 0.
#[derive(Debug, Drop)]
pub struct Row {
    /// The constant.
    pub k: i128,
    /// The variables' numbers with their coefficients.
    pub terms: Terms,
}

impl Model for Row {
    ghost use Rattle.lin_proof.specs.Form.{Form, IsCanonical};

    ghost Value = { Form };

    ghost view = { λ r. record { k = r.k; terms = r.terms } };

    ghost invariant = { λ r. IsCanonical r.terms };

    ghost inverse = { λ f. record { k = f.k; terms = f.terms } };
}

/// Why a row is not given.
#[derive(Clone, Copy, Debug, PartialEq, Eq, Error)]
pub enum RowFault {
    /// Want of memory.
    #[error("out of memory")]
    Mem,
    /// A number of the exact row is outside `i128`.
    #[error("a number is outside 128 bits")]
    Coeff,
}

impl From<AllocError> for RowFault {
    ghost use Rattle.std.specs.Prelude.{◌≡◌};
    ghost use Rattle.lin_proof.specs.declared.row.RowFault.TheVariants.{Mem};

    ghost from_gives = { λ _ fault. fault ≡ Mem };

    fn from(_: AllocError) -> Self {
        RowFault::Mem
    }
}

impl Row {
    ghost use Rattle.lin_proof.specs.Form.{checked_form, denied, plus};
    ghost use Rattle.lin_proof.specs.Cut.{cut, divides};
    ghost use Rattle.lin_proof.specs.Exact.{IsExact};

    /// A row of a constant alone. Takes no memory.
    pub fn constant(alloc: Global, k: i128) -> Self
        ensures { result ≡ record { k = k; terms = [] } }
    {
        Row {
            k,
            terms: Terms::new(alloc),
        }
    }

    /// A row of one term, whose coefficient is other than 0. The only fault is want of memory.
    pub fn of_term(
        alloc: Global,
        k: i128,
        variable: u32,
        coefficient: i128,
    ) -> Result<Self, AllocError>
        requires { coefficient ≢ pos 0 }
        ensures { IfOk result (λ row. row
            ≡ record { k = k; terms = (variable, coefficient) ∷ [] }) }
    {
        let mut terms = Terms::new(alloc);
        terms.push(variable, coefficient)?;
        Ok(Row { k, terms })
    }

    /// The row that is at least 0 exactly where this one is below 0: its negative less 1.
    /// `Coeff` exactly where a number of that row is outside `i128`.
    pub fn negate(&self) -> Result<Row, RowFault>
        ensures { IsExact result (denied self.now) }
    {
        match negated(self.terms.allocator(), self.terms.as_slice())? {
            // `-k - 1`, which is in `i128` for each `k`.
            Some(terms) => Ok(Row {
                k: -1 - self.k,
                terms,
            }),
            None => Err(RowFault::Coeff),
        }
    }

    /// This row plus `m` times another. `Coeff` exactly where a number of that row is outside `i128`;
    /// products and sums on the way to it may be.
    pub fn add_scaled(&self, m: i128, other: &Row) -> Result<Row, RowFault>
        ensures { IsExact result (plus self.now m other.now) }
    {
        self.sum_within(m, other)?.ok_or(RowFault::Coeff)
    }

    /// This row plus `m` times another, if each of its numbers is in `i128`.
    fn sum_within(&self, m: i128, other: &Row) -> Result<Option<Row>, AllocError>
        ensures { IfOk result (λ sum. sum ≡ checked_form (plus self.now m other.now)) }
    {
        let Some(k) = add_product(self.k, m, other.k) else {
            return Ok(None);
        };
        let alloc = self.terms.allocator();
        match merged(alloc, self.terms.as_slice(), m, other.terms.as_slice())? {
            Some(terms) => Ok(Some(Row { k, terms })),
            None => Ok(None),
        }
    }

    /// Whether a number is at least 1 and divides each coefficient. Takes no memory.
    pub fn divides(&self, d: i128) -> bool
        ensures { result ≡ divides d self.now }
    {
        d >= 1 && are_multiples(d, self.terms.as_slice())
    }

    /// The row divided by a number that divides it, its constant rounded down.
    pub fn cut(&self, d: i128) -> Result<Row, Mem>
        requires { IsTrue (divides d self.now) }
        ensures { IfOk result (λ row. row ≡ cut d self.now) }
    {
        Ok(Row {
            k: self.k.div_euclid(d),
            terms: divided(self.terms.allocator(), d, self.terms.as_slice())?,
        })
    }
}

/// Whether a number above 0 divides each coefficient.
fn are_multiples(d: i128, terms: &[(u32, i128)]) -> bool
    requires { pos 0 <ℤ d }
    ensures { result ≡ are_multiples d terms.now }
{
    terms.iter().all(|term| term.1.rem_euclid(d) == 0)
}

/// The terms with each coefficient divided by a number above 0.
fn divided(alloc: Global, d: i128, terms: &[(u32, i128)]) -> Result<Terms, AllocError>
    requires { pos 0 <ℤ d }
    ensures { IfOk result (λ ts. ts ≡ quotients d terms.now) }
{
    let mut quotients = Terms::new(alloc);
    for term in terms {
        quotients.push(term.0, term.1.div_euclid(d))?;
    }
    Ok(quotients)
}

/// The terms with their signs turned, if each coefficient is in `i128` then.
fn negated(alloc: Global, terms: &[(u32, i128)]) -> Result<Option<Terms>, AllocError>
    ensures { IfOk result (λ ts. ts ≡ checked_terms (opposites terms.now)) }
{
    let mut opposites = Terms::new(alloc);
    for term in terms {
        let Some(coefficient) = term.1.checked_neg() else {
            return Ok(None);
        };
        opposites.push(term.0, coefficient)?;
    }
    Ok(Some(opposites))
}

impl Clone for Row {
    ghost is_clone = { λ a b. b ≡ a };

    fn clone(&self) -> Result<Self, AllocError> {
        Ok(Row {
            k: self.k,
            terms: Terms::from_slice(self.terms.allocator(), self.terms.as_slice())?,
        })
    }
}
