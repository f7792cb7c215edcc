ghost use Rattle.std.specs.Prelude.{◌≡◌, ◌++◌, [], ◌∷◌, IfOk, false, map};
ghost use Rattle.viz_base.specs.Selectors.{is_first};
ghost use Rattle.viz_base.specs.declared.selectors.Join.TheVariants.{First};
ghost use Rattle.css_semantics.specs.Spelled.{spelled};
ghost use Rattle.css_select.specs.steps.Machine.{at, empty, ended, initial, joined, refused, state_of, tagged, tested};

use crate::reading::{Chain, Place, Reading};
use std::alloc::Global;
use std::mem::replace;
use viz_base::{Compound, Join, List, Mem, Pseudo, Selector, Test, Text};

fn empty(alloc: Global) -> Compound
    ensures { result ≡ empty }
{
    Compound {
        tag: None,
        tests: List::new(alloc),
    }
}

impl Chain {
    /// Before the first simple selector of a selector.
    fn new(alloc: Global) -> Self
        ensures parts { result.parts ≡ [] }
        ensures join { result.join ≡ First }
    {
        Chain {
            parts: List::new(alloc),
            join: Join::First,
        }
    }

    /// Behind one more simple selector.
    fn with(self, compound: Compound, join: Join) -> Result<Self, Mem>
        requires { is_first join ≡ false }
        ensures parts { IfOk result (λ next. next.parts
            ≡ self.parts ++ (self.join, compound) ∷ []) }
        ensures join { IfOk result (λ next. next.join ≡ join) }
    {
        let mut parts = self.parts;
        parts.push((self.join, compound))?;
        Ok(Chain { parts, join })
    }

    /// The selector that a last simple selector ends, with its pseudo-element.
    fn end(self, compound: Compound, pseudo: Option<Pseudo>) -> Result<Selector, Mem>
        ensures { IfOk result (λ s. spelled s
            ≡ (self.parts ++ (self.join, compound) ∷ [], pseudo)) }
    {
        let mut parts = self.parts;
        parts.push((self.join, compound))?;
        Ok(Selector { parts, pseudo })
    }
}

/// A group with one more selector, which a last simple selector ends.
fn with_end(
    group: List<Selector>,
    chain: Chain,
    compound: Compound,
    pseudo: Option<Pseudo>,
) -> Result<List<Selector>, Mem>
    ensures { IfOk result (λ all. map spelled all
        ≡ map spelled group ++ (chain.parts ++ (chain.join, compound) ∷ [], pseudo) ∷ []) }
{
    let selector = chain.end(compound, pseudo)?;
    let mut group = group;
    group.push(selector)?;
    Ok(group)
}

impl Reading {
    /// Before a group, of which nothing is read.
    pub fn new(alloc: Global) -> Self
        ensures { state_of result ≡ initial }
    {
        Reading {
            place: Place::Fresh,
            group: List::new(alloc),
            chain: Chain::new(alloc),
            compound: empty(alloc),
            refused: None,
        }
    }

    /// Another place.
    pub fn at(mut self, place: Place) -> Self
        ensures { state_of result ≡ at (state_of self) place }
    {
        drop(replace(&mut self.place, place));
        self
    }

    /// Behind a tag, or behind `*`, which is none.
    pub fn tagged(mut self, tag: Option<Text>) -> Self
        ensures { state_of result ≡ tagged (state_of self) tag }
    {
        self.compound.tag = tag;
        self.at(Place::Compound)
    }

    /// Behind a test.
    pub fn tested(mut self, test: Test) -> Result<Self, Mem>
        ensures { IfOk result (λ next. state_of next ≡ tested (state_of self) test) }
    {
        match self.compound.tests.push(test) {
            Ok(()) => Ok(self.at(Place::Compound)),
            Err(_) => Err(self.given_up(Mem)),
        }
    }

    /// Behind a refused selector, with the place of its colon.
    pub fn refused(mut self, colon: u32, place: Place) -> Self
        ensures { state_of result ≡ refused (state_of self) colon place }
    {
        if self.refused.is_none() {
            self.refused = Some(colon);
        }
        self.at(place)
    }

    /// A fault, for which all that is read is given up.
    pub fn given_up<E>(self, fault: E) -> E
        ensures { result ≡ fault }
    {
        drop(self);
        fault
    }

    /// Behind a simple selector that another one follows.
    pub fn joined(self, alloc: Global, join: Join) -> Result<Self, Mem>
        requires { is_first join ≡ false }
        ensures { IfOk result (λ next. state_of next ≡ joined (state_of self) join) }
    {
        let Reading {
            place,
            group,
            chain,
            compound,
            refused,
        } = self;
        drop(place);
        let chain = chain.with(compound, join)?;
        Ok(Reading {
            place: Place::Fresh,
            group,
            chain,
            compound: empty(alloc),
            refused,
        })
    }

    /// The group that a last simple selector ends, with its pseudo-element.
    pub fn end(self, pseudo: Option<Pseudo>) -> Result<List<Selector>, Mem>
        ensures { IfOk result (λ all. map spelled all ≡ (ended (state_of self) pseudo).group) }
    {
        let Reading {
            place,
            group,
            chain,
            compound,
            ..
        } = self;
        drop(place);
        with_end(group, chain, compound, pseudo)
    }

    /// Behind a selector, with its pseudo-element.
    pub fn ended(self, alloc: Global, pseudo: Option<Pseudo>) -> Result<Self, Mem>
        ensures { IfOk result (λ next. state_of next ≡ ended (state_of self) pseudo) }
    {
        let refused = self.refused;
        let group = self.end(pseudo)?;
        Ok(Reading {
            place: Place::Fresh,
            group,
            chain: Chain::new(alloc),
            compound: empty(alloc),
            refused,
        })
    }
}
