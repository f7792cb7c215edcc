//! Answers that were found, and the floors on which they rest, by ranks that stay the same below a split.
use crate::trouble::Trouble;
use lin_proof::Derivation;
use std::alloc::Global;
use viz_base::Mem;

/// An answer that was found, with its reason. It stands on the path where it was found, and on all below.
#[derive(Drop)]
pub struct Found {
    /// Whether the row is at least 0.
    pub yes: bool,
    /// From the facts of the path, of the cone and of the contrary, numbered in this order.
    pub why: Derivation,
    /// How many facts the path had.
    pub path: u32,
    /// The number of the first variable behind those of the path.
    pub base: u32,
    /// The floors on which the row rests and that the path didn't name.
    pub cone: Cone,
}

/// Floors behind those of a path, in their order.
#[derive(Drop)]
pub struct Cone {
    /// The places of these floors behind the path.
    pub places: Vec<u32>,
    /// The ranks of these floors in the run.
    pub ranks: Vec<u32>,
}

/// Where a floor stands in a run.
#[derive(Clone, Copy)]
pub enum Spot {
    /// At this place on the path.
    Named(usize),
    /// At this place behind the path.
    New(u32),
}

/// The floors of a run by their ranks: the order in which it used them first. All runs below a split begin with the
/// floors of the run that led to it, whichever of them are named meanwhile.
#[derive(Drop)]
pub struct Ranks {
    /// Where each floor that was used stands, by the floors' ranks.
    pub spots: Vec<Spot>,
    /// Whether the floors on the path were used yet, by their places.
    used: Vec<bool>,
    /// The ranks of the floors behind the path, by their places.
    new: Vec<u32>,
}

impl Ranks {
    /// The ranks of a run that has used no floor yet, on a path that names so many.
    pub fn new(alloc: Global, named: usize) -> Result<Self, Mem> {
        Ok(Ranks {
            spots: Vec::new(alloc),
            used: vec![in alloc; false; named]?,
            new: Vec::new(alloc),
        })
    }

    /// The floor at a place on the path is used.
    pub fn use_named(&mut self, place: usize) -> Result<(), Mem> {
        if let Some(used) = self.used.get_mut(place) {
            if !*used {
                *used = true;
                self.spots.push(Spot::Named(place))?;
            }
        }
        Ok(())
    }

    /// The floor that comes next behind the path is used for the first time. False where numbers of 32 bits don't do.
    pub fn use_new(&mut self) -> Result<bool, Mem> {
        let (Ok(place), Ok(rank)) = (
            u32::try_from(self.new.len()),
            u32::try_from(self.spots.len()),
        ) else {
            return Ok(false);
        };
        self.spots.push(Spot::New(place))?;
        self.new.push(rank)?;
        Ok(true)
    }

    /// The cone of the floors at these places behind the path.
    pub fn cone_at(&self, alloc: Global, places: Vec<u32>) -> Result<Cone, Trouble> {
        let mut ranks = Vec::new(alloc);
        for place in &places {
            match self.new.get(*place as usize) {
                Some(rank) => ranks.push(*rank)?,
                None => return Err(Trouble::Lost),
            }
        }
        Ok(Cone { places, ranks })
    }
}
