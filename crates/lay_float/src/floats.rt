//! The floats of a block formatting context, in the order in which they were placed (CSS 2.1, 9.5).
ghost use Rattle.std.specs.Prelude.{◌≡◌, [], None};

use std::alloc::Global;
use viz_base::{List, Quad, Side};

/// A float that is placed.
#[derive(Drop)]
pub struct PlacedFloat<N> {
    /// The side to which it floats.
    pub side: Side,
    /// Its outer box, which goes to its margin edges, in units of 1/64 px.
    pub outer: Quad<N>,
}

/// The floats of a block formatting context, in the order in which they were placed (CSS 2.1, 9.5).
#[derive(Drop)]
pub struct Floats<N> {
    /// Their sides and outer boxes.
    pub placed: List<PlacedFloat<N>>,
    /// How many of the first ones end above the last one's top, and so stand beside none that comes; none where
    /// nothing is known, neither this nor that the last one's top is the lowest.
    pub ended: Option<usize>,
}

impl<N> Floats<N> {
    /// No floats; it takes no memory.
    pub fn new(alloc: Global) -> Self
        ensures placed { result.placed ≡ [] }
        ensures ended { result.ended ≡ None }
    {
        Floats {
            placed: List::new(alloc),
            ended: None,
        }
    }
}
