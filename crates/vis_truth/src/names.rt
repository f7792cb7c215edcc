ghost use Rattle.std.specs.Prelude.{◌≡◌, slice_get};
ghost use Rattle.vis_truth.specs.Names.{places_of};
ghost use Rattle.logic_semantics.specs.Truth.{are_same};

/// The places in a rendering that the names around a formula stand for, from the innermost on.
#[derive(Drop)]
pub enum Names<'a> {
    /// No name is bound.
    Unbound,
    /// The innermost name, and those around it.
    Inner(usize, &'a Names<'a>),
}

impl Names<'_> {
    /// The place that a name stands for; None where it is not bound.
    pub fn place(&self, name: u32) -> Option<usize>
        ensures { result ≡ slice_get (places_of self.now) name }
    {
        match self {
            Names::Unbound => None,
            Names::Inner(place, outer) => {
                if name == 0 {
                    Some(*place)
                } else {
                    outer.place(name - 1)
                }
            }
        }
    }

    /// Whether two names are bound, and stand for the same place.
    pub fn are_same(&self, a: u32, b: u32) -> bool
        ensures { result ≡ are_same (slice_get (places_of self.now) a)
            (slice_get (places_of self.now) b) }
    {
        match (self.place(a), self.place(b)) {
            (Some(a), Some(b)) => a == b,
            _ => false,
        }
    }
}
