ghost use Rattle.viz_base.specs.Selectors.{IsSelector};

use crate::{Compound, Join, List, Pseudo};

/// A selector: its compounds from left to right, each with how it stands to the one before (CSS 2.1, 5.1), and the
/// pseudo-element of what the last one matches, where it names one (CSS 2.1, 5.12.3).
#[derive(Drop)]
pub struct Selector {
    pub parts: List<(Join, Compound)>,
    pub pseudo: Option<Pseudo>,
    /// There is a part, and the first alone is joined as the first.
    pub ghost ok: { IsSelector parts },
}
