//! What the grown page is made from.
ghost use Rattle.std.specs.Prelude.{◌≡◌, length};
ghost use Rattle.page_pseudo.specs.Grown.{winners_at};

use viz_base::{Cascaded, Page, Setting};

/// A page as it is written, and what wins at each of its nodes: there, at its `:before`, and at its `:after`.
#[derive(Clone, Copy)]
pub struct Seeds<'a> {
    pub page: &'a Page,
    /// What wins at each node itself.
    pub own: &'a Cascaded,
    /// What wins at the `:before` of each node.
    pub before: &'a Cascaded,
    /// What wins at the `:after` of each node.
    pub after: &'a Cascaded,
}

/// What wins at the node of this number.
pub fn winners_at(cascaded: &Cascaded, at: usize) -> &[Setting]
    ensures { result.now ≡ winners_at cascaded.now.winners at }
{
    match cascaded.winners.get(at) {
        Some(winners) => winners.as_slice(),
        None => &[],
    }
}
