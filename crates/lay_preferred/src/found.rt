//! The preferred widths that were found of boxes.
ghost use Rattle.std.specs.Prelude.{◌≡◌, IfSome, Some, None, [], ◌∷◌, ⊤, slice_get, slice_set};
ghost use Rattle.viz_calc.specs.State.{AllSmall};
ghost use Rattle.viz_calc.specs.Run.{Goes, BlamesButMem, Lays};
ghost use Rattle.lay_width.specs.Readings.{preferred_at};
ghost use Rattle.lay_preferred.specs.Readings.{AreFound};

use crate::places::places;
use viz_base::{BoxTree, Preferred};
use viz_calc::Steady;

/// Preferred widths by the number of their box, as far as they were asked for, in units of 1/64 px.
///
/// Whoever lays out a page makes one table for it, and hands it on from call to call: so each box is measured once.
#[derive(Drop)]
pub struct Found<N> {
    pub widths: Vec<Option<Preferred<N>>>,
}

/// Both again.
pub fn copy_of<S: Steady>(calc: &mut S, widths: &Preferred<S::Num>) -> Preferred<S::Num>
    ensures { Lays S.run calc.old calc.new (preferred_at S.at result) (preferred_at S.at widths.now)
        (λ e. AllSmall (S.at widths.now.least e ∷ S.at widths.now.most e ∷ [])) }
{
    let least = calc.copy(&widths.least);
    let most = calc.copy(&widths.most);
    Preferred { least, most }
}

/// Nothing found of any box of a tree.
pub fn nothing_found<S: Steady>(calc: &mut S, tree: &BoxTree) -> Found<S::Num>
    ensures goes { Goes (S.run calc.old) (S.run calc.new) }
    ensures found { AreFound S.at (S.run calc.new) tree.now result.widths.items }
    ensures cause { BlamesButMem (S.run calc.old) (S.run calc.new) ⊤ }
{
    let alloc = tree.boxes.allocator();
    match places(alloc, tree.boxes.len()) {
        Ok(widths) => Found { widths },
        Err(_) => {
            calc.stop();
            Found {
                widths: Vec::new(alloc),
            }
        }
    }
}

/// What was found of a box.
pub fn found_of<N>(found: &Found<N>, at: u32) -> Option<&Preferred<N>>
    ensures { IfSome result (λ widths. slice_get found.now.widths.items at
        ≡ Some (Some widths.now)) }
{
    match found.widths.get(at as usize) {
        Some(Some(widths)) => Some(widths),
        _ => None,
    }
}

/// Keeps what was found of a box.
pub fn keep<N: Drop>(found: &mut Found<N>, at: u32, widths: Preferred<N>)
    ensures { found.new.widths.items ≡ slice_set found.old.widths.items at (Some widths) }
{
    if (at as usize) < found.widths.len() {
        found.widths[at as usize] = Some(widths);
    }
}
