//! The list that boxes are put into, in document order (CSS 2.1, 9.4).
ghost use Rattle.std.specs.Prelude.{◌≡◌, ◌++◌, ◌∷◌, [], pos, length, ⊤};
ghost use Rattle.viz_calc.specs.State.{WhereOpen};
ghost use Rattle.std.proofs.Math.ListN.{set};
ghost use Rattle.viz_calc.specs.World.{Reading};
ghost use Rattle.viz_calc.specs.Run.{Goes, BlamesButMem, LaysButMem};
ghost use Rattle.viz_calc.specs.Renderings.{placed_at};
ghost use Rattle.layout_semantics.specs.Rectangles.{placed_box};
ghost use Rattle.lay_frame.specs.Fitting.{KeptFits};
ghost use Rattle.lay_frame.specs.Readings.{frame_at, boxes_at};

use crate::frames::Shape;
use crate::places::place;
use lay_length::lengths::zero;
use viz_base::{BoxTree, Placed};
use viz_calc::Steady;

#[tactic(auto, using(crate::proofs::Slots::slots), unfolding(crate::specs::Readings::boxes_at))]
/// Adds a box to those before.
pub fn append<S: Steady>(calc: &mut S, out: &mut Vec<Placed<S::Num>>, placed: Placed<S::Num>)
    ensures { LaysButMem S.run calc.old calc.new (boxes_at S.at out.new.items)
        (λ e. boxes_at S.at out.old.items e ++ placed_at S.at placed e ∷ []) (λ e. ⊤) }
{
    match out.push(placed) {
        Ok(()) => {}
        Err(_) => calc.stop(),
    }
}

#[tactic(auto, using(crate::proofs::Slots::slots), unfolding(crate::specs::Readings::boxes_at))]
/// Keeps the place of a box whose height is not known yet; gives the place.
pub fn keep<S: Steady>(
    calc: &mut S,
    tree: &BoxTree,
    b: u32,
    shape: &Shape<S::Num>,
    out: &mut Vec<Placed<S::Num>>,
) -> usize
    ensures goes { Goes (S.run calc.old) (S.run calc.new) }
    ensures place { (e : Reading) → result ≡ length (boxes_at S.at out.old.items e) }
    ensures value { WhereOpen (S.run calc.new).is_open
        (λ e. boxes_at S.at out.new.items e
        ≡ boxes_at S.at out.old.items e
        ++ placed_box tree.now b (frame_at S.at shape.now e) (pos 0) ∷ []) }
    ensures cause { BlamesButMem (S.run calc.old) (S.run calc.new)
        (WhereOpen (S.run calc.old).is_open (λ e. KeptFits (frame_at S.at shape.now e))) }
{
    let flat = zero(calc);
    let first = place(calc, tree, b, shape, &flat);
    let place = out.len();
    append(calc, out, first);
    place
}

#[tactic(auto, using(crate::proofs::Slots::slots), unfolding(crate::specs::Readings::boxes_at))]
/// Puts a box into the place that was kept for it.
pub fn put<S: Steady>(out: &mut Vec<Placed<S::Num>>, place: usize, placed: Placed<S::Num>)
    ensures { (e : Reading) → boxes_at S.at out.new.items e
        ≡ set (boxes_at S.at out.old.items e) place (placed_at S.at placed e) }
{
    if place < out.len() {
        out[place] = placed;
    }
}
