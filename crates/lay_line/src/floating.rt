//! Floats of a tree, each placed behind the earlier ones (CSS 2.1, 9.5).
ghost use Rattle.std.specs.Prelude.{◌≡◌, ◌∷◌, IsTrue};
ghost use Rattle.viz_calc.specs.State.{WhereOpen};
ghost use Rattle.std.specs.Option.{option_to_list};
ghost use Rattle.viz_calc.specs.World.{Reading};
ghost use Rattle.viz_calc.specs.Run.{Goes, BlamesButMem};
ghost use Rattle.viz_calc.specs.Renderings.{spot_at, band_at};
ghost use Rattle.layout_semantics.specs.Floats.{floating, float_spot, with_float_at};
ghost use Rattle.lay_float.specs.Agreement.{Agree};
ghost use Rattle.lay_float.specs.Limits.{AreHalf};
ghost use Rattle.lay_float.specs.Readings.{floats_at, extent_at};
ghost use Rattle.lay_float.specs.steps.Lent.{lent_at};

use lay_float::Floats;
use lay_float::engine::{float_top, place};
use lay_tree::styles::{clear, float_side};
use viz_base::{Band, BoxTree, Extent, Spot};
use viz_calc::Steady;

/// Places a float of this size that comes at y after the earlier ones, and gives its place (CSS 2.1, 9.5.1).
pub fn place_float<S: Steady>(
    calc: &mut S,
    tree: &BoxTree,
    floats: &mut Floats<S::Num>,
    at: u32,
    size: &Extent<S::Num>,
    cb: &Band<S::Num>,
    least: Option<&S::Num>,
    y: &S::Num,
) -> Spot<S::Num>
    requires { Agree S.at (S.run calc.old).is_open floats.old }
    ensures goes { Goes (S.run calc.old) (S.run calc.new) }
    ensures value { WhereOpen (S.run calc.new).is_open
        (λ e. spot_at S.at result e ≡ float_spot
        (floating tree.now at (extent_at S.at size.now e) (band_at S.at cb.now e))
        (floats_at S.at floats.old e) (lent_at S.at least.entry e) (S.at y.now e)) }
    ensures appended { WhereOpen (S.run calc.new).is_open
        (λ e. floats_at S.at floats.new e
        ≡ with_float_at (floating tree.now at (extent_at S.at size.now e) (band_at S.at cb.now e))
        (floats_at S.at floats.old e) (spot_at S.at result e)) }
    ensures cause { BlamesButMem (S.run calc.old) (S.run calc.new)
        (WhereOpen (S.run calc.old).is_open
        (λ e. AreHalf (floats_at S.at floats.old e)
        (S.at size.now.width e ∷ S.at size.now.height e ∷ S.at cb.now.left e ∷ S.at cb.now.right e
        ∷ S.at y.now e ∷ option_to_list (lent_at S.at least.entry e)))) }
    ensures agrees { Agree S.at (S.run calc.new).is_open floats.new }
{
    let side = float_side(tree, at);
    let clear = clear(tree, at);
    let top = float_top(calc, floats.placed.as_slice(), clear, least, y);
    place(calc, floats, side, size, cb, &top)
}
