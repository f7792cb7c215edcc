//! Of edges that face the content from one side, the one that leaves the least of it; bottoms are compared likewise.
ghost use Rattle.std.specs.Prelude.{◌≡◌, ⊤, IsTrue, true, is_some};
ghost use Rattle.viz_calc.specs.State.{WhereOpen};
ghost use Rattle.viz_calc.specs.World.{Reading};
ghost use Rattle.viz_calc.specs.Run.{Goes, Blames, Lays};
ghost use Rattle.lay_float.specs.steps.Lent.{lent_at};
ghost use Rattle.lay_float.specs.steps.Shelves.{innermost, tighter};

use viz_base::Side;
use viz_calc::{Steady, larger, smaller};

/// Of two edges that face the content from this side, the one that leaves less of it.
pub fn innermost<'a, S: Steady>(
    calc: &mut S,
    side: Side,
    a: &'a S::Num,
    b: &'a S::Num,
) -> &'a S::Num
    ensures { Lays S.run calc.old calc.new (S.at result.now)
        (λ e. innermost side (S.at a.now e) (S.at b.now e)) (λ e. ⊤) }
{
    match side {
        Side::Left => larger(calc, a, b),
        Side::Right => smaller(calc, a, b),
    }
}

/// An edge that leaves no more than the one before, if any.
pub fn tighter<'a, S: Steady>(
    calc: &mut S,
    side: Side,
    edge: &'a S::Num,
    limit: Option<&'a S::Num>,
) -> Option<&'a S::Num>
    ensures goes { Goes (S.run calc.old) (S.run calc.new) }
    ensures value { WhereOpen (S.run calc.new).is_open
        (λ e. lent_at S.at result e ≡ tighter side (S.at edge.now e) (lent_at S.at limit.entry e)) }
    ensures some { is_some result ≡ true }
    ensures cause { Blames (S.run calc.old) (S.run calc.new) ⊤ }
{
    match limit {
        None => Some(edge),
        Some(limit) => Some(innermost(calc, side, edge, limit)),
    }
}
