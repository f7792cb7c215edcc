//! The public calls: a page over any `Calc`, its engine within a `Latch`, and at one world, in plain numbers.
ghost use Rattle.std.specs.Prelude.{◌≡◌, ◌≤◌, ◌^◌, Some, IsTrue, IfOk, IfErr};
ghost use Rattle.std.specs.List.{AllByRecursion};
ghost use Rattle.viz_base.specs.declared.limits.TheConstants.{MOST_LAID_CHARACTERS, MOST_PIXELS, MOST_SIZE};
ghost use Rattle.viz_base.specs.Trees.{character_count};
ghost use Rattle.viz_calc.specs.World.{Reading};
ghost use Rattle.viz_calc.specs.State.{Grows, AreOpen, CauseButMem, is_told, WhereOpen};
ghost use Rattle.viz_calc.specs.Renderings.{rendering_at};
ghost use Rattle.layout_semantics.specs.Page.{page_rendering};
ghost use Rattle.lay_length.specs.Limits.{IsSmallPage, IsWithinLimits};
ghost use Rattle.page_limits.specs.Bounds.{IsPlacedIn, all_around};

use crate::page;
use viz_base::{BoxTree, Mem, Rendering, World};
use viz_calc::{Calc, Halt, Latch, Plain};

/// The rendering of a page at each world that is open at the end.
///
/// Lengths are in 1/64 px. `Open` where a comparison is left open, and `Coeff` where a coefficient passes its limit: on
/// a page within the profile's limits only where the calc counts such a fault, so never over exact numbers. No clause
/// says when `Mem` comes.
pub fn render<C: Calc>(calc: &mut C, tree: &BoxTree) -> Result<Rendering<C::Num>, Halt>
    ensures grows { Grows (C.state calc.old) (C.state calc.new) }
    ensures value { IfOk result (λ r. WhereOpen (C.state calc.new).is_open
        (λ e. rendering_at C.at r e ≡ page_rendering tree.now e.world)) }
    ensures kept { AreOpen (C.state calc.old).kept (C.state calc.new) }
    ensures cause { IfErr result (CauseButMem (C.state calc.old) (C.state calc.new)
        (IsWithinLimits tree.now (C.state calc.old).is_open)) }
    ensures told { IfErr result (λ halt. IsTrue (is_told C.counts (C.state calc.new) (Some halt))) }
{
    let mut latch = Latch::new(calc);
    let rendering = page::render(&mut latch, tree);
    latch.finish(rendering)
}

/// The rendering of a page within the profile's limits at one world. Each edge of each rectangle is at most 2^70 units
/// in size. Its only fault is `Mem`; no clause says when that comes.
pub fn render_at(world: World, tree: &BoxTree) -> Result<Rendering<i128>, Mem>
    requires small { IsSmallPage tree.now }
    requires few_characters { character_count tree.now.boxes ≤ MOST_LAID_CHARACTERS }
    requires narrow { world.w ≤ MOST_PIXELS }
    requires sized { world.s ≤ MOST_SIZE }
    requires low { world.h ≤ MOST_PIXELS }
    ensures value { IfOk result (λ r. r ≡ page_rendering tree.now world) }
    ensures low { IfOk result (λ r. AllByRecursion (IsPlacedIn (all_around (2 ^ 70))) r.boxes) }
{
    let mut calc = Plain::new(world);
    match render(&mut calc, tree) {
        Ok(rendering) => Ok(rendering),
        Err(Halt::Mem) => Err(Mem),
        Err(Halt::Coeff | Halt::Open) => unreachable!(),
    }
}
