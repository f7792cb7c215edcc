//! The first world of a rectangle that passes a test, whatever the test is.
ghost use Rattle.std.specs.Prelude.{◌≡◌, ◌<◌, ◌≤◌, ◌^◌, Bool, IfOk};
ghost use Rattle.viz_base.specs.declared.worlds.World.{World};
ghost use Rattle.viz_base.specs.declared.worlds.Rect.{Rect};
ghost use Rattle.viz_base.specs.Worlds.{IsInRange};
ghost use Rattle.viz_base.specs.Rectangles.{IsWithin};
ghost use Rattle.cert_check.specs.steps.Worlds.{first_of_size, first_of_width, first_world};

use viz_base::{Mem, Rect, World};

/// A test of worlds.
pub trait Look {
    /// The worlds that may be tested.
    ghost range: { Self → Rect };

    /// Which pass.
    ghost passes: { Self → World → Bool };

    /// Whether a world passes. The only fault is want of memory.
    fn passes(&self, world: World) -> Result<bool, Mem>
        requires { IsInRange (range self.now) world }
        ensures { IfOk result (λ yes. yes ≡ passes self.now world) };
}

/// The first world of a width and a size that passes a test.
fn first_of_size<L: Look>(look: &L, rect: Rect, w: u32, s: u32) -> Result<Option<World>, Mem>
    requires within { IsWithin (L.range look.now) rect }
    requires width_least { (L.range look.now).wl ≤ w }
    requires width_most { w ≤ (L.range look.now).wh }
    requires size_least { (L.range look.now).sl ≤ s }
    requires size_most { s ≤ (L.range look.now).sh }
    requires high { rect.hh < 2 ^ 31 }
    ensures { IfOk result (λ found. found ≡ first_of_size (L.passes look.now) rect w s) }
{
    for h in rect.hl..rect.hh + 1 {
        let world = World { w, s, h };
        if look.passes(world)? {
            return Ok(Some(world));
        }
    }
    Ok(None)
}

/// The first world of a width that passes a test.
fn first_of_width<L: Look>(look: &L, rect: Rect, w: u32) -> Result<Option<World>, Mem>
    requires within { IsWithin (L.range look.now) rect }
    requires width_least { (L.range look.now).wl ≤ w }
    requires width_most { w ≤ (L.range look.now).wh }
    requires low { rect.sh < 2 ^ 31 }
    requires high { rect.hh < 2 ^ 31 }
    ensures { IfOk result (λ found. found ≡ first_of_width (L.passes look.now) rect w) }
{
    for s in rect.sl..rect.sh + 1 {
        if let Some(world) = first_of_size(look, rect, w, s)? {
            return Ok(Some(world));
        }
    }
    Ok(None)
}

/// The first world of a rectangle, by width, then by size, and then by height, that passes a test.
pub fn first_world<L: Look>(look: &L, rect: Rect) -> Result<Option<World>, Mem>
    requires within { IsWithin (L.range look.now) rect }
    requires narrow { rect.wh < 2 ^ 31 }
    requires low { rect.sh < 2 ^ 31 }
    requires high { rect.hh < 2 ^ 31 }
    ensures { IfOk result (λ found. found ≡ first_world (L.passes look.now) rect) }
{
    for w in rect.wl..rect.wh + 1 {
        if let Some(world) = first_of_width(look, rect, w)? {
            return Ok(Some(world));
        }
    }
    Ok(None)
}
