//! Which features are met.
ghost use Rattle.std.specs.Prelude.{◌≡◌, ◌*◌, ◌*ℤ◌, pos, IfOk};
ghost use Rattle.viz_base.specs.declared.sheets.Bound.TheVariants.{Em};
ghost use Rattle.page_media.specs.Queries.{is_met};
ghost use Rattle.page_media.specs.Parts.{signs_at};

use std::alloc::Global;
use viz_base::{Bound, Feature, List, Mem, World};

/// So many pixels in units.
fn units(n: u32) -> i128
    ensures { result ≡ pos (64 * n) }
{
    64 * i128::from(n)
}

/// So many times a default font size in units.
fn sizes(k: i64, s: u32) -> i128
    ensures { result ≡ k *ℤ pos (64 * s) }
{
    i128::from(k) * units(s)
}

/// Whether a feature with a bound of so many millionths of the default font size is met.
fn is_met_in_em(most: bool, k: i64, w: u32, s: u32) -> bool
    ensures { result ≡ is_met w s (record { most = most; bound = Em k }) }
{
    let width = 1_000_000 * units(w);
    let bound = sizes(k, s);
    if most {
        width <= bound
    } else {
        bound <= width + 999_999
    }
}

/// Whether a feature is met in a viewport of this width, with this default font size, in pixels.
pub(crate) fn is_met(feature: &Feature, w: u32, s: u32) -> bool
    ensures { result ≡ is_met w s feature.now }
{
    let width = units(w);
    match feature.bound {
        Bound::Em(k) => is_met_in_em(feature.most, k, w, s),
        Bound::Px(c) => {
            if feature.most {
                width <= i128::from(c)
            } else {
                i128::from(c) <= width
            }
        }
    }
}

/// Which of the features are met at a world, in their order.
pub fn signs(alloc: Global, features: &List<Feature>, world: &World) -> Result<List<bool>, Mem>
    ensures { IfOk result (λ signs. signs ≡ signs_at features.now world.now.w world.now.s) }
{
    let mut signs = List::new(alloc);
    for feature in features.as_slice() {
        signs.push(is_met(feature, world.w, world.s))?;
    }
    Ok(signs)
}
