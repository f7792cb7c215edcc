//! The widths of replaced elements (CSS 2.1, 10.3.2, 10.4).
ghost use Rattle.std.specs.Prelude.{None, [], ◌∷◌};
ghost use Rattle.viz_base.specs.declared.lengths.Length.TheVariants as of_length;
ghost use Rattle.viz_base.specs.declared.styles.Style.{Style as StyleOf};
ghost use Rattle.viz_calc.specs.State.{AllSmall};
ghost use Rattle.viz_calc.specs.Run.{Lays};
ghost use Rattle.layout_semantics.specs.Lengths.{own};
ghost use Rattle.layout_semantics.specs.DefiniteHeights.{given_height as given_height_of};
ghost use Rattle.layout_semantics.specs.Replaced.{intrinsic as intrinsic_at, replaced_size};
ghost use Rattle.layout_semantics.specs.Replaced.{by_ratio as ratio_of};
ghost use Rattle.layout_laws.specs.Terms.{own_width as width_of};
ghost use Rattle.lay_width.specs.Readings.{option_at};
ghost use Rattle.lay_width.specs.Fitting.{RatioFits, TentativeFits, ReplacedFits};
ghost use Rattle.lay_width.specs.steps.Terms.{tentative as tentative_of};

use crate::clamping::own_maximum;
use crate::heights::given_height;
use crate::limits::hold;
use lay_length::lengths::{pixels, used};
use lay_tree::boxes::intrinsic_size;
use lay_tree::styles::{min_width, own_width};
use viz_base::{BoxTree, Length};
use viz_calc::Steady;

/// One size where the other is given, by the ratio of the intrinsic ones; the intrinsic one where the ratio has a 0.
pub fn by_ratio<S: Steady>(calc: &mut S, given: &S::Num, of: u32, wanted: u32) -> S::Num
    ensures { Lays S.run calc.old calc.new (S.at result)
        (λ e. ratio_of (S.at given.now e) of wanted)
        (λ e. AllSmall (ratio_of (S.at given.now e) of wanted ∷ [])) }
{
    if of == 0 {
        pixels(calc, 64 * i64::from(wanted))
    } else {
        calc.scale_floor(given, i64::from(wanted), u64::from(of))
    }
}

/// The width that follows from a height, or the intrinsic one.
fn by_height<S: Steady>(calc: &mut S, size: (u32, u32), height: Option<S::Num>) -> S::Num
    ensures { Lays S.run calc.old calc.new (S.at result)
        (λ e. tentative_of size None (option_at S.at height e))
        (λ e. RatioFits size (option_at S.at height e)) }
{
    match height {
        Some(height) => by_ratio(calc, &height, size.1, size.0),
        None => pixels(calc, 64 * i64::from(size.0)),
    }
}

/// The width of a replaced box before it is clamped.
fn tentative<S: Steady>(calc: &mut S, tree: &BoxTree, b: u32, cb: &S::Num) -> S::Num
    ensures { Lays S.run calc.old calc.new (S.at result)
        (λ e. tentative_of (intrinsic_at tree.now b) (width_of tree.now e.world b (S.at cb.now e))
        (given_height_of tree.now e.world b))
        (λ e. TentativeFits tree.now e.world b (own tree.now b
        (λ (s : StyleOf). s.width) of_length.Auto) (S.at cb.now e)) }
{
    match own_width(tree, b) {
        Length::Auto => {
            let height = given_height(calc, tree, b);
            by_height(calc, intrinsic_size(tree, b), height)
        }
        width @ (Length::Px(_) | Length::Em { .. } | Length::Pct(_)) => used(
            calc, tree, &width, cb,
        ),
    }
}

/// The width of a replaced box in a containing block of width `cb`.
pub fn width<S: Steady>(calc: &mut S, tree: &BoxTree, b: u32, cb: &S::Num) -> S::Num
    ensures { Lays S.run calc.old calc.new (S.at result)
        (λ e. (replaced_size tree.now e.world b (S.at cb.now e)).width)
        (λ e. ReplacedFits tree.now e.world b (S.at cb.now e)) }
{
    let width = tentative(calc, tree, b, cb);
    let most = own_maximum(calc, tree, b, cb);
    let least = used(calc, tree, &min_width(tree, b), cb);
    hold(calc, most, least, width)
}
