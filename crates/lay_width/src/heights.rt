//! Heights that are known before layout (CSS 2.1, 10.5).
ghost use Rattle.std.specs.Prelude.{◌≡◌, pos, None, unwrap_or, [], ◌∷◌};
ghost use Rattle.viz_base.specs.declared.styles.Style.{Style as StyleOf};
ghost use Rattle.viz_calc.specs.State.{AllSmall};
ghost use Rattle.viz_calc.specs.Run.{Lays};
ghost use Rattle.layout_semantics.specs.Lengths.{own, maximum};
ghost use Rattle.layout_semantics.specs.DefiniteHeights.{definite_height_to};
ghost use Rattle.layout_semantics.specs.DefiniteHeights.{height_around as height_in, own_height_around as own_height_in, least_height as least_of};
ghost use Rattle.layout_semantics.specs.DefiniteHeights.{given_height as given_height_of};
ghost use Rattle.lay_width.specs.Readings.{option_at};
ghost use Rattle.lay_width.specs.Fitting.{HeightFits, MostHeightFits, OwnHeightFits, DefiniteFits_to, GivenFits};

use crate::limits::hold;
use lay_length::fonts::size_part;
use lay_length::lengths::{percentage, pixels, zero};
use lay_tree::heights::container;
use lay_tree::styles::{max_height, min_height, own_height};
use viz_base::{BoxTree, Length};
use viz_calc::Steady;

/// A height where the containing block's is `around`: nothing of `auto`, and of a percentage of no definite height.
pub fn height_around<S: Steady>(
    calc: &mut S,
    tree: &BoxTree,
    around: &Option<S::Num>,
    length: &Length,
) -> Option<S::Num>
    ensures { Lays S.run calc.old calc.new (option_at S.at result)
        (λ e. height_in tree.now e.world (option_at S.at around.now e) length.now)
        (λ e. HeightFits tree.now e.world (option_at S.at around.now e) length.now) }
{
    match (length, around) {
        (Length::Auto, _) => None,
        (Length::Px(units), _) => Some(pixels(calc, *units)),
        (Length::Em { k, node }, _) => Some(size_part(calc, tree, *node, *k, 1_000_000)),
        (Length::Pct(part), Some(whole)) => Some(percentage(calc, *part, whole)),
        (Length::Pct(_), None) => None,
    }
}

/// The maximum height of a box, where it has one.
pub fn most_around<S: Steady>(
    calc: &mut S,
    tree: &BoxTree,
    around: &Option<S::Num>,
    b: u32,
) -> Option<S::Num>
    ensures { Lays S.run calc.old calc.new (option_at S.at result)
        (λ e. maximum (height_in tree.now e.world (option_at S.at around.now e))
        (own tree.now b (λ (s : StyleOf). s.max_height) None))
        (λ e. MostHeightFits tree.now e.world (option_at S.at around.now e)
        (own tree.now b (λ (s : StyleOf). s.max_height) None)) }
{
    match max_height(tree, b) {
        Some(most) => height_around(calc, tree, around, &most),
        None => None,
    }
}

/// The minimum height of a box; a percentage of no definite height counts 0.
pub fn least_around<S: Steady>(
    calc: &mut S,
    tree: &BoxTree,
    around: &Option<S::Num>,
    b: u32,
) -> S::Num
    ensures { Lays S.run calc.old calc.new (S.at result)
        (λ e. unwrap_or (height_in tree.now e.world (option_at S.at around.now e)
        (least_of tree.now b)) (pos 0))
        (λ e. HeightFits tree.now e.world (option_at S.at around.now e) (least_of tree.now b)
        × AllSmall (pos 0 ∷ [])) }
{
    match height_around(calc, tree, around, &min_height(tree, b)) {
        Some(least) => least,
        None => zero(calc),
    }
}

/// The height that a box's own property gives, clamped by its maximum and its minimum.
pub fn own_height_around<S: Steady>(
    calc: &mut S,
    tree: &BoxTree,
    around: &Option<S::Num>,
    b: u32,
) -> Option<S::Num>
    ensures { Lays S.run calc.old calc.new (option_at S.at result)
        (λ e. own_height_in tree.now e.world (option_at S.at around.now e) b)
        (λ e. OwnHeightFits tree.now e.world (option_at S.at around.now e) b) }
{
    match height_around(calc, tree, around, &own_height(tree, b)) {
        Some(height) => {
            let most = most_around(calc, tree, around, b);
            let least = least_around(calc, tree, around, b);
            Some(hold(calc, most, least, height))
        }
        None => None,
    }
}

/// The height that percentages of a box's heights are of, where it is definite, up so many levels.
pub fn definite_height<S: Steady>(
    calc: &mut S,
    tree: &BoxTree,
    levels: u64,
    b: u32,
) -> Option<S::Num>
    ensures { Lays S.run calc.old calc.new (option_at S.at result)
        (λ e. definite_height_to levels tree.now e.world b)
        (λ e. DefiniteFits_to levels tree.now e.world b) }
{
    if levels == 0 {
        return None;
    }
    match container(tree, u64::from(b) + 1, b) {
        Some(outer) => {
            let around = definite_height(calc, tree, levels - 1, outer);
            own_height_around(calc, tree, &around, outer)
        }
        None => Some(calc.height()),
    }
}

/// The height that a box's own property gives, where that is definite.
pub fn given_height<S: Steady>(calc: &mut S, tree: &BoxTree, b: u32) -> Option<S::Num>
    ensures { Lays S.run calc.old calc.new (option_at S.at result)
        (λ e. given_height_of tree.now e.world b) (λ e. GivenFits tree.now e.world b) }
{
    let around = definite_height(calc, tree, u64::from(b) + 1, b);
    height_around(calc, tree, &around, &own_height(tree, b))
}
