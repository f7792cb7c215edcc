//! What a box takes in the preferred widths of its container (CSS 2.1, 10.3.5): our own reading of percentages there.
ghost use Rattle.std.specs.Prelude.{◌≡◌, ℤ, ◌+ℤ◌, None, pos, [], ◌∷◌};
ghost use Rattle.viz_base.specs.declared.lengths.Length.TheVariants as of_length;
ghost use Rattle.viz_base.specs.declared.styles.Style.{Style as StyleOf};
ghost use Rattle.viz_calc.specs.State.{AllSmall};
ghost use Rattle.viz_calc.specs.Run.{Lays};
ghost use Rattle.layout_semantics.specs.Lengths.{own, maximum};
ghost use Rattle.layout_semantics.specs.Lengths.{used_if_absolute as if_absolute};
ghost use Rattle.layout_semantics.specs.Replaced.{intrinsic as intrinsic_of};
ghost use Rattle.lay_width.specs.Fitting.{own_width_of as width_of, UsedFits, MostFits, ClampFits};
ghost use Rattle.lay_width.specs.Readings.{option_at, preferred_at};
ghost use Rattle.lay_width.specs.steps.Terms.{tentative as tentative_of};
ghost use Rattle.lay_preferred.specs.Fitting.{SideFits, StartFits, EndFits, EdgesFit, AroundFits, GivenFits, ByHeightFits, ReplacedFits};
ghost use Rattle.lay_preferred.specs.steps.Outer.{edge, start_of, end_of, edges_of, clamped_of, with_edges as edged, is_given as given_width, given as given_of, around as around_of, replaced as replaced_of};

use lay_length::lengths::{pixels, zero};
use lay_tree::boxes::{intrinsic_size, kind};
use lay_tree::styles::{borders, margins, max_width, min_width, own_height, own_width, paddings};
use lay_width::clamping::used_if_absolute;
use lay_width::limits::hold;
use lay_width::replaced::by_ratio;
use viz_base::{BoxTree, Kind, Length, Preferred};
use viz_calc::Steady;

#[tactic(auto, unfolding(crate::specs::steps::Outer::edge))]
/// A length in units of 1/64 px; `auto` and a percentage count 0.
fn absolute_part<S: Steady>(calc: &mut S, tree: &BoxTree, length: &Length) -> S::Num
    ensures { Lays S.run calc.old calc.new (S.at result) (λ e. edge tree.now e.world length.now)
        (λ e. UsedFits tree.now e.world length.now (pos 0)) }
{
    match used_if_absolute(calc, tree, length) {
        Some(length) => length,
        None => zero(calc),
    }
}

/// A length in front of others.
fn before<S: Steady>(calc: &mut S, tree: &BoxTree, length: &Length, rest: &S::Num) -> S::Num
    ensures { Lays S.run calc.old calc.new (S.at result)
        (λ e. edge tree.now e.world length.now +ℤ S.at rest.now e)
        (λ e. UsedFits tree.now e.world length.now (pos 0)
        × AllSmall ((edge tree.now e.world length.now +ℤ S.at rest.now e) ∷ [])) }
{
    let first = absolute_part(calc, tree, length);
    calc.add(&first, rest)
}

/// Margin, border and padding at a side, in front of others.
fn side_before<S: Steady>(
    calc: &mut S,
    tree: &BoxTree,
    margin: &Length,
    border: &Length,
    padding: &Length,
    rest: &S::Num,
) -> S::Num
    ensures { Lays S.run calc.old calc.new (S.at result)
        (λ e. edge tree.now e.world margin.now +ℤ
        (edge tree.now e.world border.now +ℤ
        (edge tree.now e.world padding.now +ℤ S.at rest.now e)))
        (λ e. SideFits tree.now e.world margin.now border.now padding.now (S.at rest.now e)) }
{
    let rest = before(calc, tree, padding, rest);
    let rest = before(calc, tree, border, &rest);
    before(calc, tree, margin, &rest)
}

#[tactic(auto, unfolding(crate::specs::steps::Outer::start_of, crate::specs::steps::Outer::edge))]
/// What the start of an inline box takes.
pub fn start_width<S: Steady>(calc: &mut S, tree: &BoxTree, at: u32) -> S::Num
    ensures { Lays S.run calc.old calc.new (S.at result) (λ e. start_of tree.now e.world at)
        (λ e. StartFits tree.now e.world at (pos 0)) }
{
    let margin = margins(tree, at);
    let border = borders(tree, at);
    let padding = paddings(tree, at);
    let none = zero(calc);
    side_before(calc, tree, &margin.left, &border.left, &padding.left, &none)
}

#[tactic(auto, unfolding(crate::specs::steps::Outer::end_of, crate::specs::steps::Outer::edge))]
/// What its end takes.
pub fn end_width<S: Steady>(calc: &mut S, tree: &BoxTree, at: u32) -> S::Num
    ensures { Lays S.run calc.old calc.new (S.at result) (λ e. end_of tree.now e.world at)
        (λ e. EndFits tree.now e.world at) }
{
    let margin = margins(tree, at);
    let border = borders(tree, at);
    let padding = paddings(tree, at);
    let none = zero(calc);
    side_before(
        calc,
        tree,
        &margin.right,
        &border.right,
        &padding.right,
        &none,
    )
}

#[tactic(auto, unfolding(crate::specs::steps::Outer::edges_of, crate::specs::steps::Outer::end_of, crate::specs::steps::Outer::edge))]
/// The horizontal edges of a box.
fn edges<S: Steady>(calc: &mut S, tree: &BoxTree, at: u32) -> S::Num
    ensures { Lays S.run calc.old calc.new (S.at result) (λ e. edges_of tree.now e.world at)
        (λ e. EdgesFit tree.now e.world at) }
{
    let margin = margins(tree, at);
    let border = borders(tree, at);
    let padding = paddings(tree, at);
    let right = end_width(calc, tree, at);
    side_before(
        calc,
        tree,
        &margin.left,
        &border.left,
        &padding.left,
        &right,
    )
}

/// The maximum width of a box, where it has one that is no percentage.
fn most_width<S: Steady>(calc: &mut S, tree: &BoxTree, at: u32) -> Option<S::Num>
    ensures { Lays S.run calc.old calc.new (option_at S.at result)
        (λ e. maximum (if_absolute tree.now e.world) (own tree.now at
        (λ (s : StyleOf). s.max_width) None))
        (λ e. MostFits tree.now e.world (own tree.now at (λ (s : StyleOf). s.max_width) None)
        (pos 0)) }
{
    match max_width(tree, at) {
        Some(most) => used_if_absolute(calc, tree, &most),
        None => None,
    }
}

#[tactic(auto, unfolding(crate::specs::steps::Outer::clamped_of, crate::specs::steps::Outer::edge))]
/// A width between the minimum and the maximum of a box; a percentage counts 0 as a minimum, and as a maximum none.
fn clamped<S: Steady>(calc: &mut S, tree: &BoxTree, at: u32, width: S::Num) -> S::Num
    ensures { Lays S.run calc.old calc.new (S.at result)
        (λ e. clamped_of tree.now e.world at (S.at width e))
        (λ e. ClampFits tree.now e.world at (pos 0)) }
{
    let most = most_width(calc, tree, at);
    let least = absolute_part(calc, tree, &min_width(tree, at));
    hold(calc, most, least, width)
}

#[tactic(auto, unfolding(crate::specs::steps::Outer::with_edges))]
/// So wide a box, clamped, with its edges.
fn with_edges<S: Steady>(calc: &mut S, tree: &BoxTree, at: u32, width: S::Num) -> S::Num
    ensures { Lays S.run calc.old calc.new (S.at result)
        (λ e. edged tree.now e.world at (S.at width e))
        (λ e. AroundFits tree.now e.world at (S.at width e)) }
{
    let clamped = clamped(calc, tree, at, width);
    let edges = edges(calc, tree, at);
    calc.add(&clamped, &edges)
}

#[tactic(auto, unfolding(crate::specs::steps::Outer::is_given))]
/// Whether a box's width is what its `width` says: it isn't replaced, and that is no percentage and not `auto`.
pub fn is_given(tree: &BoxTree, at: u32) -> bool
    ensures { result ≡ given_width tree.now at }
{
    !matches!(kind(tree, at), Kind::Replaced)
        && matches!(own_width(tree, at), Length::Px(_) | Length::Em { .. })
}

#[tactic(auto, unfolding(crate::specs::steps::Outer::given))]
/// The outer widths of a box whose width is what its `width` says.
pub fn given<S: Steady>(calc: &mut S, tree: &BoxTree, at: u32) -> Preferred<S::Num>
    ensures { Lays S.run calc.old calc.new (preferred_at S.at result)
        (λ e. given_of tree.now e.world at) (λ e. GivenFits tree.now e.world at) }
{
    let width = absolute_part(calc, tree, &own_width(tree, at));
    let least = with_edges(calc, tree, at, width);
    let most = calc.copy(&least);
    Preferred { least, most }
}

#[tactic(auto, unfolding(crate::specs::steps::Outer::around))]
/// The outer widths of another box, what is in which has these.
pub fn around<S: Steady>(
    calc: &mut S,
    tree: &BoxTree,
    at: u32,
    inside: Preferred<S::Num>,
) -> Preferred<S::Num>
    ensures { Lays S.run calc.old calc.new (preferred_at S.at result)
        (λ e. around_of tree.now e.world at (preferred_at S.at inside e))
        (λ e. AroundFits tree.now e.world at (S.at inside.least e)
        × AroundFits tree.now e.world at (S.at inside.most e)) }
{
    let least = with_edges(calc, tree, at, inside.least);
    let most = with_edges(calc, tree, at, inside.most);
    Preferred { least, most }
}

/// The width of a replaced box that its height gives it, or its intrinsic one; a percentage height gives none.
fn by_height<S: Steady>(calc: &mut S, tree: &BoxTree, at: u32) -> S::Num
    ensures { Lays S.run calc.old calc.new (S.at result)
        (λ e. tentative_of (intrinsic_of tree.now at) None
        (if_absolute tree.now e.world (own tree.now at (λ (s : StyleOf). s.height) of_length.Auto)))
        (λ e. ByHeightFits tree.now e.world at) }
{
    let size = intrinsic_size(tree, at);
    match used_if_absolute(calc, tree, &own_height(tree, at)) {
        Some(height) => by_ratio(calc, &height, size.1, size.0),
        None => pixels(calc, 64 * i64::from(size.0)),
    }
}

/// The width of a replaced box before it is clamped.
fn tentative<S: Steady>(calc: &mut S, tree: &BoxTree, at: u32) -> S::Num
    ensures { Lays S.run calc.old calc.new (S.at result)
        (λ e. tentative_of (intrinsic_of tree.now at)
        (if_absolute tree.now e.world (own tree.now at (λ (s : StyleOf). s.width) of_length.Auto))
        (if_absolute tree.now e.world (own tree.now at (λ (s : StyleOf). s.height) of_length.Auto)))
        (λ e. UsedFits tree.now e.world (width_of tree.now at) (pos 0)
        × ByHeightFits tree.now e.world at) }
{
    match used_if_absolute(calc, tree, &own_width(tree, at)) {
        Some(width) => width,
        None => by_height(calc, tree, at),
    }
}

#[tactic(auto, unfolding(crate::specs::steps::Outer::replaced, crate::specs::steps::Outer::clamped_of))]
/// The preferred widths of a replaced box (CSS 2.1, 10.3.2).
pub fn replaced<S: Steady>(calc: &mut S, tree: &BoxTree, at: u32) -> Preferred<S::Num>
    ensures { Lays S.run calc.old calc.new (preferred_at S.at result)
        (λ e. replaced_of tree.now e.world at) (λ e. ReplacedFits tree.now e.world at) }
{
    let width = tentative(calc, tree, at);
    let least = clamped(calc, tree, at, width);
    let most = calc.copy(&least);
    Preferred { least, most }
}
