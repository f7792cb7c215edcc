//! How far boxes are raised, and how far they reach in their line (CSS 2.1, 10.8.1).
ghost use Rattle.std.specs.Prelude.{◌≡◌, ◌+ℤ◌, ◌-ℤ◌, neg_ℤ, IsTrue, ◌∷◌, [], pos};
ghost use Rattle.viz_base.specs.Numbers.{floor_of};
ghost use Rattle.viz_base.specs.declared.lengths.Valign.TheVariants as of_valign;
ghost use Rattle.viz_calc.specs.Run.{Fits, Lays};
ghost use Rattle.layout_semantics.specs.Blocks.{node_of};
ghost use Rattle.layout_semantics.specs.Fonts.{font_size};
ghost use Rattle.layout_semantics.specs.Lengths.{own};
ghost use Rattle.layout_semantics.specs.LineHeights.{height_of_extent, shift_to as shifted_to};
ghost use Rattle.lay_line.specs.Contexts.{context_at};
ghost use Rattle.lay_line.specs.Readings.{line_extent_at};
ghost use Rattle.lay_line.specs.steps.Words.{own_reach, raise_in, raised, inline_raised, reach_in, strut_in};
ghost use Rattle.viz_calc.specs.State.{AllSmall};
ghost use Rattle.viz_base.specs.FontSizes.{fraction};
ghost use Rattle.lay_length.specs.Ways.{part_way};
ghost use Rattle.lay_line.specs.Fits.{CentredFits, RaiseFits, ShiftFits_to, ShiftFits, InlineShiftFits, OwnFits, ReachFits, InlineFits};

use crate::containers::{Container, inner_of};
use crate::extents::{LineExtent, height};
use crate::inline_extents::{half, inline_extent};
use lay_length::fonts::{line_height, size_part};
use lay_length::lengths::{used, zero};
use lay_tree::boxes::{node, parent};
use lay_tree::styles::vertical_align;
use viz_base::{BoxTree, Valign};
use viz_calc::Steady;

/// A fifth of a node's font size, rounded down, below the baseline.
fn lowered<S: Steady>(calc: &mut S, tree: &BoxTree, node: u32) -> S::Num
    ensures { Lays S.run calc.old calc.new (S.at result)
        (λ e. neg_ℤ (floor_of (font_size tree.now e.world node) 5))
        (λ e. AllSmall (part_way tree.now e.world node
        (fraction (pos 1) 5 (font_size tree.now e.world node)))
        × AllSmall (pos 0 ∷ neg_ℤ (floor_of (font_size tree.now e.world node) 5) ∷ [])) }
{
    let part = size_part(calc, tree, node, 1, 5);
    let none = zero(calc);
    calc.sub(&none, &part)
}

/// How far a box is raised whose middle is a quarter of a node's font size above its baseline.
fn centred<S: Steady>(
    calc: &mut S,
    tree: &BoxTree,
    node: u32,
    extent: &LineExtent<S::Num>,
) -> S::Num
    ensures { Lays S.run calc.old calc.new (S.at result)
        (λ e. (floor_of (font_size tree.now e.world node) 4 +ℤ floor_of
        (height_of_extent (line_extent_at S.at extent.now e)) 2) -ℤ S.at extent.now.above e)
        (λ e. CentredFits tree.now e.world node (line_extent_at S.at extent.now e)) }
{
    let part = size_part(calc, tree, node, 1, 4);
    let whole = height(calc, extent);
    let half = half(calc, &whole);
    let top = calc.add(&part, &half);
    calc.sub(&top, &extent.above)
}

#[tactic(auto, unfolding(crate::specs::Contexts::context_at, crate::specs::steps::Words::raise_in, crate::specs::Fits::RaiseFits))]
/// How far a box of a node is raised over the baseline of the box of another node that it is in.
fn raise<S: Steady>(
    calc: &mut S,
    container: &Container<'_, S::Num>,
    node: u32,
    parent: u32,
    extent: &LineExtent<S::Num>,
    valign: &Valign,
) -> S::Num
    ensures { Lays S.run calc.old calc.new (S.at result)
        (λ e. raise_in (context_at S.at container.now e) node parent
        (line_extent_at S.at extent.now e) valign.now)
        (λ e. RaiseFits (context_at S.at container.now e) node parent
        (line_extent_at S.at extent.now e) valign.now) }
{
    match valign {
        Valign::Baseline => zero(calc),
        Valign::Sub => lowered(calc, container.tree, parent),
        Valign::Super => size_part(calc, container.tree, parent, 1, 3),
        Valign::Middle => centred(calc, container.tree, parent, extent),
        Valign::Raise(length) => {
            let whole = line_height(calc, container.tree, node);
            used(calc, container.tree, length, &whole)
        }
    }
}

/// How far the baseline of a box is above that of its line, its raise and those of so many inline boxes around it.
fn shift_to<S: Steady>(
    calc: &mut S,
    container: &Container<'_, S::Num>,
    levels: u64,
    at: u32,
    extent: &LineExtent<S::Num>,
) -> S::Num
    ensures { Lays S.run calc.old calc.new (S.at result)
        (λ e. shifted_to levels (context_at S.at container.now e) at
        (line_extent_at S.at extent.now e))
        (λ e. ShiftFits_to levels (context_at S.at container.now e) at
        (line_extent_at S.at extent.now e)) }
{
    if levels == 0 {
        return zero(calc);
    }
    if at == container.at {
        return zero(calc);
    }
    match parent(container.tree, at) {
        Some(parent) => {
            let around = node(container.tree, parent);
            let node = node(container.tree, at);
            let valign = vertical_align(container.tree, at);
            let own = raise(calc, container, node, around, extent, &valign);
            let outer = inline_extent(calc, container.tree, around);
            let above = shift_to(calc, container, levels - 1, parent, &outer);
            calc.add(&own, &above)
        }
        None => zero(calc),
    }
}

#[tactic(auto, unfolding(crate::specs::steps::Words::raised, crate::specs::Fits::ShiftFits))]
/// How far the baseline of a box is above that of its line.
pub fn shift<S: Steady>(
    calc: &mut S,
    container: &Container<'_, S::Num>,
    at: u32,
    extent: &LineExtent<S::Num>,
) -> S::Num
    ensures { Lays S.run calc.old calc.new (S.at result)
        (λ e. raised (context_at S.at container.now e) at (line_extent_at S.at extent.now e))
        (λ e. ShiftFits (context_at S.at container.now e) at (line_extent_at S.at extent.now e)) }
{
    shift_to(calc, container, u64::from(at) + 1, at, extent)
}

#[tactic(auto, unfolding(crate::specs::Contexts::context_at, crate::specs::steps::Words::inline_raised, crate::specs::Fits::InlineShiftFits))]
/// How far the baseline of an inline box is above that of its line.
pub fn inline_shift<S: Steady>(calc: &mut S, container: &Container<'_, S::Num>, at: u32) -> S::Num
    ensures { Lays S.run calc.old calc.new (S.at result)
        (λ e. inline_raised (context_at S.at container.now e) at)
        (λ e. InlineShiftFits (context_at S.at container.now e) at) }
{
    let extent = inline_extent(calc, container.tree, node(container.tree, at));
    shift(calc, container, at, &extent)
}

/// An inline box by its line height, or an atomic box by its margin box.
pub fn box_extent<S: Steady>(
    calc: &mut S,
    container: &Container<'_, S::Num>,
    at: u32,
) -> LineExtent<S::Num>
    ensures { Lays S.run calc.old calc.new (line_extent_at S.at result)
        (λ e. own_reach (context_at S.at container.now e) at)
        (λ e. OwnFits (context_at S.at container.now e) at) }
{
    match inner_of(container, at) {
        Some(inner) => {
            let above = calc.copy(&inner.above);
            let below = calc.copy(&inner.below);
            LineExtent { above, below }
        }
        None => inline_extent(calc, container.tree, node(container.tree, at)),
    }
}

#[tactic(auto, unfolding(crate::specs::steps::Words::reach_in, crate::specs::Fits::ReachFits))]
/// How far a box reaches above and below the baseline of its line.
pub fn reach<S: Steady>(
    calc: &mut S,
    container: &Container<'_, S::Num>,
    at: u32,
) -> LineExtent<S::Num>
    ensures { Lays S.run calc.old calc.new (line_extent_at S.at result)
        (λ e. reach_in (context_at S.at container.now e) at)
        (λ e. ReachFits (context_at S.at container.now e) at) }
{
    let extent = box_extent(calc, container, at);
    let up = shift(calc, container, at, &extent);
    let above = calc.add(&extent.above, &up);
    let below = calc.sub(&extent.below, &up);
    LineExtent { above, below }
}

#[tactic(auto, unfolding(crate::specs::Contexts::context_at, crate::specs::steps::Words::strut_in))]
/// The strut: an empty inline box of the block container.
pub fn strut<S: Steady>(calc: &mut S, container: &Container<'_, S::Num>) -> LineExtent<S::Num>
    ensures { Lays S.run calc.old calc.new (line_extent_at S.at result)
        (λ e. strut_in (context_at S.at container.now e))
        (λ e. InlineFits container.now.tree.now e.world
        (node_of container.now.tree.now container.now.at)) }
{
    inline_extent(calc, container.tree, node(container.tree, container.at))
}
