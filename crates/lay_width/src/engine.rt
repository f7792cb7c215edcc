//! The used widths and horizontal margins of boxes (CSS 2.1, 10.3, 10.4).
ghost use Rattle.std.specs.Prelude.{◌≡◌};
ghost use Rattle.viz_base.specs.declared.lengths.Length.TheVariants as of_length;
ghost use Rattle.viz_base.specs.declared.styles.Style.{Style as StyleOf};
ghost use Rattle.viz_calc.specs.State.{AllSmall, WhereOpen};
ghost use Rattle.viz_calc.specs.Run.{Goes, Blames, Lays};
ghost use Rattle.layout_semantics.specs.Lengths.{own};
ghost use Rattle.layout_semantics.specs.Lengths.{margins as margins_at};
ghost use Rattle.layout_semantics.specs.Horizontal.{terms_around, fixed_terms, block_terms, shrunk_terms, clamped_terms, placing_of};
ghost use Rattle.layout_semantics.specs.Horizontal.{shrink_to_fit as fit_of, is_auto as is_automatic, widths as widths_of};
ghost use Rattle.layout_semantics.specs.Preferred.{preferred as preferred_of};
ghost use Rattle.layout_semantics.specs.Replaced.{replaced_size};
ghost use Rattle.lay_width.specs.Readings.{widths_at, preferred_at, AreItsOwn};
ghost use Rattle.lay_width.specs.Fitting.{BlockFits, FillingFits, FixedBlockFits, GivenBlockFits, FittedFits, ShrunkFits};
ghost use Rattle.lay_width.specs.Fitting.{EdgesFit, ReplacedFits, ReplacedBetweenFits, ReplacedBlockFits, in_block, WidthsFit, fit_way};
ghost use Rattle.lay_width.specs.steps.Terms.{fixed_around, filled_block, given_block, fitted_by};
ghost use Rattle.lay_width.specs.steps.Terms.{around as around_of};

use crate::clamping::{again, clamped};
use crate::replaced;
use crate::terms::{around, edges, fixed, room};
use lay_length::lengths::used;
use lay_tree::placings::{Placing, placed_as};
use lay_tree::styles::{is_auto, margins, own_width};
use viz_base::{BoxTree, Length, Preferred, Widths};
use viz_calc::{Steady, lesser};

/// The terms of a block of a fixed width around which these edges are, its margins automatic or not.
fn fixed_block<S: Steady>(
    calc: &mut S,
    tree: &BoxTree,
    b: u32,
    cb: &S::Num,
    edges: Widths<S::Num>,
    width: S::Num,
) -> Widths<S::Num>
    ensures { Lays S.run calc.old calc.new (widths_at S.at result)
        (λ e. fixed_around (is_automatic (margins_at tree.now b).left)
        (is_automatic (margins_at tree.now b).right)
        (around_of (widths_at S.at edges e) (S.at width e)) (S.at cb.now e))
        (λ e. FixedBlockFits tree.now b (widths_at S.at edges e) (S.at cb.now e) (S.at width e)) }
{
    let margin = margins(tree, b);
    let terms = around(edges, width);
    fixed(
        calc,
        is_auto(&margin.left),
        is_auto(&margin.right),
        terms,
        cb,
    )
}

/// The terms of a block of width `auto` around which these edges are: the width is what is left, and where it
/// is clamped the margins are those of a fixed one (CSS 2.1, 10.3.3, 10.4).
fn filling_block<S: Steady>(
    calc: &mut S,
    tree: &BoxTree,
    b: u32,
    cb: &S::Num,
    edges: Widths<S::Num>,
) -> Widths<S::Num>
    ensures { Lays S.run calc.old calc.new (widths_at S.at result)
        (λ e. filled_block tree.now e.world b (S.at cb.now e) (widths_at S.at edges e))
        (λ e. FillingFits tree.now e.world b (S.at cb.now e) (widths_at S.at edges e)) }
{
    let width = room(calc, &edges, cb);
    match again(calc, tree, b, cb, &width) {
        Some(other) => fixed_block(calc, tree, b, cb, edges, other),
        None => {
            let terms = around(edges, width);
            fixed(calc, false, false, terms, cb)
        }
    }
}

/// The terms of a block of this `width` around which these edges are.
fn given_block<S: Steady>(
    calc: &mut S,
    tree: &BoxTree,
    b: u32,
    cb: &S::Num,
    edges: Widths<S::Num>,
) -> Widths<S::Num>
    ensures { Lays S.run calc.old calc.new (widths_at S.at result)
        (λ e. given_block tree.now e.world b (S.at cb.now e)
        (own tree.now b (λ (s : StyleOf). s.width) of_length.Auto) (widths_at S.at edges e))
        (λ e. GivenBlockFits tree.now e.world b (S.at cb.now e)
        (own tree.now b (λ (s : StyleOf). s.width) of_length.Auto) (widths_at S.at edges e)) }
{
    let width = used(calc, tree, &own_width(tree, b), cb);
    let width = clamped(calc, tree, b, cb, width);
    fixed_block(calc, tree, b, cb, edges, width)
}

/// The terms of a block in normal flow (CSS 2.1, 10.3.3, 10.4).
pub fn block<S: Steady>(calc: &mut S, tree: &BoxTree, b: u32, cb: &S::Num) -> Widths<S::Num>
    ensures { Lays S.run calc.old calc.new (widths_at S.at result)
        (λ e. clamped_terms tree.now e.world b (S.at cb.now e)
        (block_terms tree.now e.world b (S.at cb.now e)))
        (λ e. BlockFits tree.now e.world b (S.at cb.now e)) }
{
    let edges = edges(calc, tree, b, cb);
    if is_auto(&own_width(tree, b)) {
        filling_block(calc, tree, b, cb, edges)
    } else {
        given_block(calc, tree, b, cb, edges)
    }
}

/// The width that fits: what is left, but no less than the preferred minimum and no more than the preferred width
/// (CSS 2.1, 10.3.5). It first asks whether all of the preferred width is left.
fn shrink_to_fit<S: Steady>(calc: &mut S, preferred: &Preferred<S::Num>, room: S::Num) -> S::Num
    ensures { Lays S.run calc.old calc.new (S.at result)
        (λ e. fit_of (preferred_at S.at preferred.now e) (S.at room e))
        (λ e. AllSmall (fit_way (preferred_at S.at preferred.now e))) }
{
    let most = calc.copy(&preferred.most);
    if calc.le(&most, &room) {
        return most;
    }
    if calc.le(&preferred.least, &room) {
        return room;
    }
    let least = calc.copy(&preferred.least);
    lesser(calc, least, most)
}

/// The width of a float or of an inline-block of these preferred widths and these edges (CSS 2.1, 10.3.5, 10.4).
fn shrunk_width<S: Steady>(
    calc: &mut S,
    tree: &BoxTree,
    b: u32,
    cb: &S::Num,
    preferred: &Preferred<S::Num>,
    edges: &Widths<S::Num>,
) -> S::Num
    ensures { Lays S.run calc.old calc.new (S.at result)
        (λ e. fitted_by tree.now e.world (own tree.now b (λ (s : StyleOf). s.width) of_length.Auto)
        (S.at cb.now e) (preferred_at S.at preferred.now e) (widths_at S.at edges.now e))
        (λ e. FittedFits tree.now e.world (own tree.now b (λ (s : StyleOf). s.width) of_length.Auto)
        (S.at cb.now e) (preferred_at S.at preferred.now e) (widths_at S.at edges.now e)) }
{
    match own_width(tree, b) {
        Length::Auto => {
            let room = room(calc, edges, cb);
            shrink_to_fit(calc, preferred, room)
        }
        length @ (Length::Px(_) | Length::Em { .. } | Length::Pct(_)) => used(
            calc, tree, &length, cb,
        ),
    }
}

/// The terms of a float or of an inline-block of these preferred widths; automatic margins are 0
/// (CSS 2.1, 10.3.5, 10.3.9).
pub fn shrunk<S: Steady>(
    calc: &mut S,
    tree: &BoxTree,
    b: u32,
    cb: &S::Num,
    preferred: &Preferred<S::Num>,
) -> Widths<S::Num>
    ensures goes { Goes (S.run calc.old) (S.run calc.new) }
    ensures value { WhereOpen (S.run calc.new).is_open
        (λ e. preferred_at S.at preferred.now e ≡ preferred_of tree.now e.world b
        → widths_at S.at result e ≡ clamped_terms tree.now e.world b (S.at cb.now e)
        (shrunk_terms tree.now e.world b (S.at cb.now e))) }
    ensures cause { Blames (S.run calc.old) (S.run calc.new) (WhereOpen (S.run calc.old).is_open
        (λ e. ShrunkFits tree.now e.world b (S.at cb.now e) (preferred_at S.at preferred.now e))) }
{
    let edges = edges(calc, tree, b, cb);
    let width = shrunk_width(calc, tree, b, cb, preferred, &edges);
    let width = clamped(calc, tree, b, cb, width);
    around(edges, width)
}

/// The terms of a replaced block in normal flow around which these edges are.
fn replaced_between<S: Steady>(
    calc: &mut S,
    tree: &BoxTree,
    b: u32,
    cb: &S::Num,
    edges: Widths<S::Num>,
) -> Widths<S::Num>
    ensures { Lays S.run calc.old calc.new (widths_at S.at result)
        (λ e. fixed_around (is_automatic (margins_at tree.now b).left)
        (is_automatic (margins_at tree.now b).right)
        (around_of (widths_at S.at edges e)
        (replaced_size tree.now e.world b (S.at cb.now e)).width) (S.at cb.now e))
        (λ e. ReplacedBetweenFits tree.now e.world b (S.at cb.now e) (widths_at S.at edges e)) }
{
    let width = replaced::width(calc, tree, b, cb);
    fixed_block(calc, tree, b, cb, edges, width)
}

/// The terms of a replaced block in normal flow (CSS 2.1, 10.3.4).
pub fn replaced_block<S: Steady>(
    calc: &mut S,
    tree: &BoxTree,
    b: u32,
    cb: &S::Num,
) -> Widths<S::Num>
    ensures { Lays S.run calc.old calc.new (widths_at S.at result)
        (λ e. fixed_terms tree.now e.world b (S.at cb.now e)
        (replaced_size tree.now e.world b (S.at cb.now e)).width)
        (λ e. ReplacedBlockFits tree.now e.world b (S.at cb.now e)) }
{
    let edges = edges(calc, tree, b, cb);
    replaced_between(calc, tree, b, cb, edges)
}

/// The terms of a replaced float, or of a replaced box in a line (CSS 2.1, 10.3.2, 10.3.6).
pub fn replaced_shrunk<S: Steady>(
    calc: &mut S,
    tree: &BoxTree,
    b: u32,
    cb: &S::Num,
) -> Widths<S::Num>
    ensures { Lays S.run calc.old calc.new (widths_at S.at result)
        (λ e. terms_around tree.now e.world b (S.at cb.now e)
        (replaced_size tree.now e.world b (S.at cb.now e)).width)
        (λ e. EdgesFit tree.now e.world b (S.at cb.now e)
        × ReplacedFits tree.now e.world b (S.at cb.now e)) }
{
    let edges = edges(calc, tree, b, cb);
    let width = replaced::width(calc, tree, b, cb);
    around(edges, width)
}

/// The used widths and horizontal margins of a box in a containing block of width `cb`. These are its preferred
/// widths, where it is a float or an inline-block; else they do not matter.
pub fn widths<S: Steady>(
    calc: &mut S,
    tree: &BoxTree,
    b: u32,
    cb: &S::Num,
    preferred: &Preferred<S::Num>,
) -> Widths<S::Num>
    ensures goes { Goes (S.run calc.old) (S.run calc.new) }
    ensures value { WhereOpen (S.run calc.new).is_open
        (λ e. AreItsOwn tree.now e.world b (preferred_at S.at preferred.now e)
        → widths_at S.at result e ≡ widths_of tree.now e.world b (S.at cb.now e)) }
    ensures cause { Blames (S.run calc.old) (S.run calc.new) (WhereOpen (S.run calc.old).is_open
        (λ e. WidthsFit (in_block tree.now e.world b (S.at cb.now e)) (placing_of tree.now b)
        (preferred_at S.at preferred.now e))) }
{
    match placed_as(tree, b) {
        Placing::Block => block(calc, tree, b, cb),
        Placing::Shrunk => shrunk(calc, tree, b, cb, preferred),
        Placing::ReplacedBlock => replaced_block(calc, tree, b, cb),
        Placing::ReplacedShrunk => replaced_shrunk(calc, tree, b, cb),
    }
}
