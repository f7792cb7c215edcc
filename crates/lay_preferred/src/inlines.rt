//! The preferred widths of inline content, from its items (CSS 2.1, 9.4.2, 10.3.5).
ghost use Rattle.std.specs.Prelude.{◌≡◌, ◌++◌, ◌∷◌, [], None, ⊤};
ghost use Rattle.viz_calc.specs.State.{AllSmall};
ghost use Rattle.viz_calc.specs.Run.{Lays, LaysButMem};
ghost use Rattle.layout_semantics.specs.Blocks.{node_of};
ghost use Rattle.layout_semantics.specs.Fonts.{text_width as text_width_of};
ghost use Rattle.layout_semantics.specs.Preferred.{inside_of};
ghost use Rattle.layout_semantics.specs.Segments.{may_part, never};
ghost use Rattle.lay_width.specs.Readings.{preferred_at};
ghost use Rattle.lay_line.specs.Items.{item_of, items_of, summed};
ghost use Rattle.lay_line.specs.steps.Marks.{marks as marks_of};
ghost use Rattle.lay_preferred.specs.Fitting.{leasts, mosts, IsHalf, TextFits, ItemFits};
ghost use Rattle.lay_preferred.specs.Readings.{size_at, sizes_at, parts_at};
ghost use Rattle.lay_preferred.specs.Sorts.{inside_by};
ghost use Rattle.lay_line.specs.steps.Content.{IsSum};
ghost use Rattle.lay_preferred.specs.steps.Extremes.{or_zero as of_or_zero};
ghost use Rattle.lay_preferred.specs.steps.Outer.{both as both_of};
ghost use Rattle.lay_preferred.specs.steps.Parts.{width_of, least_width, most_width, widest, widest_float as float_of, inline_of};

use crate::extremes::or_zero;
use crate::outer::{end_width, start_width};
use crate::parts::{widest_float, widest_piece, widest_segment};
use lay_length::fonts::{text_width, word_width};
use lay_length::lengths::zero;
use lay_line::breaks::{Parting, marks};
use lay_line::held::Piece;
use lay_line::items::Item;
use lay_line::segments::Segments;
use lay_tree::boxes::{kind, node};
use lay_tree::contents::holds_inline;
use viz_base::{BoxTree, Kind, Preferred};
use viz_calc::Steady;

/// A width that is both.
pub fn both<S: Steady>(calc: &mut S, width: S::Num) -> Preferred<S::Num>
    ensures { Lays S.run calc.old calc.new (preferred_at S.at result) (λ e. both_of (S.at width e))
        (λ e. AllSmall (S.at width e ∷ [])) }
{
    let most = calc.copy(&width);
    Preferred { least: width, most }
}

/// What decides the preferred widths of a box.
#[derive(Clone, Copy, PartialEq, Eq)]
pub enum Sort {
    /// It is replaced.
    Replaced,
    /// It holds inline content.
    Inline,
    /// It holds blocks, or nothing.
    Blocks,
}

/// What decides the preferred widths of a box.
pub fn sort_of(tree: &BoxTree, at: u32) -> Sort
    ensures { inside_by result ≡ inside_of tree.now at }
{
    match kind(tree, at) {
        Kind::Replaced => Sort::Replaced,
        _ => {
            if holds_inline(tree, at) {
                Sort::Inline
            } else {
                Sort::Blocks
            }
        }
    }
}

/// A piece more at the end.
pub fn add_piece<'a, S: Steady>(
    calc: &mut S,
    pieces: &mut Vec<Piece<'a, Preferred<S::Num>>>,
    piece: Piece<'a, Preferred<S::Num>>,
)
    ensures { LaysButMem S.run calc.old calc.new (sizes_at S.at pieces.new.items)
        (λ e. sizes_at S.at pieces.old.items e ++ size_at S.at piece.entry e ∷ []) (λ e. ⊤) }
{
    if pieces.push(piece).is_err() {
        calc.stop();
    }
}

/// The preferred minimum width of inline content in these segments: the widest of them, or float.
fn least_of<S: Steady>(calc: &mut S, pieces: &[Piece<Preferred<S::Num>>], marks: &[bool]) -> S::Num
    ensures { Lays S.run calc.old calc.new (S.at result)
        (λ e. of_or_zero (float_of (widest least_width None (parts_at S.at pieces.now marks.now e))
        (sizes_at S.at pieces.now e))) (λ e. IsHalf (leasts (sizes_at S.at pieces.now e))) }
{
    let widest = widest_segment(calc, Segments { pieces, marks });
    let widest = widest_float(calc, widest, pieces);
    or_zero(calc, widest)
}

/// The preferred width of inline content in these pieces: the widest of them, with the floats in it.
fn most_of<S: Steady>(calc: &mut S, pieces: &[Piece<Preferred<S::Num>>], marks: &[bool]) -> S::Num
    ensures { Lays S.run calc.old calc.new (S.at result)
        (λ e. of_or_zero (widest most_width None (parts_at S.at pieces.now marks.now e)))
        (λ e. IsHalf (mosts (sizes_at S.at pieces.now e))) }
{
    let widest = widest_piece(calc, Segments { pieces, marks });
    or_zero(calc, widest)
}

/// The preferred minimum width of inline content.
fn least_inline<S: Steady>(
    calc: &mut S,
    tree: &BoxTree,
    items: &[Item],
    pieces: &[Piece<Preferred<S::Num>>],
) -> S::Num
    ensures { LaysButMem S.run calc.old calc.new (S.at result)
        (λ e. of_or_zero
        (float_of
        (widest least_width None
        (parts_at S.at pieces.now (marks_of (may_part tree.now) None None (items_of items.now)) e))
        (sizes_at S.at pieces.now e))) (λ e. IsHalf (leasts (sizes_at S.at pieces.now e))) }
{
    match marks(tree, Parting::Lines, items) {
        Ok(marks) => least_of(calc, pieces, marks.as_slice()),
        Err(_) => {
            calc.stop();
            zero(calc)
        }
    }
}

/// The preferred width of inline content.
fn most_inline<S: Steady>(
    calc: &mut S,
    tree: &BoxTree,
    items: &[Item],
    pieces: &[Piece<Preferred<S::Num>>],
) -> S::Num
    ensures { LaysButMem S.run calc.old calc.new (S.at result)
        (λ e. of_or_zero (widest most_width None
        (parts_at S.at pieces.now (marks_of never None None (items_of items.now)) e)))
        (λ e. IsHalf (mosts (sizes_at S.at pieces.now e))) }
{
    match marks(tree, Parting::Never, items) {
        Ok(marks) => most_of(calc, pieces, marks.as_slice()),
        Err(_) => {
            calc.stop();
            zero(calc)
        }
    }
}

/// The preferred widths of inline content whose pieces these are.
pub fn inline_widths<S: Steady>(
    calc: &mut S,
    tree: &BoxTree,
    items: &[Item],
    pieces: &[Piece<Preferred<S::Num>>],
) -> Preferred<S::Num>
    ensures { LaysButMem S.run calc.old calc.new (preferred_at S.at result)
        (λ e. inline_of tree.now (items_of items.now) (sizes_at S.at pieces.now e))
        (λ e. IsHalf (leasts (sizes_at S.at pieces.now e))
        × IsHalf (mosts (sizes_at S.at pieces.now e))) }
{
    let least = least_inline(calc, tree, items, pieces);
    let most = most_inline(calc, tree, items, pieces);
    Preferred { least, most }
}

/// What a space of a box takes.
fn space_width<S: Steady>(calc: &mut S, tree: &BoxTree, at: u32) -> S::Num
    ensures { Lays S.run calc.old calc.new (S.at result)
        (λ e. text_width_of tree.now e.world (node_of tree.now at) (32 ∷ []))
        (λ e. TextFits tree.now e.world at (32 ∷ [])) }
{
    text_width(calc, tree, node(tree, at), " ")
}

#[tactic(auto, unfolding(crate::specs::steps::Parts::width_of))]
/// What an item takes that is no box.
pub fn item_width<S: Steady>(calc: &mut S, tree: &BoxTree, item: &Item) -> S::Num
    requires { IsSum tree.now (summed item.now) }
    ensures { Lays S.run calc.old calc.new (S.at result)
        (λ e. width_of tree.now e.world (item_of item.now))
        (λ e. ItemFits tree.now e.world (item_of item.now)) }
{
    match item {
        Item::Word(at, word) => word_width(calc, tree, node(tree, *at), word),
        Item::Space(at) => space_width(calc, tree, *at),
        Item::Start(at) => start_width(calc, tree, *at),
        Item::Finish(at) => end_width(calc, tree, *at),
        Item::Atomic(_) | Item::Forced(_) | Item::Float(_) => zero(calc),
    }
}
