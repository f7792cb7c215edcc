//! The preferred widths of inline content, part by part (CSS 2.1, 9.4.2, 10.3.5).
ghost use Rattle.std.specs.Prelude.{◌+◌, unsigned_abs, None, [], ◌∷◌};
ghost use Rattle.viz_calc.specs.State.{AllSmall};
ghost use Rattle.viz_calc.specs.Run.{Lays};
ghost use Rattle.lay_width.specs.Readings.{option_at};
ghost use Rattle.lay_line.specs.Items.{item_of};
ghost use Rattle.lay_line.specs.Readings.{held_at};
ghost use Rattle.lay_line.specs.Limits.{held_size};
ghost use Rattle.lay_preferred.specs.Fitting.{after_way, leasts, mosts, IsHalf};
ghost use Rattle.lay_preferred.specs.Readings.{size_at, sizes_at, parts_at};
ghost use Rattle.lay_preferred.specs.steps.Parts.{held_after, held_least, held_most, least_width as least_of, most_width as most_of, sum_after, floats_from, widest, past_float as float_past, widest_float as float_of};

use crate::extremes::larger;
use lay_length::lengths::zero;
use lay_line::held::{Held, Piece, nothing, with_item};
use lay_line::items::Item;
use lay_line::segments::{Segments, cut_first};
use viz_base::Preferred;
use viz_calc::Steady;

/// What a part holds after a piece more; a float takes no place among the others.
fn least_after<S: Steady>(
    calc: &mut S,
    held: Held<S::Num>,
    piece: &Piece<Preferred<S::Num>>,
) -> Held<S::Num>
    ensures { Lays S.run calc.old calc.new (held_at S.at result)
        (λ e. held_after (size_at S.at piece.now e).widths.least (held_at S.at held e)
        (item_of piece.now.item)) (λ e. AllSmall
        (after_way (S.at piece.now.width.least e) (held_at S.at held e) (item_of piece.now.item))) }
{
    match piece.item {
        Item::Float(_) => held,
        _ => with_item(calc, held, &piece.item, &piece.width.least),
    }
}

/// The same with the preferred widths of atomic boxes in place of the preferred minimum ones.
fn most_after<S: Steady>(
    calc: &mut S,
    held: Held<S::Num>,
    piece: &Piece<Preferred<S::Num>>,
) -> Held<S::Num>
    ensures { Lays S.run calc.old calc.new (held_at S.at result)
        (λ e. held_after (size_at S.at piece.now e).widths.most (held_at S.at held e)
        (item_of piece.now.item)) (λ e. AllSmall
        (after_way (S.at piece.now.width.most e) (held_at S.at held e) (item_of piece.now.item))) }
{
    match piece.item {
        Item::Float(_) => held,
        _ => with_item(calc, held, &piece.item, &piece.width.most),
    }
}

/// What a segment holds, after what is before it.
fn least_held<S: Steady>(
    calc: &mut S,
    start: Held<S::Num>,
    part: &[Piece<Preferred<S::Num>>],
) -> Held<S::Num>
    ensures { Lays S.run calc.old calc.new (held_at S.at result)
        (λ e. held_least (held_at S.at start e) (sizes_at S.at part.now e))
        (λ e. IsHalf (held_size (held_at S.at start e) + leasts (sizes_at S.at part.now e))) }
{
    let mut held = start;
    for piece in part {
        held = least_after(calc, held, piece);
    }
    held
}

/// What a piece between forced breaks holds, after what is before it.
fn most_held<S: Steady>(
    calc: &mut S,
    start: Held<S::Num>,
    part: &[Piece<Preferred<S::Num>>],
) -> Held<S::Num>
    ensures { Lays S.run calc.old calc.new (held_at S.at result)
        (λ e. held_most (held_at S.at start e) (sizes_at S.at part.now e))
        (λ e. IsHalf (held_size (held_at S.at start e) + mosts (sizes_at S.at part.now e))) }
{
    let mut held = start;
    for piece in part {
        held = most_after(calc, held, piece);
    }
    held
}

#[tactic(auto, unfolding(crate::specs::steps::Parts::least_width))]
/// The width of a segment without the spaces at its ends.
fn least_width<S: Steady>(calc: &mut S, part: &[Piece<Preferred<S::Num>>]) -> S::Num
    ensures { Lays S.run calc.old calc.new (S.at result) (λ e. least_of (sizes_at S.at part.now e))
        (λ e. IsHalf (leasts (sizes_at S.at part.now e))) }
{
    let start = nothing(calc);
    let held = least_held(calc, start, part);
    held.width
}

/// With the preferred width of a float more.
fn with_float<S: Steady>(calc: &mut S, sum: S::Num, piece: &Piece<Preferred<S::Num>>) -> S::Num
    ensures { Lays S.run calc.old calc.new (S.at result)
        (λ e. sum_after (S.at sum e) (size_at S.at piece.now e) (item_of piece.now.item))
        (λ e. AllSmall (sum_after (S.at sum e) (size_at S.at piece.now e) (item_of piece.now.item)
        ∷ [])) }
{
    match piece.item {
        Item::Float(_) => calc.add(&sum, &piece.width.most),
        _ => sum,
    }
}

/// The preferred widths of the floats of a piece, and what is before them, together.
fn floats_width<S: Steady>(calc: &mut S, start: S::Num, part: &[Piece<Preferred<S::Num>>]) -> S::Num
    ensures { Lays S.run calc.old calc.new (S.at result)
        (λ e. floats_from (S.at start e) (sizes_at S.at part.now e))
        (λ e. IsHalf (unsigned_abs (S.at start e) + mosts (sizes_at S.at part.now e))) }
{
    let mut sum = start;
    for piece in part {
        sum = with_float(calc, sum, piece);
    }
    sum
}

#[tactic(auto, unfolding(crate::specs::steps::Parts::most_width))]
/// The width of a piece between forced breaks, without the spaces at its ends, and with the floats in it.
fn most_width<S: Steady>(calc: &mut S, part: &[Piece<Preferred<S::Num>>]) -> S::Num
    ensures { Lays S.run calc.old calc.new (S.at result) (λ e. most_of (sizes_at S.at part.now e))
        (λ e. IsHalf (mosts (sizes_at S.at part.now e))) }
{
    let start = nothing(calc);
    let held = most_held(calc, start, part);
    let none = zero(calc);
    let floats = floats_width(calc, none, part);
    calc.add(&held.width, &floats)
}

/// The greatest so far, after the preferred minimum width of a float.
fn past_float<S: Steady>(
    calc: &mut S,
    best: Option<S::Num>,
    piece: &Piece<Preferred<S::Num>>,
) -> Option<S::Num>
    ensures { Lays S.run calc.old calc.new (option_at S.at result)
        (λ e. float_past (option_at S.at best e) (size_at S.at piece.now e).widths.least
        (item_of piece.now.item)) (λ e. AllSmall (S.at piece.now.width.least e ∷ [])) }
{
    match piece.item {
        Item::Float(_) => {
            let width = calc.copy(&piece.width.least);
            Some(larger(calc, best, width))
        }
        _ => best,
    }
}

/// The greatest so far, after those of all floats.
pub fn widest_float<S: Steady>(
    calc: &mut S,
    start: Option<S::Num>,
    pieces: &[Piece<Preferred<S::Num>>],
) -> Option<S::Num>
    ensures { Lays S.run calc.old calc.new (option_at S.at result)
        (λ e. float_of (option_at S.at start e) (sizes_at S.at pieces.now e))
        (λ e. IsHalf (leasts (sizes_at S.at pieces.now e))) }
{
    let mut best = start;
    for piece in pieces {
        best = past_float(calc, best, piece);
    }
    best
}

/// The widest segment, where there is one.
pub fn widest_segment<S: Steady>(
    calc: &mut S,
    segments: Segments<'_, '_, Preferred<S::Num>>,
) -> Option<S::Num>
    ensures { Lays S.run calc.old calc.new (option_at S.at result)
        (λ e. widest least_of None
        (parts_at S.at segments.entry.pieces.now segments.entry.marks.now e))
        (λ e. IsHalf (leasts (sizes_at S.at segments.entry.pieces.now e))) }
{
    let mut rest = segments;
    let mut best = None;
    while let Some(cut) = cut_first(&rest) {
        let width = least_width(calc, cut.first);
        best = Some(larger(calc, best, width));
        rest = cut.rest;
    }
    best
}

/// The widest piece with the floats in it, where there is one.
pub fn widest_piece<S: Steady>(
    calc: &mut S,
    pieces: Segments<'_, '_, Preferred<S::Num>>,
) -> Option<S::Num>
    ensures { Lays S.run calc.old calc.new (option_at S.at result)
        (λ e. widest most_of None (parts_at S.at pieces.entry.pieces.now pieces.entry.marks.now e))
        (λ e. IsHalf (mosts (sizes_at S.at pieces.entry.pieces.now e))) }
{
    let mut rest = pieces;
    let mut best = None;
    while let Some(cut) = cut_first(&rest) {
        let width = most_width(calc, cut.first);
        best = Some(larger(calc, best, width));
        rest = cut.rest;
    }
    best
}
