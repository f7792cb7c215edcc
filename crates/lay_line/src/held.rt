//! What a line holds of its content, item by item.
ghost use Rattle.std.specs.Prelude.{◌≡◌, IsTrue, pos, ◌∷◌, []};
ghost use Rattle.viz_calc.specs.State.{AllSmall};
ghost use Rattle.viz_calc.specs.Run.{Lays};
ghost use Rattle.lay_line.specs.Items.{item_of};
ghost use Rattle.lay_line.specs.Readings.{held_at, pieces_at};
ghost use Rattle.lay_line.specs.steps.Held.{nothing_held, with_solid as solid_on, with_space as space_on, with_other as other_on, with_item as item_on};
ghost use Rattle.lay_line.specs.Ways.{solid_way, space_way, other_way, item_way};
ghost use Rattle.lay_line.specs.steps.Measured.{held_with};
ghost use Rattle.lay_line.specs.Limits.{ClampFits};

use crate::items::Item;
use viz_calc::Steady;

/// An item with the width that it takes, in units of 1/64 px.
#[derive(Drop)]
pub struct Piece<'a, N> {
    pub item: Item<'a>,
    pub width: N,
}

/// What a line holds so far, in units of 1/64 px.
#[derive(Drop)]
pub struct Held<N> {
    /// Its width without the spaces at its ends.
    pub width: N,
    /// The width of the spaces since the last word or atomic box.
    pub spaces: N,
    /// Whether there was one.
    pub begun: bool,
}

/// What a line holds before its first item.
pub fn nothing<S: Steady>(calc: &mut S) -> Held<S::Num>
    ensures { Lays S.run calc.old calc.new (held_at S.at result) (λ e. nothing_held)
        (λ e. AllSmall (pos 0 ∷ [])) }
{
    let width = calc.lit(0);
    let spaces = calc.lit(0);
    Held {
        width,
        spaces,
        begun: false,
    }
}

/// With a word or an atomic box more.
fn with_solid<S: Steady>(calc: &mut S, held: Held<S::Num>, width: &S::Num) -> Held<S::Num>
    ensures { Lays S.run calc.old calc.new (held_at S.at result)
        (λ e. solid_on (S.at width.now e) (held_at S.at held e))
        (λ e. AllSmall (solid_way (S.at width.now e) (held_at S.at held e))) }
{
    let before = calc.add(&held.width, &held.spaces);
    let width = calc.add(&before, width);
    let spaces = calc.lit(0);
    Held {
        width,
        spaces,
        begun: true,
    }
}

/// With a space more.
fn with_space<S: Steady>(calc: &mut S, held: Held<S::Num>, width: &S::Num) -> Held<S::Num>
    ensures { Lays S.run calc.old calc.new (held_at S.at result)
        (λ e. space_on (S.at width.now e) (held_at S.at held e))
        (λ e. AllSmall (space_way (S.at width.now e) (held_at S.at held e))) }
{
    let spaces = if held.begun {
        calc.add(&held.spaces, width)
    } else {
        calc.lit(0)
    };
    Held {
        width: held.width,
        spaces,
        begun: held.begun,
    }
}

/// With the start or the end of an inline box more, or with what has no width.
fn with_other<S: Steady>(calc: &mut S, held: Held<S::Num>, width: &S::Num) -> Held<S::Num>
    ensures { Lays S.run calc.old calc.new (held_at S.at result)
        (λ e. other_on (S.at width.now e) (held_at S.at held e))
        (λ e. AllSmall (other_way (S.at width.now e) (held_at S.at held e))) }
{
    let width = calc.add(&held.width, width);
    Held {
        width,
        spaces: held.spaces,
        begun: held.begun,
    }
}

/// What a line holds with an item more, which takes so much.
pub fn with_item<S: Steady>(
    calc: &mut S,
    held: Held<S::Num>,
    item: &Item,
    width: &S::Num,
) -> Held<S::Num>
    ensures { Lays S.run calc.old calc.new (held_at S.at result)
        (λ e. item_on (λ i. S.at width.now e) (held_at S.at held e) (item_of item.now))
        (λ e. AllSmall (item_way (S.at width.now e) (held_at S.at held e) (item_of item.now))) }
{
    match item {
        Item::Word(..) | Item::Atomic(_) => with_solid(calc, held, width),
        Item::Space(_) => with_space(calc, held, width),
        _ => with_other(calc, held, width),
    }
}

/// What a line holds with some items more.
pub fn with_pieces<S: Steady>(
    calc: &mut S,
    start: Held<S::Num>,
    pieces: &[Piece<S::Num>],
) -> Held<S::Num>
    ensures { Lays S.run calc.old calc.new (held_at S.at result)
        (λ e. held_with (held_at S.at start e) (pieces_at S.at pieces.now e))
        (λ e. ClampFits (held_at S.at start e) (pieces_at S.at pieces.now e)) }
{
    let mut held = start;
    for piece in pieces {
        held = with_item(calc, held, &piece.item, &piece.width);
    }
    held
}
