//! Where the items of a line stand (CSS 2.1, 9.4.2, 16.6.1).
ghost use Rattle.std.specs.Prelude.{◌≡◌, ◌+ℤ◌, ◌||◌, ◌++◌, ◌∷◌, [], IsTrue, ⊤};
ghost use Rattle.viz_calc.specs.State.{AllSmall};
ghost use Rattle.viz_calc.specs.Run.{Lays, LaysButMem};
ghost use Rattle.lay_line.specs.Items.{item_of};
ghost use Rattle.lay_line.specs.Readings.{piece_at, pieces_at, place_at, places_at, row_at};
ghost use Rattle.lay_line.specs.steps.Measured.{placed_at, row_with as row_by, row_after as row_next, rows, first_row};
ghost use Rattle.lay_line.specs.steps.Staying.{is_solid as is_solid_of, stays as stays_of, fewer as fewer_by_one, is_some_left as is_left};
ghost use Rattle.lay_line.specs.Limits.{StandFits};

use crate::held::Piece;
use crate::items::{Item, is_solid};
use std::alloc::Global;
use viz_calc::Steady;

/// An item between its left and its right edge, in units of 1/64 px.
#[derive(Drop)]
pub struct ItemPlace<'a, N> {
    pub item: Item<'a>,
    pub left: N,
    pub right: N,
}

/// Whether an item stays, by whether a word or an atomic box stands before it, and after it.
fn stays(begun: bool, more: bool, item: &Item) -> bool
    ensures { result ≡ stays_of begun more (item_of item.now) }
{
    match item {
        Item::Space(_) => begun && more,
        _ => true,
    }
}

/// One less, or 0.
fn fewer(left: usize) -> usize
    ensures { result ≡ fewer_by_one left }
{
    left.saturating_sub(1)
}

/// Whether any item is left.
fn is_some_left(left: usize) -> bool
    ensures { result ≡ is_left left }
{
    left > 0
}

/// An item from x on.
fn placed<'a, S: Steady>(
    calc: &mut S,
    x: &S::Num,
    piece: &Piece<'a, S::Num>,
) -> ItemPlace<'a, S::Num>
    ensures { Lays S.run calc.old calc.new (place_at S.at result)
        (λ e. placed_at (S.at x.now e) (piece_at S.at piece.now e))
        (λ e. AllSmall (S.at x.now e ∷ (S.at x.now e +ℤ S.at piece.now.width e) ∷ [])) }
{
    let left = calc.copy(x);
    let right = calc.add(x, &piece.width);
    ItemPlace {
        item: piece.item,
        left,
        right,
    }
}

/// A place more at the end.
fn keep<'a, S: Steady>(
    calc: &mut S,
    places: &mut Vec<ItemPlace<'a, S::Num>>,
    place: ItemPlace<'a, S::Num>,
)
    ensures { LaysButMem S.run calc.old calc.new (places_at S.at places.new.items)
        (λ e. places_at S.at places.old.items e ++ place_at S.at place.entry e ∷ []) (λ e. ⊤) }
{
    if places.push(place).is_err() {
        calc.stop();
    }
}

/// The items of a line so far.
#[derive(Drop)]
pub struct Row<'a, N> {
    /// Where the next item stands, in units of 1/64 px.
    pub x: N,
    /// Whether there was a word or an atomic box.
    pub begun: bool,
    /// How many items are left up to the last word or atomic box.
    pub left: usize,
    /// The places of those that stay.
    pub places: Vec<ItemPlace<'a, N>>,
}

/// Whether there was a word or an atomic box, after an item more.
fn begun_after(begun: bool, item: &Item) -> bool
    ensures { result ≡ (begun || is_solid_of (item_of item.now)) }
{
    begun || is_solid(item)
}

/// With an item more that stays.
fn row_with<'a, S: Steady>(
    calc: &mut S,
    row: Row<'a, S::Num>,
    piece: &Piece<'a, S::Num>,
) -> Row<'a, S::Num>
    ensures { LaysButMem S.run calc.old calc.new (row_at S.at result)
        (λ e. row_by (row_at S.at row.entry e) (piece_at S.at piece.now e))
        (λ e. AllSmall (S.at row.entry.x e ∷ (S.at row.entry.x e +ℤ S.at piece.now.width e) ∷ [])) }
{
    let place = placed(calc, &row.x, piece);
    let right = calc.copy(&place.right);
    let mut places = row.places;
    keep(calc, &mut places, place);
    Row {
        x: right,
        begun: begun_after(row.begun, &piece.item),
        left: row.left,
        places,
    }
}

/// With an item more, which stays or goes.
fn row_after<'a, S: Steady>(
    calc: &mut S,
    row: Row<'a, S::Num>,
    piece: &Piece<'a, S::Num>,
) -> Row<'a, S::Num>
    ensures { LaysButMem S.run calc.old calc.new (row_at S.at result)
        (λ e. row_next (row_at S.at row.entry e) (piece_at S.at piece.now e))
        (λ e. AllSmall (S.at row.entry.x e ∷ (S.at row.entry.x e +ℤ S.at piece.now.width e) ∷ [])) }
{
    let left = fewer(row.left);
    let more = is_some_left(left);
    let row = Row { left, ..row };
    if stays(row.begun, more, &piece.item) {
        row_with(calc, row, piece)
    } else {
        row
    }
}

/// With some items more.
fn row_of<'a, S: Steady>(
    calc: &mut S,
    start: Row<'a, S::Num>,
    pieces: &[Piece<'a, S::Num>],
) -> Row<'a, S::Num>
    ensures { LaysButMem S.run calc.old calc.new (row_at S.at result)
        (λ e. rows (row_at S.at start.entry e) (pieces_at S.at pieces.now e))
        (λ e. StandFits (S.at start.entry.x e) (pieces_at S.at pieces.now e)) }
{
    let mut row = start;
    for piece in pieces {
        row = row_after(calc, row, piece);
    }
    row
}

/// The places of the items that stay, from x on; so many items there are up to the last word or atomic box.
pub fn stand<'a, S: Steady>(
    alloc: Global,
    calc: &mut S,
    x: S::Num,
    left: usize,
    pieces: &[Piece<'a, S::Num>],
) -> Vec<ItemPlace<'a, S::Num>>
    ensures { LaysButMem S.run calc.old calc.new (places_at S.at result.items)
        (λ e. (rows (first_row (S.at x e) left) (pieces_at S.at pieces.now e)).places)
        (λ e. StandFits (S.at x e) (pieces_at S.at pieces.now e)) }
{
    let start = Row {
        x,
        begun: false,
        left,
        places: Vec::new(alloc),
    };
    let row = row_of(calc, start, pieces);
    row.places
}
