//! The preferred widths of boxes, down their tree (CSS 2.1, 10.3.5).
ghost use Rattle.std.specs.Prelude.{◌≡◌, ◌<◌, length};
ghost use Rattle.viz_calc.specs.State.{WhereOpen};
ghost use Rattle.std.specs.List.{AllByRecursion};
ghost use Rattle.viz_calc.specs.Run.{Goes, BlamesButMem};
ghost use Rattle.layout_semantics.specs.Preferred.{inside_of, inline_content, blocks, preferred as preferred_of};
ghost use Rattle.lay_width.specs.Readings.{preferred_at};
ghost use Rattle.lay_line.specs.Items.{item_of, items_of, summed, summed_of};
ghost use Rattle.lay_preferred.specs.Fitting.{BoxesFit, ItemFits};
ghost use Rattle.lay_preferred.specs.Readings.{sizes_at, AreFound};
ghost use Rattle.lay_line.specs.steps.Content.{IsSum};
ghost use Rattle.lay_preferred.specs.steps.Outer.{outer as outer_of};
ghost use Rattle.lay_preferred.specs.steps.Parts.{sized, widths_of, inline_in, blocks_in, IsInside};

use crate::columns::{no_children, whole, with_child};
use crate::found::{Found, copy_of, found_of, keep};
use crate::inlines::{Sort, add_piece, both, inline_widths, item_width, sort_of};
use crate::outer::{around, given, is_given, replaced};
use lay_length::lengths::zero;
use lay_line::content::content;
use lay_line::held::Piece;
use lay_line::items::Item;
use lay_tree::boxes::{children, is_floated};
use viz_base::{BoxTree, Preferred};
use viz_calc::Steady;

#[cycle(preferred)]
/// The outer widths of a box.
fn outer<S: Steady>(
    calc: &mut S,
    tree: &BoxTree,
    at: u32,
    found: &mut Found<S::Num>,
) -> Preferred<S::Num>
    requires within { at < length tree.now.boxes }
    requires found { AreFound S.at (S.run calc.old) tree.now found.old.widths.items }
    ensures goes { Goes (S.run calc.old) (S.run calc.new) }
    ensures found { AreFound S.at (S.run calc.new) tree.now found.new.widths.items }
    ensures value { WhereOpen (S.run calc.new).is_open
        (λ e. preferred_at S.at result e ≡ outer_of tree.now e.world at) }
    ensures cause { BlamesButMem (S.run calc.old) (S.run calc.new)
        (BoxesFit tree.now (S.run calc.old).is_open) }
{
    // An absolute width is its own preferred width: what is in the box is not measured.
    if is_given(tree, at) {
        return given(calc, tree, at);
    }
    let inside = preferred(calc, tree, at, found);
    around(calc, tree, at, inside)
}

#[cycle(preferred)]
/// What an item of a box's content takes.
fn item_widths<S: Steady>(
    calc: &mut S,
    tree: &BoxTree,
    b: u32,
    item: &Item,
    found: &mut Found<S::Num>,
) -> Preferred<S::Num>
    requires kept { IsSum tree.now (summed item.now) }
    requires inside { IsInside tree.now b (item_of item.now) }
    requires found { AreFound S.at (S.run calc.old) tree.now found.old.widths.items }
    ensures goes { Goes (S.run calc.old) (S.run calc.new) }
    ensures found { AreFound S.at (S.run calc.new) tree.now found.new.widths.items }
    ensures value { WhereOpen (S.run calc.new).is_open
        (λ e. preferred_at S.at result e ≡ widths_of tree.now e.world (item_of item.now)) }
    ensures cause { BlamesButMem (S.run calc.old) (S.run calc.new)
        (BoxesFit tree.now (S.run calc.old).is_open
        × (WhereOpen (S.run calc.old).is_open
        (λ e. ItemFits tree.now e.world (item_of item.now)))) }
{
    match item {
        Item::Atomic(at) | Item::Float(at) => outer(calc, tree, *at, found),
        _ => {
            let width = item_width(calc, tree, item);
            both(calc, width)
        }
    }
}

#[cycle(preferred)]
/// Items of a box's content with what each takes.
fn measure<'a, S: Steady>(
    calc: &mut S,
    tree: &BoxTree,
    b: u32,
    items: &[Item<'a>],
    found: &mut Found<S::Num>,
) -> Vec<Piece<'a, Preferred<S::Num>>>
    requires kept { AllByRecursion (IsSum tree.now) (summed_of items.now) }
    requires inside { AllByRecursion (IsInside tree.now b) (items_of items.now) }
    requires found { AreFound S.at (S.run calc.old) tree.now found.old.widths.items }
    ensures goes { Goes (S.run calc.old) (S.run calc.new) }
    ensures found { AreFound S.at (S.run calc.new) tree.now found.new.widths.items }
    ensures value { WhereOpen (S.run calc.new).is_open
        (λ e. sizes_at S.at result.items e
        ≡ sized (widths_of tree.now e.world) (items_of items.now)) }
    ensures cause { BlamesButMem (S.run calc.old) (S.run calc.new)
        (BoxesFit tree.now (S.run calc.old).is_open
        × (WhereOpen (S.run calc.old).is_open
        (λ e. AllByRecursion (ItemFits tree.now e.world) (items_of items.now)))) }
{
    let mut pieces = Vec::new(tree.boxes.allocator());
    for item in items {
        let width = item_widths(calc, tree, b, item, found);
        add_piece(calc, &mut pieces, Piece { item: *item, width });
    }
    pieces
}

#[cycle(preferred)]
/// The preferred widths of a box that holds inline content.
fn of_inline<S: Steady>(
    calc: &mut S,
    tree: &BoxTree,
    b: u32,
    found: &mut Found<S::Num>,
) -> Preferred<S::Num>
    requires within { b < length tree.now.boxes }
    requires found { AreFound S.at (S.run calc.old) tree.now found.old.widths.items }
    ensures goes { Goes (S.run calc.old) (S.run calc.new) }
    ensures found { AreFound S.at (S.run calc.new) tree.now found.new.widths.items }
    ensures value { WhereOpen (S.run calc.new).is_open
        (λ e. preferred_at S.at result e ≡ inline_in tree.now e.world b) }
    ensures cause { BlamesButMem (S.run calc.old) (S.run calc.new)
        (BoxesFit tree.now (S.run calc.old).is_open × (inside_of tree.now b ≡ inline_content)) }
{
    match content(tree, b) {
        Ok(items) => {
            let pieces = measure(calc, tree, b, items.as_slice(), found);
            inline_widths(calc, tree, items.as_slice(), pieces.as_slice())
        }
        Err(_) => {
            calc.stop();
            let none = zero(calc);
            both(calc, none)
        }
    }
}

#[cycle(preferred)]
/// The preferred widths of a box that holds blocks.
fn of_blocks<S: Steady>(
    calc: &mut S,
    tree: &BoxTree,
    b: u32,
    found: &mut Found<S::Num>,
) -> Preferred<S::Num>
    requires within { b < length tree.now.boxes }
    requires found { AreFound S.at (S.run calc.old) tree.now found.old.widths.items }
    ensures goes { Goes (S.run calc.old) (S.run calc.new) }
    ensures found { AreFound S.at (S.run calc.new) tree.now found.new.widths.items }
    ensures value { WhereOpen (S.run calc.new).is_open
        (λ e. preferred_at S.at result e ≡ blocks_in tree.now e.world b) }
    ensures cause { BlamesButMem (S.run calc.old) (S.run calc.new)
        (BoxesFit tree.now (S.run calc.old).is_open × (inside_of tree.now b ≡ blocks)) }
{
    let mut column = no_children();
    for kid in children(tree, b) {
        let child = outer(calc, tree, *kid, found);
        column = with_child(calc, column, is_floated(tree, *kid), child);
    }
    whole(calc, column)
}

#[cycle(preferred)]
/// The preferred widths of a box of which none were found.
fn computed<S: Steady>(
    calc: &mut S,
    tree: &BoxTree,
    b: u32,
    found: &mut Found<S::Num>,
) -> Preferred<S::Num>
    requires within { b < length tree.now.boxes }
    requires found { AreFound S.at (S.run calc.old) tree.now found.old.widths.items }
    ensures goes { Goes (S.run calc.old) (S.run calc.new) }
    ensures found { AreFound S.at (S.run calc.new) tree.now found.new.widths.items }
    ensures value { WhereOpen (S.run calc.new).is_open
        (λ e. preferred_at S.at result e ≡ preferred_of tree.now e.world b) }
    ensures cause { BlamesButMem (S.run calc.old) (S.run calc.new)
        (BoxesFit tree.now (S.run calc.old).is_open) }
{
    match sort_of(tree, b) {
        Sort::Replaced => replaced(calc, tree, b),
        Sort::Inline => of_inline(calc, tree, b, found),
        Sort::Blocks => of_blocks(calc, tree, b, found),
    }
}

#[cycle(preferred)]
/// The preferred widths of what is in a box, and of each box in it that they rest on, kept where they are found.
pub fn preferred<S: Steady>(
    calc: &mut S,
    tree: &BoxTree,
    b: u32,
    found: &mut Found<S::Num>,
) -> Preferred<S::Num>
    requires within { b < length tree.now.boxes }
    requires found { AreFound S.at (S.run calc.old) tree.now found.old.widths.items }
    ensures goes { Goes (S.run calc.old) (S.run calc.new) }
    ensures found { AreFound S.at (S.run calc.new) tree.now found.new.widths.items }
    ensures value { WhereOpen (S.run calc.new).is_open
        (λ e. preferred_at S.at result e ≡ preferred_of tree.now e.world b) }
    ensures cause { BlamesButMem (S.run calc.old) (S.run calc.new)
        (BoxesFit tree.now (S.run calc.old).is_open) }
{
    match found_of(found, b) {
        Some(widths) => copy_of(calc, widths),
        None => {
            let widths = computed(calc, tree, b, found);
            let same = copy_of(calc, &widths);
            keep(found, b, same);
            widths
        }
    }
}
