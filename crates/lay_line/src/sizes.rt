//! What items take of a line (CSS 2.1, 9.4.2).
ghost use Rattle.std.specs.Prelude.{◌≡◌, ◌++◌, ◌∷◌, [], IsTrue, ⊤};
ghost use Rattle.std.specs.List.{AllByRecursion};
ghost use Rattle.viz_calc.specs.State.{AllSmall};
ghost use Rattle.viz_calc.specs.Run.{Fits, Lays, LaysButMem};
ghost use Rattle.viz_calc.specs.Renderings.{band_at};
ghost use Rattle.layout_semantics.specs.Blocks.{node_of};
ghost use Rattle.layout_semantics.specs.Fonts.{text_width as text_width_of};
ghost use Rattle.layout_semantics.specs.InlineContent.{start, finish, atomic};
ghost use Rattle.layout_semantics.specs.LineFilling.{band_width as width_of, used_edges};
ghost use Rattle.lay_line.specs.Contexts.{context_at};
ghost use Rattle.lay_line.specs.Items.{item_of, items_of, summed, summed_of};
ghost use Rattle.lay_line.specs.Readings.{piece_at, pieces_at};
ghost use Rattle.lay_line.specs.steps.Content.{IsSum};
ghost use Rattle.lay_line.specs.steps.Measured.{measured};
ghost use Rattle.lay_line.specs.steps.Words.{width_in};
ghost use Rattle.lay_length.specs.Ways.{part_way};
ghost use Rattle.lay_line.specs.Fits.{SideFits, WidthFits};

use crate::containers::{Container, inner_of};
use crate::held::Piece;
use crate::items::Item;
use lay_length::fonts::{text_width, word_width};
use lay_length::lengths::{used, zero};
use lay_tree::boxes::node;
use lay_tree::styles::{borders, margins, paddings};
use viz_base::{Band, BoxTree, Length};
use viz_calc::Steady;

/// The width of a band, from edge to edge.
pub fn band_width<S: Steady>(calc: &mut S, band: &Band<S::Num>) -> S::Num
    ensures { Lays S.run calc.old calc.new (S.at result) (λ e. width_of (band_at S.at band.now e))
        (λ e. AllSmall (width_of (band_at S.at band.now e) ∷ [])) }
{
    calc.sub(&band.right, &band.left)
}

#[tactic(auto, unfolding(crate::specs::Contexts::context_at))]
/// The used margin, border and padding at a side of an inline box.
fn edges_width<S: Steady>(
    calc: &mut S,
    container: &Container<'_, S::Num>,
    margin: &Length,
    border: &Length,
    padding: &Length,
) -> S::Num
    ensures { Lays S.run calc.old calc.new (S.at result)
        (λ e. used_edges (context_at S.at container.now e)
        (margin.now ∷ border.now ∷ padding.now ∷ []))
        (λ e. SideFits container.now.tree.now e.world
        (width_of (band_at S.at container.now.cb.now e)) margin.now border.now padding.now) }
{
    let room = band_width(calc, container.cb);
    let none = zero(calc);
    let padding = used(calc, container.tree, padding, &room);
    let border = used(calc, container.tree, border, &room);
    let margin = used(calc, container.tree, margin, &room);
    let inner = calc.add(&padding, &none);
    let both = calc.add(&border, &inner);
    calc.add(&margin, &both)
}

#[tactic(auto, unfolding(crate::specs::Contexts::context_at, crate::specs::steps::Words::width_in, crate::specs::Fits::WidthFits))]
/// What the start of an inline box takes.
fn start_width<S: Steady>(calc: &mut S, container: &Container<'_, S::Num>, at: u32) -> S::Num
    ensures { Lays S.run calc.old calc.new (S.at result)
        (λ e. width_in (context_at S.at container.now e) (start at))
        (λ e. WidthFits (context_at S.at container.now e) (start at)) }
{
    let margin = margins(container.tree, at);
    let border = borders(container.tree, at);
    let padding = paddings(container.tree, at);
    edges_width(calc, container, &margin.left, &border.left, &padding.left)
}

#[tactic(auto, unfolding(crate::specs::Contexts::context_at, crate::specs::steps::Words::width_in, crate::specs::Fits::WidthFits))]
/// What its end takes.
fn end_width<S: Steady>(calc: &mut S, container: &Container<'_, S::Num>, at: u32) -> S::Num
    ensures { Lays S.run calc.old calc.new (S.at result)
        (λ e. width_in (context_at S.at container.now e) (finish at))
        (λ e. WidthFits (context_at S.at container.now e) (finish at)) }
{
    let margin = margins(container.tree, at);
    let border = borders(container.tree, at);
    let padding = paddings(container.tree, at);
    edges_width(
        calc,
        container,
        &margin.right,
        &border.right,
        &padding.right,
    )
}

/// What an atomic box takes.
fn atomic_width<S: Steady>(calc: &mut S, container: &Container<'_, S::Num>, at: u32) -> S::Num
    ensures { Lays S.run calc.old calc.new (S.at result)
        (λ e. width_in (context_at S.at container.now e) (atomic at))
        (λ e. WidthFits (context_at S.at container.now e) (atomic at)) }
{
    match inner_of(container, at) {
        Some(inner) => calc.copy(&inner.width),
        None => zero(calc),
    }
}

/// What a space of a box takes.
fn space_width<S: Steady>(calc: &mut S, tree: &BoxTree, at: u32) -> S::Num
    ensures { Lays S.run calc.old calc.new (S.at result)
        (λ e. text_width_of tree.now e.world (node_of tree.now at) (32 ∷ []))
        (λ e. AllSmall
        (part_way tree.now e.world (node_of tree.now at)
        (text_width_of tree.now e.world (node_of tree.now at) (32 ∷ [])))) }
{
    text_width(calc, tree, node(tree, at), " ")
}

#[tactic(auto, unfolding(crate::specs::Contexts::context_at, crate::specs::steps::Words::width_in, crate::specs::Fits::WidthFits))]
/// What an item takes of a line.
fn item_width<S: Steady>(calc: &mut S, container: &Container<'_, S::Num>, item: &Item) -> S::Num
    requires { IsSum container.now.tree.now (summed item.now) }
    ensures { Lays S.run calc.old calc.new (S.at result)
        (λ e. width_in (context_at S.at container.now e) (item_of item.now))
        (λ e. WidthFits (context_at S.at container.now e) (item_of item.now)) }
{
    match item {
        Item::Word(at, word) => word_width(calc, container.tree, node(container.tree, *at), word),
        Item::Space(at) => space_width(calc, container.tree, *at),
        Item::Atomic(at) => atomic_width(calc, container, *at),
        Item::Start(at) => start_width(calc, container, *at),
        Item::Finish(at) => end_width(calc, container, *at),
        Item::Forced(_) | Item::Float(_) => zero(calc),
    }
}

/// A piece more at the end.
fn add_piece<'a, S: Steady>(
    calc: &mut S,
    pieces: &mut Vec<Piece<'a, S::Num>>,
    piece: Piece<'a, S::Num>,
)
    ensures { LaysButMem S.run calc.old calc.new (pieces_at S.at pieces.new.items)
        (λ e. pieces_at S.at pieces.old.items e ++ piece_at S.at piece.entry e ∷ []) (λ e. ⊤) }
{
    if pieces.push(piece).is_err() {
        calc.stop();
    }
}

/// Items with what each takes.
pub fn measure<'a, S: Steady>(
    calc: &mut S,
    container: &Container<'_, S::Num>,
    items: &[Item<'a>],
) -> Vec<Piece<'a, S::Num>>
    requires { AllByRecursion (IsSum container.now.tree.now) (summed_of items.now) }
    ensures { LaysButMem S.run calc.old calc.new (pieces_at S.at result.items)
        (λ e. measured (width_in (context_at S.at container.now e)) (items_of items.now))
        (λ e. AllByRecursion (WidthFits (context_at S.at container.now e)) (items_of items.now)) }
{
    let mut pieces = Vec::new(container.tree.boxes.allocator());
    for item in items {
        let width = item_width(calc, container, item);
        add_piece(calc, &mut pieces, Piece { item: *item, width });
    }
    pieces
}
