//! Pieces of texts and of inline boxes on a line (CSS 2.1, 8.6, 10.6.1).
ghost use Rattle.std.specs.Prelude.{◌≡◌, ℤ, ◌-ℤ◌, pos, cond, find, option_map, IsTrue, ◌∷◌, []};
ghost use Rattle.std.specs.Option.{option_map_or};
ghost use Rattle.viz_base.specs.declared.layouts.Entry.TheVariants as of_entry;
ghost use Rattle.viz_calc.specs.Renderings.{quad_at, placed_at};
ghost use Rattle.viz_calc.specs.World.{Reading};
ghost use Rattle.viz_calc.specs.Run.{Goes, Lays};
ghost use Rattle.layout_semantics.specs.Blocks.{node_of, parent_of, plain_box as plain_of};
ghost use Rattle.layout_semantics.specs.Fragments.{is_end_of as ends_box, is_text_of as is_text_at, text_right as right_of, grown as grown_by};
ghost use Rattle.layout_semantics.specs.Lengths.{used as used_length};
ghost use Rattle.lay_line.specs.Contexts.{context_at};
ghost use Rattle.lay_line.specs.Readings.{entry_at, place_at, places_at, set_line_at};
ghost use Rattle.lay_line.specs.steps.Entries.{area_in, text_in, edges_in, around_in, from_in, atomic_in};
ghost use Rattle.lay_line.specs.steps.Words.{inline_raised};
ghost use Rattle.viz_calc.specs.State.{AllSmall};
ghost use Rattle.lay_width.specs.Fitting.{UsedFits};
ghost use Rattle.lay_line.specs.LineFits.{BoxFits, OnLine, PlacesOnLine};
ghost use Rattle.lay_line.specs.Fits.{QuadFits, FontFits, EdgesFit, AroundFits, TextShiftFits};

use crate::containers::Container;
use crate::items::Item;
use crate::places::ItemPlace;
use crate::shifts::{box_extent, inline_shift, shift};
use crate::sizes::band_width;
use lay_length::fonts::{ascent, descent};
use lay_length::lengths::{used, zero};
use lay_tree::boxes::{node, parent};
use lay_tree::styles::{borders, margins, paddings};
use viz_base::{Entry, Kind, Length, Placed, Quad, Sides, Spot};
use viz_calc::Steady;

/// A line with its items in their places, in units of 1/64 px.
#[derive(Drop)]
pub struct SetLine<'p, 'a, N> {
    /// How far down its baseline is.
    pub baseline: N,
    /// The left edge of its content.
    pub left: N,
    /// The right edge of its content.
    pub right: N,
    /// Its items that stay, in order.
    pub places: &'p [ItemPlace<'a, N>],
    /// Where its floats stand, in their order.
    pub spots: &'p [(u32, Spot<N>)],
}

/// Whether an item is the end of an inline box.
fn is_end_of<N>(at: u32, place: &ItemPlace<N>) -> bool
    ensures { (read : N → Reading → ℤ) (e : Reading)
        → result ≡ ends_box at (place_at read place.now e) }
{
    match &place.item {
        Item::Finish(other) => *other == at,
        _ => false,
    }
}

/// Whether an item is of a text box.
pub fn is_text_of<N>(at: u32, place: &ItemPlace<N>) -> bool
    ensures { (read : N → Reading → ℤ) (e : Reading)
        → result ≡ is_text_at at (place_at read place.now e) }
{
    match &place.item {
        Item::Word(other, _) | Item::Space(other) => *other == at,
        _ => false,
    }
}

/// The end of an inline box.
fn find_end<'p, 'a, N>(at: u32, places: &'p [ItemPlace<'a, N>]) -> Option<&'p ItemPlace<'a, N>>
    ensures { (read : N → Reading → ℤ) (e : Reading)
        → option_map (λ p. place_at read p.now e) result
        ≡ find (ends_box at) (places_at read places.now e) }
{
    for place in places {
        if is_end_of(at, place) {
            return Some(place);
        }
    }
    None
}

/// Where the piece of a text ends whose last item so far ends here.
pub fn text_right<'p, N>(at: u32, start: &'p N, after: &'p [ItemPlace<N>]) -> &'p N
    ensures { (read : N → Reading → ℤ) (e : Reading) → read result.now e
        ≡ right_of at (read start.now e) (places_at read after.now e) }
{
    let mut right = start;
    for place in after {
        if !is_text_of(at, place) {
            return right;
        }
        right = &place.right;
    }
    right
}

#[tactic(auto, unfolding(crate::specs::Contexts::context_at, crate::specs::steps::Entries::area_in))]
/// From the ascent to the descent of a node's font.
fn text_area<S: Steady>(
    calc: &mut S,
    container: &Container<'_, S::Num>,
    node: u32,
    baseline: &S::Num,
    left: &S::Num,
    right: &S::Num,
) -> Quad<S::Num>
    ensures { Lays S.run calc.old calc.new (quad_at S.at result)
        (λ e. area_in (context_at S.at container.now e) node (S.at baseline.now e) (S.at left.now e)
        (S.at right.now e))
        (λ e. FontFits container.now.tree.now e.world node
        × QuadFits
        (area_in (context_at S.at container.now e) node (S.at baseline.now e) (S.at left.now e)
        (S.at right.now e))) }
{
    let above = ascent(calc, container.tree, node);
    let below = descent(calc, container.tree, node);
    let left = calc.copy(left);
    let top = calc.sub(baseline, &above);
    let right = calc.copy(right);
    let bottom = calc.add(baseline, &below);
    Quad {
        left,
        top,
        right,
        bottom,
    }
}

/// How far a text box is raised: as the box that it is in.
fn text_shift<S: Steady>(calc: &mut S, container: &Container<'_, S::Num>, at: u32) -> S::Num
    ensures { Lays S.run calc.old calc.new (S.at result)
        (λ e. option_map_or (inline_raised (context_at S.at container.now e))
        (parent_of container.now.tree.now.boxes at) (pos 0))
        (λ e. TextShiftFits (context_at S.at container.now e) at) }
{
    match parent(container.tree, at) {
        Some(parent) => inline_shift(calc, container, parent),
        None => zero(calc),
    }
}

/// A rectangle again.
fn copy_quad<S: Steady>(calc: &mut S, quad: &Quad<S::Num>) -> Quad<S::Num>
    ensures { Lays S.run calc.old calc.new (quad_at S.at result) (quad_at S.at quad.now)
        (λ e. QuadFits (quad_at S.at quad.now e)) }
{
    let left = calc.copy(&quad.left);
    let top = calc.copy(&quad.top);
    let right = calc.copy(&quad.right);
    let bottom = calc.copy(&quad.bottom);
    Quad {
        left,
        top,
        right,
        bottom,
    }
}

/// A box whose four rectangles are the same.
pub fn plain_box<S: Steady>(
    calc: &mut S,
    kind: Kind,
    node: u32,
    content: Quad<S::Num>,
) -> Placed<S::Num>
    ensures { Lays S.run calc.old calc.new (placed_at S.at result)
        (λ e. plain_of kind node (quad_at S.at content e))
        (λ e. QuadFits (quad_at S.at content e)) }
{
    let margin = copy_quad(calc, &content);
    let border = copy_quad(calc, &content);
    let padding = copy_quad(calc, &content);
    Placed {
        kind,
        node,
        margin,
        border,
        padding,
        content,
    }
}

#[tactic(auto, unfolding(crate::specs::Contexts::context_at, crate::specs::steps::Entries::text_in))]
/// A piece of a text, between its edges.
pub fn text_fragment<S: Steady>(
    calc: &mut S,
    container: &Container<'_, S::Num>,
    line: &SetLine<'_, '_, S::Num>,
    at: u32,
    left: &S::Num,
    right: &S::Num,
) -> Entry<S::Num>
    ensures { Lays S.run calc.old calc.new (entry_at S.at result)
        (λ e. text_in (context_at S.at container.now e) (set_line_at S.at line.now e) at
        (S.at left.now e) (S.at right.now e))
        (λ e. BoxFits (context_at S.at container.now e) at
        × OnLine (S.at line.now.baseline e ∷ S.at left.now e ∷ S.at right.now e ∷ [])) }
{
    let up = text_shift(calc, container, at);
    let baseline = calc.sub(&line.baseline, &up);
    let node = node(container.tree, at);
    let area = text_area(calc, container, node, &baseline, left, right);
    Entry::Here(plain_box(calc, Kind::Chars, node, area))
}

/// A rectangle with edges around it.
fn grown<S: Steady>(calc: &mut S, quad: &Quad<S::Num>, edges: &Quad<S::Num>) -> Quad<S::Num>
    ensures { Lays S.run calc.old calc.new (quad_at S.at result)
        (λ e. grown_by (quad_at S.at quad.now e) (quad_at S.at edges.now e))
        (λ e. QuadFits (grown_by (quad_at S.at quad.now e) (quad_at S.at edges.now e))) }
{
    let left = calc.sub(&quad.left, &edges.left);
    let top = calc.sub(&quad.top, &edges.top);
    let right = calc.add(&quad.right, &edges.right);
    let bottom = calc.add(&quad.bottom, &edges.bottom);
    Quad {
        left,
        top,
        right,
        bottom,
    }
}

/// A used length where a box starts or ends, else nothing.
fn edge_if<S: Steady>(
    calc: &mut S,
    container: &Container<'_, S::Num>,
    there: bool,
    length: &Length,
    room: &S::Num,
) -> S::Num
    ensures { Lays S.run calc.old calc.new (S.at result)
        (λ e. cond there (used_length container.now.tree.now e.world length.now (S.at room.now e))
        (pos 0)) (λ e. UsedFits container.now.tree.now e.world length.now (S.at room.now e)
        × AllSmall (pos 0 ∷ [])) }
{
    if there {
        used(calc, container.tree, length, room)
    } else {
        zero(calc)
    }
}

#[tactic(auto, unfolding(crate::specs::Contexts::context_at, crate::specs::steps::Entries::edges_in))]
/// The used edges of a fragment of an inline box: the left ones where it starts, the right ones where it ends.
fn fragment_edges<S: Steady>(
    calc: &mut S,
    container: &Container<'_, S::Num>,
    starts: bool,
    ends: bool,
    sides: &Sides<Length>,
) -> Quad<S::Num>
    ensures { Lays S.run calc.old calc.new (quad_at S.at result)
        (λ e. edges_in (context_at S.at container.now e) starts ends sides.now)
        (λ e. EdgesFit (context_at S.at container.now e) sides.now) }
{
    let room = band_width(calc, container.cb);
    let left = edge_if(calc, container, starts, &sides.left, &room);
    let top = used(calc, container.tree, &sides.top, &room);
    let right = edge_if(calc, container, ends, &sides.right, &room);
    let bottom = used(calc, container.tree, &sides.bottom, &room);
    Quad {
        left,
        top,
        right,
        bottom,
    }
}

/// A rectangle with the used edges of a fragment of an inline box around it.
fn ring<S: Steady>(
    calc: &mut S,
    container: &Container<'_, S::Num>,
    starts: bool,
    ends: bool,
    sides: &Sides<Length>,
    quad: &Quad<S::Num>,
) -> Quad<S::Num>
    ensures { Lays S.run calc.old calc.new (quad_at S.at result)
        (λ e. grown_by (quad_at S.at quad.now e)
        (edges_in (context_at S.at container.now e) starts ends sides.now))
        (λ e. EdgesFit (context_at S.at container.now e) sides.now
        × QuadFits (grown_by (quad_at S.at quad.now e)
        (edges_in (context_at S.at container.now e) starts ends sides.now))) }
{
    let edges = fragment_edges(calc, container, starts, ends, sides);
    grown(calc, quad, &edges)
}

#[tactic(auto, unfolding(crate::specs::Contexts::context_at, crate::specs::steps::Entries::around_in))]
/// The four rectangles around a fragment's content.
fn around<S: Steady>(
    calc: &mut S,
    container: &Container<'_, S::Num>,
    at: u32,
    starts: bool,
    ends: bool,
    content: Quad<S::Num>,
) -> Placed<S::Num>
    ensures { Lays S.run calc.old calc.new (placed_at S.at result)
        (λ e. around_in (context_at S.at container.now e) at starts ends (quad_at S.at content e))
        (λ e. AroundFits (context_at S.at container.now e) at
        (around_in (context_at S.at container.now e) at starts ends (quad_at S.at content e))) }
{
    let node = node(container.tree, at);
    let padding = ring(
        calc,
        container,
        starts,
        ends,
        &paddings(container.tree, at),
        &content,
    );
    let border = ring(
        calc,
        container,
        starts,
        ends,
        &borders(container.tree, at),
        &padding,
    );
    let margin = ring(
        calc,
        container,
        starts,
        ends,
        &margins(container.tree, at),
        &border,
    );
    Placed {
        kind: Kind::Inline,
        node,
        margin,
        border,
        padding,
        content,
    }
}

/// What a fragment of an inline box goes over.
#[derive(Drop)]
pub struct Span<'l, 'p, 'a, N> {
    /// Whether the box starts on the line.
    pub starts: bool,
    /// Its left edge, in units of 1/64 px.
    pub left: &'l N,
    /// What follows.
    pub after: &'p [ItemPlace<'a, N>],
}

#[tactic(auto, unfolding(crate::specs::Contexts::context_at))]
/// The fragment of an inline box from its left edge up to this right one, where it ends or not.
fn fragment_to<S: Steady>(
    calc: &mut S,
    container: &Container<'_, S::Num>,
    line: &SetLine<'_, '_, S::Num>,
    at: u32,
    span: &Span<'_, '_, '_, S::Num>,
    ends: bool,
    right: &S::Num,
) -> Entry<S::Num>
    ensures { Lays S.run calc.old calc.new (entry_at S.at result)
        (λ e. of_entry.Here
        (around_in (context_at S.at container.now e) at span.now.starts ends
        (area_in (context_at S.at container.now e) (node_of container.now.tree.now at)
        (S.at line.now.baseline e -ℤ inline_raised (context_at S.at container.now e) at)
        (S.at span.now.left.now e) (S.at right.now e))))
        (λ e. BoxFits (context_at S.at container.now e) at
        × OnLine (S.at line.now.baseline e ∷ S.at span.now.left.now e ∷ S.at right.now e ∷ [])) }
{
    let up = inline_shift(calc, container, at);
    let baseline = calc.sub(&line.baseline, &up);
    let node = node(container.tree, at);
    let area = text_area(calc, container, node, &baseline, span.left, right);
    Entry::Here(around(calc, container, at, span.starts, ends, area))
}

#[tactic(auto, unfolding(crate::specs::Contexts::context_at, crate::specs::steps::Entries::from_in))]
/// The fragment of an inline box: from its left edge up to its end in what follows, where that is on the line, else
/// to the right of the line's content.
pub fn inline_fragment<S: Steady>(
    calc: &mut S,
    container: &Container<'_, S::Num>,
    line: &SetLine<'_, '_, S::Num>,
    at: u32,
    span: &Span<'_, '_, '_, S::Num>,
) -> Entry<S::Num>
    ensures { Lays S.run calc.old calc.new (entry_at S.at result)
        (λ e. from_in (context_at S.at container.now e)
        (set_line_at S.at line.now e) at span.now.starts (S.at span.now.left.now e)
        (places_at S.at span.now.after.now e))
        (λ e. BoxFits (context_at S.at container.now e) at
        × (OnLine (S.at line.now.baseline e ∷ S.at span.now.left.now e ∷ S.at line.now.right e ∷ [])
        × PlacesOnLine (places_at S.at span.now.after.now e))) }
{
    match find_end(at, span.after) {
        Some(last) => fragment_to(calc, container, line, at, span, true, &last.left),
        None => fragment_to(calc, container, line, at, span, false, &line.right),
    }
}

#[tactic(auto, unfolding(crate::specs::steps::Entries::atomic_in))]
/// An atomic box stands with its own baseline raised over the line's.
pub fn atomic_entry<S: Steady>(
    calc: &mut S,
    container: &Container<'_, S::Num>,
    line: &SetLine<'_, '_, S::Num>,
    at: u32,
    left: &S::Num,
) -> Entry<S::Num>
    ensures { Lays S.run calc.old calc.new (entry_at S.at result)
        (λ e. atomic_in (context_at S.at container.now e) (set_line_at S.at line.now e) at
        (S.at left.now e)) (λ e. BoxFits (context_at S.at container.now e) at
        × OnLine (S.at line.now.baseline e ∷ S.at left.now e ∷ [])) }
{
    let extent = box_extent(calc, container, at);
    let up = shift(calc, container, at, &extent);
    let baseline = calc.sub(&line.baseline, &up);
    let x = calc.copy(left);
    let y = calc.sub(&baseline, &extent.above);
    Entry::Goes(at, Spot { x, y })
}
