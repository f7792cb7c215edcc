//! Boxes at their places, with their four rectangles (CSS 2.1, 8.1).
ghost use Rattle.std.specs.Prelude.{◌≡◌};
ghost use Rattle.viz_calc.specs.State.{AllSmall};
ghost use Rattle.viz_calc.specs.Run.{Lays};
ghost use Rattle.viz_calc.specs.Renderings.{quad_at, placed_at};
ghost use Rattle.layout_semantics.specs.Rectangles.{placed_box, border_width as width_of, border_height as height_of};
ghost use Rattle.layout_semantics.specs.Rectangles.{inset as inset_by, outset as outset_by, around as around_box};
ghost use Rattle.lay_width.specs.Readings.{widths_at};
ghost use Rattle.lay_frame.specs.Fitting.{quad_way, width_way, tall_way, border_of, AroundFits, BorderFits, PlaceFits};
ghost use Rattle.lay_frame.specs.Readings.{verticals_at, frame_at};

use crate::frames::{Edges, Shape};
use lay_tree::boxes::{kind, node};
use viz_base::{BoxTree, Kind, Placed, Quad, Widths};
use viz_calc::Steady;

/// A rectangle without a strip along its edges.
fn inset<S: Steady>(calc: &mut S, q: &Quad<S::Num>, by: &Quad<S::Num>) -> Quad<S::Num>
    ensures { Lays S.run calc.old calc.new (quad_at S.at result)
        (λ e. inset_by (quad_at S.at q.now e) (S.at by.now.left e) (S.at by.now.top e)
        (S.at by.now.right e) (S.at by.now.bottom e))
        (λ e. AllSmall (quad_way (inset_by (quad_at S.at q.now e) (S.at by.now.left e)
        (S.at by.now.top e) (S.at by.now.right e) (S.at by.now.bottom e)))) }
{
    let left = calc.add(&q.left, &by.left);
    let top = calc.add(&q.top, &by.top);
    let right = calc.sub(&q.right, &by.right);
    let bottom = calc.sub(&q.bottom, &by.bottom);
    Quad {
        left,
        top,
        right,
        bottom,
    }
}

/// With one around it.
fn outset<S: Steady>(calc: &mut S, q: &Quad<S::Num>, by: &Quad<S::Num>) -> Quad<S::Num>
    ensures { Lays S.run calc.old calc.new (quad_at S.at result)
        (λ e. outset_by (quad_at S.at q.now e) (S.at by.now.left e) (S.at by.now.top e)
        (S.at by.now.right e) (S.at by.now.bottom e))
        (λ e. AllSmall (quad_way (outset_by (quad_at S.at q.now e) (S.at by.now.left e)
        (S.at by.now.top e) (S.at by.now.right e) (S.at by.now.bottom e)))) }
{
    let left = calc.sub(&q.left, &by.left);
    let top = calc.sub(&q.top, &by.top);
    let right = calc.add(&q.right, &by.right);
    let bottom = calc.add(&q.bottom, &by.bottom);
    Quad {
        left,
        top,
        right,
        bottom,
    }
}

/// The width of a border box.
fn border_width<S: Steady>(calc: &mut S, x: &Widths<S::Num>) -> S::Num
    ensures { Lays S.run calc.old calc.new (S.at result) (λ e. width_of (widths_at S.at x.now e))
        (λ e. AllSmall (width_way (widths_at S.at x.now e))) }
{
    let sum = calc.add(&x.border_left, &x.padding_left);
    let sum = calc.add(&sum, &x.content);
    let sum = calc.add(&sum, &x.padding_right);
    calc.add(&sum, &x.border_right)
}

/// The height of a border box.
fn border_height<S: Steady>(calc: &mut S, v: &Edges<S::Num>, content: &S::Num) -> S::Num
    ensures { Lays S.run calc.old calc.new (S.at result)
        (λ e. height_of (verticals_at S.at v.now e) (S.at content.now e))
        (λ e. AllSmall (tall_way (verticals_at S.at v.now e) (S.at content.now e))) }
{
    let sum = calc.add(&v.border_top, &v.padding_top);
    let sum = calc.add(&sum, content);
    let sum = calc.add(&sum, &v.padding_bottom);
    calc.add(&sum, &v.border_bottom)
}

/// The rectangles of a box from its border box.
fn around<S: Steady>(
    calc: &mut S,
    kind: Kind,
    node: u32,
    x: &Widths<S::Num>,
    v: &Edges<S::Num>,
    border: Quad<S::Num>,
) -> Placed<S::Num>
    ensures { Lays S.run calc.old calc.new (placed_at S.at result)
        (λ e. around_box kind node (widths_at S.at x.now e) (verticals_at S.at v.now e)
        (quad_at S.at border e)) (λ e. AroundFits (widths_at S.at x.now e)
        (verticals_at S.at v.now e) (quad_at S.at border e)) }
{
    let margins = Quad {
        left: calc.copy(&x.margin_left),
        top: calc.copy(&v.margin_top),
        right: calc.copy(&x.margin_right),
        bottom: calc.copy(&v.margin_bottom),
    };
    let margin = outset(calc, &border, &margins);
    let borders = Quad {
        left: calc.copy(&x.border_left),
        top: calc.copy(&v.border_top),
        right: calc.copy(&x.border_right),
        bottom: calc.copy(&v.border_bottom),
    };
    let padding = inset(calc, &border, &borders);
    let both = Quad {
        left: calc.add(&x.border_left, &x.padding_left),
        top: calc.add(&v.border_top, &v.padding_top),
        right: calc.add(&x.border_right, &x.padding_right),
        bottom: calc.add(&v.border_bottom, &v.padding_bottom),
    };
    let content = inset(calc, &border, &both);
    Placed {
        kind,
        node,
        margin,
        border,
        padding,
        content,
    }
}

/// The border box of a box with its content so high.
fn border<S: Steady>(calc: &mut S, shape: &Shape<S::Num>, content: &S::Num) -> Quad<S::Num>
    ensures { Lays S.run calc.old calc.new (quad_at S.at result)
        (λ e. border_of (frame_at S.at shape.now e) (S.at content.now e))
        (λ e. BorderFits (frame_at S.at shape.now e) (S.at content.now e)) }
{
    let left = calc.copy(&shape.corner.x);
    let top = calc.copy(&shape.corner.y);
    let width = border_width(calc, &shape.x);
    let right = calc.add(&left, &width);
    let height = border_height(calc, &shape.v, content);
    let bottom = calc.add(&top, &height);
    Quad {
        left,
        top,
        right,
        bottom,
    }
}

/// A box with its content so high.
pub fn place<S: Steady>(
    calc: &mut S,
    tree: &BoxTree,
    b: u32,
    shape: &Shape<S::Num>,
    content: &S::Num,
) -> Placed<S::Num>
    ensures { Lays S.run calc.old calc.new (placed_at S.at result)
        (λ e. placed_box tree.now b (frame_at S.at shape.now e) (S.at content.now e))
        (λ e. PlaceFits (frame_at S.at shape.now e) (S.at content.now e)) }
{
    let border = border(calc, shape, content);
    around(
        calc,
        kind(tree, b),
        node(tree, b),
        &shape.x,
        &shape.v,
        border,
    )
}
