//! Boxes before their height is known (CSS 2.1, 8.1, 8.3 to 8.5).
ghost use Rattle.viz_calc.specs.State.{AllSmall};
ghost use Rattle.viz_calc.specs.Run.{Lays};
ghost use Rattle.layout_semantics.specs.Rectangles.{content_top as top_of_content};
ghost use Rattle.layout_semantics.specs.Verticals.{verticals as verticals_of};
ghost use Rattle.lay_width.specs.Fitting.{VerticalsFit};
ghost use Rattle.lay_frame.specs.Fitting.{top_way};
ghost use Rattle.lay_frame.specs.Readings.{frame_at, verticals_at};

use lay_length::lengths::used;
use lay_tree::styles::{borders, margins, paddings};
use viz_base::{BoxTree, Spot, Widths};
use viz_calc::Steady;

/// Used margins, borders and paddings above and below the content of a box, in 1/64 px (CSS 2.1, 8.3 to 8.5).
#[derive(Drop)]
pub struct Edges<N> {
    pub margin_top: N,
    pub border_top: N,
    pub padding_top: N,
    pub padding_bottom: N,
    pub border_bottom: N,
    pub margin_bottom: N,
}

/// A box before its height is known, in 1/64 px: its used terms, and the upper left corner of its border box.
#[derive(Drop)]
pub struct Shape<N> {
    pub x: Widths<N>,
    pub v: Edges<N>,
    pub corner: Spot<N>,
}

#[tactic(auto, unfolding(layout_semantics::specs::Verticals::verticals))]
/// The used margins, borders and paddings above and below the content of a box in so wide a containing block.
pub fn verticals<S: Steady>(calc: &mut S, tree: &BoxTree, b: u32, room: &S::Num) -> Edges<S::Num>
    ensures { Lays S.run calc.old calc.new (verticals_at S.at result)
        (λ e. verticals_of tree.now e.world b (S.at room.now e))
        (λ e. VerticalsFit tree.now e.world b (S.at room.now e)) }
{
    let margin = margins(tree, b);
    let border = borders(tree, b);
    let padding = paddings(tree, b);
    let margin_top = used(calc, tree, &margin.top, room);
    let border_top = used(calc, tree, &border.top, room);
    let padding_top = used(calc, tree, &padding.top, room);
    let padding_bottom = used(calc, tree, &padding.bottom, room);
    let border_bottom = used(calc, tree, &border.bottom, room);
    let margin_bottom = used(calc, tree, &margin.bottom, room);
    Edges {
        margin_top,
        border_top,
        padding_top,
        padding_bottom,
        border_bottom,
        margin_bottom,
    }
}

/// The top of a box's content.
pub fn content_top<S: Steady>(calc: &mut S, shape: &Shape<S::Num>) -> S::Num
    ensures { Lays S.run calc.old calc.new (S.at result)
        (λ e. top_of_content (frame_at S.at shape.now e))
        (λ e. AllSmall (top_way (frame_at S.at shape.now e))) }
{
    let edge = calc.add(&shape.corner.y, &shape.v.border_top);
    calc.add(&edge, &shape.v.padding_top)
}
