//! Rectangles of worlds: how many they have, which lie in them, and what cuts leave of them.
ghost use Rattle.std.specs.Prelude.{◌≡◌, ◌↔◌, ◌^◌, ◌<◌, ◌≤◌, IsTrue};
ghost use Rattle.viz_base.specs.Worlds.{IsInRange, span_count, world_count};
ghost use Rattle.viz_base.specs.Rectangles.{at_most, above, cut_side, toward, part_of};

use crate::{Axis, Rect, Span, World};

/// How many numbers a span has; none where the least is above the most.
fn span_count(side: Span) -> u64
    requires { side.most < 2 ^ 20 }
    ensures count { result ≡ span_count side }
    ensures few { result ≤ 2 ^ 20 }
{
    (u64::from(side.most) + 1).saturating_sub(u64::from(side.least))
}

/// How many worlds a rectangle has.
pub fn world_count(rect: Rect) -> u64
    requires widths { rect.wh < 2 ^ 20 }
    requires sizes { rect.sh < 2 ^ 20 }
    requires heights { rect.hh < 2 ^ 20 }
    ensures { result ≡ world_count rect }
{
    let widths = span_count(rect.side(Axis::Width));
    let sizes = span_count(rect.side(Axis::Size));
    let heights = span_count(rect.side(Axis::Height));
    widths * sizes * heights
}

/// Whether a world lies in a rectangle.
pub fn lies_in(rect: Rect, world: World) -> bool
    ensures { IsTrue result ↔ IsInRange rect world }
{
    let is_wide = rect.wl <= world.w && world.w <= rect.wh;
    let is_sized = rect.sl <= world.s && world.s <= rect.sh;
    let is_high = rect.hl <= world.h && world.h <= rect.hh;
    is_wide && is_sized && is_high
}

/// One of a split's two children.
#[derive(Clone, Copy)]
pub enum Child {
    /// The one where the split's row is at least 0.
    First,
    /// The one where it is below 0.
    Second,
}

/// Which numbers a cut takes.
#[derive(Clone, Copy)]
pub enum Opens {
    /// Those above its bound.
    Above,
    /// Those that are at most its bound.
    UpTo,
}

/// Where a unit row is at least 0: at the numbers of one axis on one side of a bound.
#[derive(Clone, Copy)]
pub struct Cut {
    /// The axis of the row's variable.
    pub axis: Axis,
    /// On which side of the bound.
    pub opens: Opens,
    /// The bound, any number of `i128`.
    pub bound: i128,
}

/// The numbers of a side that are at most the bound.
fn at_most(bound: i128, side: Span) -> Option<Span>
    ensures { result ≡ at_most bound side }
{
    if bound < i128::from(side.least) {
        return None;
    }
    let most = if bound < i128::from(side.most) {
        bound as u32
    } else {
        side.most
    };
    Some(Span {
        least: side.least,
        most,
    })
}

/// The numbers of a side that are above the bound.
fn above(bound: i128, side: Span) -> Option<Span>
    ensures { result ≡ above bound side }
{
    if i128::from(side.most) <= bound {
        return None;
    }
    let least = if i128::from(side.least) <= bound {
        bound as u32 + 1
    } else {
        side.least
    };
    Some(Span {
        least,
        most: side.most,
    })
}

/// The numbers of a side that a cut takes.
fn cut_side(opens: Opens, bound: i128, side: Span) -> Option<Span>
    ensures { result ≡ cut_side opens bound side }
{
    match opens {
        Opens::Above => above(bound, side),
        Opens::UpTo => at_most(bound, side),
    }
}

/// On which side of a cut's bound a child's worlds are.
fn toward(child: Child, opens: Opens) -> Opens
    ensures { result ≡ toward child opens }
{
    match (child, opens) {
        (Child::First, opens) => opens,
        (Child::Second, Opens::Above) => Opens::UpTo,
        (Child::Second, Opens::UpTo) => Opens::Above,
    }
}

/// The worlds of a rectangle that lie under a child of a split; None where there are none.
pub fn part_of(cut: Cut, child: Child, rect: Rect) -> Option<Rect>
    ensures { result ≡ part_of cut child rect }
{
    let side = cut_side(toward(child, cut.opens), cut.bound, rect.side(cut.axis))?;
    Some(rect.with_side(cut.axis, side))
}
