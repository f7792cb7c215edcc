ghost use Rattle.std.specs.Prelude.{◌≡◌, ◌<◌, ◌≤◌, ◌^◌, max};
ghost use Rattle.viz_base.specs.Rectangles.{IsProper};
ghost use Rattle.viz_base.specs.Halves.{middle, length_on, longer_of, longest_axis, halves_at, halves_of};

use crate::{Axis, Rect, Span};

/// A rectangle in two: the worlds that are at most the middle on an axis, and those that are above it.
#[derive(Drop)]
pub struct Halves {
    /// The axis that is halved.
    pub axis: Axis,
    /// In whole pixels.
    pub middle: u32,
    /// The worlds at most the middle.
    pub first: Rect,
    /// The worlds above it.
    pub second: Rect,
}

/// The number in the middle of others, the lower one of two.
pub fn middle(least: u32, most: u32) -> u32
    ensures middle { result ≡ middle least most }
    ensures bound { result ≤ max least most }
{
    least + most.saturating_sub(least) / 2
}

/// How far it is from the first to the last number of a rectangle's side.
fn length_on(rect: Rect, axis: Axis) -> u32
    ensures { result ≡ length_on rect axis }
{
    let side = rect.side(axis);
    side.most.saturating_sub(side.least)
}

/// Of two axes the one on which a rectangle has more numbers; of two that have as many the first.
fn longer_of(rect: Rect, first: Axis, second: Axis) -> Axis
    ensures { result ≡ longer_of rect first second }
{
    if length_on(rect, second) <= length_on(rect, first) {
        first
    } else {
        second
    }
}

/// The axis on which a rectangle has the most numbers; of some that have as many the width, or else the size.
pub fn longest_axis(rect: Rect) -> Axis
    ensures { result ≡ longest_axis rect }
{
    longer_of(rect, longer_of(rect, Axis::Width, Axis::Size), Axis::Height)
}

/// A rectangle in two on an axis.
fn halves_at(axis: Axis, rect: Rect, middle: u32) -> Halves
    requires { middle < 2 ^ 31 }
    ensures { result ≡ halves_at axis rect middle }
{
    let side = rect.side(axis);
    let first = Span {
        least: side.least,
        most: middle,
    };
    let second = Span {
        least: middle + 1,
        most: side.most,
    };
    Halves {
        axis,
        middle,
        first: rect.with_side(axis, first),
        second: rect.with_side(axis, second),
    }
}

/// The halves of a rectangle on its longest side, in worlds; of some that are as long the widths', or else the sizes'.
pub fn halves_of(rect: Rect) -> Halves
    requires proper { IsProper rect }
    requires widths { rect.wh < 2 ^ 31 }
    requires sizes { rect.sh < 2 ^ 31 }
    requires heights { rect.hh < 2 ^ 31 }
    ensures { result ≡ halves_of rect }
{
    let axis = longest_axis(rect);
    let side = rect.side(axis);
    halves_at(axis, rect, middle(side.least, side.most))
}
