//! Floats and atomic boxes, from coordinates of their own to their places (CSS 2.1, 9.5).
ghost use Rattle.std.specs.Prelude.{◌++◌};
ghost use Rattle.viz_calc.specs.Run.{Lays, LaysButMem};
ghost use Rattle.viz_calc.specs.Renderings.{placed_at, quad_at, spot_at};
ghost use Rattle.layout_semantics.specs.Rectangles.{shifted, shifted_box, shifted_quad};
ghost use Rattle.lay_frame.specs.Readings.{boxes_at};
ghost use Rattle.lay_float.specs.Readings.{extent_at};
ghost use Rattle.lay_flow.specs.Readings.{apart_at};
ghost use Rattle.std.specs.List.{AllByRecursion};
ghost use Rattle.lay_flow.specs.Low.{IsIndependentLow, reach};
ghost use Rattle.page_limits.specs.Bounds.{IsExtentIn, IsPlacedIn, IsQuadIn};
ghost use Rattle.lay_flow.specs.Fits.{IsSpotNear};

use crate::parts::Independent;
use lay_frame::lists::append;
use lay_length::lengths::zero;
use viz_base::{Extent, Placed, Quad, Spot};
use viz_calc::Steady;

/// A size again.
fn copy_extent<S: Steady>(calc: &mut S, size: &Extent<S::Num>) -> Extent<S::Num>
    ensures { Lays S.run calc.old calc.new (extent_at S.at result) (extent_at S.at size.now)
        (λ e. IsExtentIn reach (extent_at S.at size.now e)) }
{
    let width = calc.copy(&size.width);
    let height = calc.copy(&size.height);
    Extent { width, height }
}

#[tactic(auto, unfolding(crate::specs::Readings::apart_at))]
/// The outer size of a float or an atomic box.
pub fn size_of<S: Steady>(
    calc: &mut S,
    apart: &[Option<Independent<S::Num>>],
    at: u32,
) -> Extent<S::Num>
    ensures { Lays S.run calc.old calc.new (extent_at S.at result)
        (λ e. (apart_at S.at apart.now e at).size)
        (λ e. IsExtentIn reach (apart_at S.at apart.now e at).size) }
{
    match apart.get(at as usize) {
        Some(Some(independent)) => copy_extent(calc, &independent.size),
        _ => {
            let width = zero(calc);
            let height = zero(calc);
            Extent { width, height }
        }
    }
}

/// A rectangle moved by a spot.
fn shift_quad<S: Steady>(calc: &mut S, by: &Spot<S::Num>, quad: &Quad<S::Num>) -> Quad<S::Num>
    ensures { Lays S.run calc.old calc.new (quad_at S.at result)
        (λ e. shifted_quad (spot_at S.at by.now e) (quad_at S.at quad.now e))
        (λ e. IsSpotNear (spot_at S.at by.now e) × IsQuadIn reach (quad_at S.at quad.now e)) }
{
    let left = calc.add(&quad.left, &by.x);
    let top = calc.add(&quad.top, &by.y);
    let right = calc.add(&quad.right, &by.x);
    let bottom = calc.add(&quad.bottom, &by.y);
    Quad {
        left,
        top,
        right,
        bottom,
    }
}

/// A box moved by a spot.
fn shift_box<S: Steady>(calc: &mut S, by: &Spot<S::Num>, placed: &Placed<S::Num>) -> Placed<S::Num>
    ensures { Lays S.run calc.old calc.new (placed_at S.at result)
        (λ e. shifted_box (spot_at S.at by.now e) (placed_at S.at placed.now e))
        (λ e. IsSpotNear (spot_at S.at by.now e) × IsPlacedIn reach (placed_at S.at placed.now e)) }
{
    let margin = shift_quad(calc, by, &placed.margin);
    let border = shift_quad(calc, by, &placed.border);
    let padding = shift_quad(calc, by, &placed.padding);
    let content = shift_quad(calc, by, &placed.content);
    Placed {
        kind: placed.kind,
        node: placed.node,
        margin,
        border,
        padding,
        content,
    }
}

#[tactic(auto, unfolding(lay_frame::specs::Readings::boxes_at))]
/// Adds boxes that are moved by a spot.
fn add_each<S: Steady>(
    calc: &mut S,
    by: &Spot<S::Num>,
    boxes: &[Placed<S::Num>],
    out: &mut Vec<Placed<S::Num>>,
)
    ensures { LaysButMem S.run calc.old calc.new (boxes_at S.at out.new.items)
        (λ e. boxes_at S.at out.old.items e
        ++ shifted (spot_at S.at by.now e) (boxes_at S.at boxes.now e))
        (λ e. IsSpotNear (spot_at S.at by.now e)
        × AllByRecursion (IsPlacedIn reach) (boxes_at S.at boxes.now e)) }
{
    for placed in boxes {
        // Moved once for each float or inline-block around it; nothing is laid out again.
        let moved = shift_box(calc, by, placed);
        append(calc, out, moved);
    }
}

#[tactic(auto, unfolding(crate::specs::Readings::apart_at))]
/// Adds a float or an atomic box, and all in it, at its place.
pub fn add_apart<S: Steady>(
    calc: &mut S,
    apart: &[Option<Independent<S::Num>>],
    at: u32,
    by: &Spot<S::Num>,
    out: &mut Vec<Placed<S::Num>>,
)
    ensures { LaysButMem S.run calc.old calc.new (boxes_at S.at out.new.items)
        (λ e. boxes_at S.at out.old.items e
        ++ shifted (spot_at S.at by.now e) (apart_at S.at apart.now e at).boxes)
        (λ e. IsSpotNear (spot_at S.at by.now e) × IsIndependentLow (apart_at S.at apart.now e at)) }
{
    if let Some(Some(independent)) = apart.get(at as usize) {
        add_each(calc, by, independent.boxes.as_slice(), out);
    }
}
