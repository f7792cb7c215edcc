//! The first box with which a page reaches too far.
ghost use Rattle.std.specs.Prelude.{◌≡◌, ◌≤◌, ◌*◌, ◌^◌, ◌+◌, ◌<◌, [], IfOk, map, sum, unsigned_abs, IsTrue};
ghost use Rattle.std.specs.List.{list_all};
ghost use Rattle.viz_base.specs.Styles.{is_bounded, sides_of};
ghost use Rattle.viz_base.specs.Reaches.{box_growth, growth, percentage};
ghost use Rattle.page_boxes.specs.steps.Tables.{held};
ghost use Rattle.page_boxes.specs.steps.Extents.{AreCapped, far_of, first_far, most, own_in, reach_of, sizes_walk, sum_walk};

use crate::extents::{is_of_element, own_extent, ratio, text_extent};
use crate::fonts::{MOST, capped, font_sizes};
use crate::tables::held;
use std::alloc::{AllocError, Global};
use viz_base::{BoxNode, Font, Length, List, Mem, Sides, Style};

/// 100%, in millionths of a hundredth.
const WHOLE: u64 = 100_000_000;

/// A viewport of 16,384 px by 16,384 px.
const VIEWPORT: u64 = 1 << 21;

/// A percentage without its sign.
fn percentage(length: Length) -> u64
    requires { IsTrue (is_bounded length) }
    ensures value { result ≡ percentage length }
    ensures bound { result ≤ most }
{
    match length {
        Length::Pct(part) => part.unsigned_abs(),
        _ => 0,
    }
}

fn sides_percentage(sides: Sides<Length>) -> u64
    requires { IsTrue (list_all is_bounded (sides_of sides)) }
    ensures value { result ≡ sum (map percentage (sides_of sides)) }
    ensures bound { result ≤ 4 * most }
{
    percentage(sides.top)
        + percentage(sides.right)
        + percentage(sides.bottom)
        + percentage(sides.left)
}

/// What the percentages of a style can make of its containing block's extent.
fn growth(style: &Style) -> u64
    ensures value { result ≡ growth style.now }
    ensures bound { result ≤ 9 * most }
{
    let height = percentage(style.height).max(percentage(style.min_height));
    let width = percentage(style.width).max(percentage(style.min_width).max(height));
    WHOLE.max(width) + (sides_percentage(style.margin) + sides_percentage(style.padding))
}

fn box_growth(styles: &[Style], inner: &BoxNode) -> u64
    ensures value { result ≡ box_growth styles.now inner.now }
    ensures bound { result ≤ 9 * most }
{
    if !is_of_element(inner.kind) {
        return WHOLE;
    }
    match styles.get(inner.node as usize) {
        Some(style) => growth(style),
        None => WHOLE,
    }
}

/// From what reaches so far, by a box's own percentages and extent.
fn reach_in(styles: &[Style], inner: &BoxNode, own: u64, around: u64) -> u64
    requires own { own ≤ most + 1 }
    requires around { around ≤ most + 1 }
    ensures value { result ≡ reach_of styles.now inner.now own around }
    ensures bound { result ≤ most + 1 }
{
    let sides = u128::from(around) * u128::from(ratio(inner.size));
    let grown = sides * u128::from(box_growth(styles, inner));
    let whole = u128::from(WHOLE);
    // Rounded up once a level, where the layout rounds down for each length: reach stays the larger.
    capped((grown + (whole - 1)) / whole + u128::from(own))
}

/// The extent of all boxes and the viewport together, or the node of the first box with which they pass the most.
fn total_of(
    alloc: Global,
    boxes: &[BoxNode],
    styles: &[Style],
    fonts: &[Font],
    sizes: &[u64],
) -> Result<Result<u64, u32>, AllocError>
    requires { AreCapped sizes.now }
    ensures value { IfOk result (λ sum. sum
        ≡ sum_walk sizes.now styles.now fonts.now (2 ^ 21) boxes.now) }
    ensures bound { IfOk result (λ sum. IfOk sum (λ total. total ≤ most + 1)) }
{
    let mut total = VIEWPORT;
    for inner in boxes {
        let own = own_extent(sizes, styles, fonts, inner);
        let text = text_extent(alloc, sizes, styles, fonts, inner)?;
        total = capped(u128::from(total) + u128::from(own) + u128::from(text));
        // Past 2^40 the number is no longer exact, and needs not be: it stays past.
        if total > MOST {
            return Ok(Err(inner.node));
        }
    }
    Ok(Ok(total))
}

/// The reach of the box around one, or the viewport's.
fn reach_around(reaches: &[u64], parent: Option<u32>, total: u64) -> u64
    requires reaches { AreCapped reaches.now }
    requires total { total ≤ most + 1 }
    ensures value { result ≡ held reaches.now parent total }
    ensures bound { result ≤ most + 1 }
{
    held(reaches, parent, total)
}

/// The node of the first box whose reach passes the most, where the viewport's is `total`.
fn first_far(
    alloc: Global,
    boxes: &[BoxNode],
    styles: &[Style],
    fonts: &[Font],
    sizes: &[u64],
    total: u64,
) -> Result<Option<u32>, AllocError>
    requires sizes { AreCapped sizes.now }
    requires total { total ≤ most + 1 }
    ensures { IfOk result (λ node. node
        ≡ first_far sizes.now styles.now fonts.now total [] boxes.now) }
{
    let mut reaches = Vec::new(alloc);
    for inner in boxes {
        let own = own_extent(sizes, styles, fonts, inner);
        let reach = reach_in(
            styles,
            inner,
            own,
            reach_around(&reaches, inner.parent, total),
        );
        if reach > MOST {
            return Ok(Some(inner.node));
        }
        reaches.push(reach)?;
    }
    Ok(None)
}

/// The node of the first box with which the extents together pass 2^40 units, or whose reach does, where fonts have
/// these sizes.
fn far_within(
    alloc: Global,
    boxes: &[BoxNode],
    styles: &[Style],
    fonts: &[Font],
    sizes: &[u64],
) -> Result<Option<u32>, AllocError>
    requires { AreCapped sizes.now }
    ensures { IfOk result (λ node. node ≡ far_of sizes.now styles.now fonts.now boxes.now) }
{
    match total_of(alloc, boxes, styles, fonts, sizes)? {
        Ok(total) => first_far(alloc, boxes, styles, fonts, sizes, total),
        Err(node) => Ok(Some(node)),
    }
}

/// The node of the first box with which the extents together pass 2^40 units; without one, of the first whose reach
/// does.
pub fn beyond_reach(
    alloc: Global,
    boxes: &List<BoxNode>,
    styles: &List<Style>,
    fonts: &List<Font>,
    parents: &List<Option<u32>>,
) -> Result<Option<u32>, Mem>
    ensures { IfOk result (λ node. node
        ≡ far_of (sizes_walk [] parents.now 0 styles.now) styles.now fonts.now boxes.now) }
{
    let (boxes, styles, fonts) = (boxes.as_slice(), styles.as_slice(), fonts.as_slice());
    let sizes = font_sizes(alloc, styles, parents.as_slice())?;
    Ok(far_within(alloc, boxes, styles, fonts, &sizes)?)
}
