//! Numbers up to the most that a page may reach, and font sizes at the largest default font size.
ghost use Rattle.std.specs.Prelude.{◌≡◌, ◌≤◌, ◌^◌, ◌+◌, ◌<◌, [], unsigned_abs, pos, ◌*ℤ◌, IfOk, IsTrue, slice_index_or, length};
ghost use Rattle.viz_base.specs.Styles.{is_good_size};
ghost use Rattle.page_boxes.specs.steps.Extents.{capped, most, part_of, size_in, size_at, sizes_walk, AreCapped};

use crate::tables::held;
use std::alloc::{AllocError, Global};
use viz_base::{MOST_SIZE, Size, Style, floor_div};

/// The most units that a page may reach.
pub const MOST: u64 = 1 << 40;

/// Stands for each number past it.
const PAST: u64 = MOST + 1;

/// The greatest default font size, in units of 1/64 px.
const DEFAULT: u64 = MOST_SIZE as u64 * 64;

/// The number, or `PAST` where it is past the most.
pub fn capped(number: u128) -> u64
    ensures value { result ≡ capped number }
    ensures bound { result ≤ most + 1 }
{
    if number <= u128::from(MOST) {
        number as u64
    } else {
        PAST
    }
}

fn product(num: i64, length: u64) -> i128
    requires { length ≤ most + 1 }
    ensures { result ≡ num *ℤ pos length }
{
    i128::from(num) * i128::from(length)
}

/// `num` parts of `den` of a length, without its sign.
pub fn part_of(num: i64, den: u64, length: u64) -> u64
    requires some { 1 ≤ den }
    requires short { length ≤ most + 1 }
    ensures value { result ≡ part_of num den length }
    ensures bound { result ≤ most + 1 }
{
    capped(floor_div(product(num, length), den).unsigned_abs())
}

/// A font size where the parent's is `above` (CSS 2.1, 15.7).
fn size_in(above: u64, size: Size) -> u64
    requires good { IsTrue (is_good_size size) }
    requires short { above ≤ most + 1 }
    ensures value { result ≡ size_in above size }
    ensures bound { result ≤ most + 1 }
{
    match size {
        Size::Same => above,
        Size::Default { num, den } => part_of(num, den, DEFAULT),
        Size::Px(units) => capped(i128::from(units).unsigned_abs()),
        Size::Parent { num, den } => part_of(num, den, above),
    }
}

/// The font size of a node.
pub fn size_at(sizes: &[u64], node: Option<u32>) -> u64
    requires { AreCapped sizes.now }
    ensures value { result ≡ size_at sizes.now node }
    ensures bound { result ≤ most + 1 }
{
    held(sizes, node, DEFAULT)
}

/// The font sizes of all nodes.
pub fn font_sizes(
    alloc: Global,
    styles: &[Style],
    parents: &[Option<u32>],
) -> Result<Vec<u64>, AllocError>
    ensures value { IfOk result (λ sizes. sizes.items ≡ sizes_walk [] parents.now 0 styles.now) }
    ensures bound { IfOk result (λ sizes. AreCapped sizes.items) }
{
    let mut sizes = Vec::new(alloc);
    for (at, style) in styles.iter().enumerate() {
        let parent = parents.get(at).copied().unwrap_or(None);
        sizes.push(size_in(size_at(&sizes, parent), style.size))?;
    }
    Ok(sizes)
}
