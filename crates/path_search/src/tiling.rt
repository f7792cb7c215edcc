//! How few grids cover a rectangle, and where it is cut for them: heights are taken so many together, then sizes, and
//! widths as many as fill a grid with these.
use crate::seeking::GRID;
use viz_base::{Axis, Rect, middle};

/// How many widths, sizes and heights a rectangle has.
#[derive(Clone, Copy)]
struct Sides {
    widths: u64,
    sizes: u64,
    heights: u64,
}

/// Where a rectangle is cut in two.
#[derive(Clone, Copy)]
pub struct Cut {
    /// The axis on which it is cut.
    pub axis: Axis,
    /// The greatest number on the axis in the first part.
    pub last: u32,
}

fn sides_of(rect: Rect) -> Sides {
    Sides {
        widths: count_between(rect.wl, rect.wh),
        sizes: count_between(rect.sl, rect.sh),
        heights: count_between(rect.hl, rect.hh),
    }
}

fn count_between(least: u32, most: u32) -> u64 {
    u64::from(most.saturating_sub(least)).saturating_add(1)
}

/// How many tiles stand along a side.
fn tiles(side: u64, tile: u64) -> u64 {
    let tile = tile.max(1);
    side.saturating_add(tile.saturating_sub(1)) / tile
}

/// How many widths a grid of so many worlds has with so many sizes.
fn widths_beside(grid: u64, sizes: u64) -> u64 {
    grid / sizes.max(1)
}

/// How many grids of so many worlds of one height cover strips of so many sizes each, and what is left over of a
/// rectangle's sizes.
fn strips(sides: Sides, grid: u64, together: u64) -> (u64, Sides) {
    let together = together.max(1);
    let whole = (sides.sizes / together).saturating_mul(tiles(
        sides.widths,
        widths_beside(grid, together),
    ));
    let rest = Sides {
        sizes: sides.sizes % together,
        ..sides
    };
    (whole, rest)
}

/// How many grids cover strips of so many sizes each, and one strip of what is left over.
fn grids_in_strips(sides: Sides, grid: u64, together: u64) -> u64 {
    let (whole, rest) = strips(sides, grid, together);
    match rest.sizes {
        0 => whole,
        sizes => whole.saturating_add(tiles(rest.widths, widths_beside(grid, sizes))),
    }
}

/// The least number of grids in strips of as many sizes.
fn fewest_in_strips(sides: Sides, grid: u64) -> u64 {
    let mut least = u64::MAX;
    for together in 1..sides.sizes.min(grid).saturating_add(1) {
        least = least.min(grids_in_strips(sides, grid, together));
    }
    least
}

/// How many grids cover strips of so many sizes each, with what is left over in strips of its own.
fn grids_by(sides: Sides, grid: u64, together: u64) -> u64 {
    let (whole, rest) = strips(sides, grid, together);
    match rest.sizes {
        0 => whole,
        _ => whole.saturating_add(fewest_in_strips(rest, grid)),
    }
}

/// How many sizes are taken together so that the grids are fewest.
fn sizes_together(sides: Sides, grid: u64) -> u64 {
    let mut best = 1;
    let mut least = u64::MAX;
    for together in 1..sides.sizes.min(grid).saturating_add(1) {
        let grids = grids_by(sides, grid, together);
        if grids < least {
            least = grids;
            best = together;
        }
    }
    best
}

/// How many grids with so many heights each cover the widths and sizes of a rectangle.
fn grids_with(sides: Sides, heights: u64) -> u64 {
    let grid = (GRID / heights.max(1)).max(1);
    grids_by(sides, grid, sizes_together(sides, grid))
}

/// How many grids cover layers of so many heights each, and one layer of what is left over.
fn grids_in_layers(sides: Sides, together: u64) -> u64 {
    let together = together.max(1);
    let whole = (sides.heights / together).saturating_mul(grids_with(sides, together));
    match sides.heights % together {
        0 => whole,
        heights => whole.saturating_add(grids_with(sides, heights)),
    }
}

/// How many heights are taken together so that the grids are few: all, or a power of two.
fn heights_together(sides: Sides) -> u64 {
    let mut best = 1;
    let mut least = u64::MAX;
    for power in [1, 2, 4, 8, 16, 32, 64, sides.heights] {
        let together = power.min(GRID);
        if together <= sides.heights {
            let grids = grids_in_layers(sides, together);
            if grids < least {
                least = grids;
                best = together;
            }
        }
    }
    best
}

/// How many grids cover a rectangle that is cut by [`cut_of_tiles`].
pub fn grid_count(rect: Rect) -> u64 {
    let sides = sides_of(rect);
    grids_in_layers(sides, heights_together(sides))
}

/// The last number of the first half of a side of so many tiles.
fn last_of_half(least: u32, count: u64, tile: u64) -> u32 {
    let half = count.saturating_add(1) / 2;
    let offset = half.saturating_mul(tile).saturating_sub(1);
    least.saturating_add(u32::try_from(offset).unwrap_or(0))
}

/// Where a rectangle of more than 64 worlds is cut so that few grids cover it: between the tiles next to its middle.
pub fn cut_of_tiles(rect: Rect) -> Cut {
    let sides = sides_of(rect);
    let together = heights_together(sides);
    if together < sides.heights {
        let count = sides.heights / together.max(1);
        return Cut {
            axis: Axis::Height,
            last: last_of_half(rect.hl, count, together),
        };
    }
    cut_of_strips(rect, (GRID / together.max(1)).max(1))
}

/// Where a rectangle is cut between sizes or widths so that few grids cover it, each with so many worlds of one height.
fn cut_of_strips(rect: Rect, grid: u64) -> Cut {
    let sides = sides_of(rect);
    let together = sizes_together(sides, grid);
    if together < sides.sizes {
        let count = sides.sizes / together.max(1);
        return Cut {
            axis: Axis::Size,
            last: last_of_half(rect.sl, count, together),
        };
    }
    let tile = widths_beside(grid, together);
    Cut {
        axis: Axis::Width,
        last: last_of_half(rect.wl, tiles(sides.widths, tile), tile),
    }
}

/// Where a rectangle is cut of a page that is laid out alike at all heights: between widths or sizes, if it has
/// several.
pub fn cut_of_flat(rect: Rect) -> Cut {
    let sides = sides_of(rect);
    let count = sides.widths.saturating_mul(sides.sizes);
    if count > GRID {
        return cut_of_strips(rect, GRID);
    }
    if count > 1 {
        return cut_on_longer(rect, sides);
    }
    cut_of_tiles(rect)
}

/// Where a rectangle is cut in the middle of its widths or its sizes, whichever are more.
fn cut_on_longer(rect: Rect, sides: Sides) -> Cut {
    let axis = if sides.sizes <= sides.widths {
        Axis::Width
    } else {
        Axis::Size
    };
    let side = rect.side(axis);
    Cut {
        axis,
        last: middle(side.least, side.most),
    }
}
