ghost use Rattle.std.specs.Prelude.{◌≤◌, ◌^◌, ℕ};
ghost use Rattle.viz_base.specs.declared.limits.TheConstants.{MOST_LAID_CHARACTERS, MOST_PIXELS, MOST_SIZE};
ghost use Rattle.viz_base.specs.Trees.{character_count};
ghost use Rattle.layout_semantics.specs.Order.{IsOnPage};
ghost use Rattle.lay_length.specs.Limits.{IsSmallPage};
ghost use Rattle.page_limits.specs.Boxes.{IsWhole};
ghost use Rattle.page_limits.specs.Raises.{AreRaisesSmall};
ghost use Rattle.page_limits.specs.Tall.{AreHeightsBounded, AreFontsBounded};

use viz_base::{BoxTree, World};

/// On a page of at most 16,384 boxes and 524,288 characters, none of which reaches beyond 2^40 units, in
/// viewports of at most 16,384 px by 16,384 px at default font sizes of at most 256 px, what
/// the properties of each box give up and down is at most 2^42 units: its height, its minimum and its height as a
/// replaced box.
pub fn heights_of_a_page_are_small(tree: &BoxTree, world: World)
    requires small { IsSmallPage tree.now }
    requires few_characters { character_count tree.now.boxes ≤ MOST_LAID_CHARACTERS }
    requires narrow { world.w ≤ MOST_PIXELS }
    requires sized { world.s ≤ MOST_SIZE }
    requires low { world.h ≤ MOST_PIXELS }
    ensures { (k : ℕ) → IsOnPage tree.now.boxes k → IsWhole tree.now k
        → AreHeightsBounded tree.now world (2 ^ 42) k }
{}

/// On a page that is small, at default font sizes of at most 256 px, the ascent and the descent of each box are at most
/// 2^42 units, and so are what its line height has above and below its baseline, and the width of each part of its
/// text.
pub fn fonts_of_a_page_are_small(tree: &BoxTree, world: World)
    requires small { IsSmallPage tree.now }
    requires sized { world.s ≤ MOST_SIZE }
    ensures { (k : ℕ) → IsOnPage tree.now.boxes k → AreFontsBounded tree.now world (2 ^ 42) k }
{}

/// So is the raise of each box in its line together with those of the inline boxes around it.
pub fn raises_of_a_page_are_small(tree: &BoxTree, world: World)
    requires small { IsSmallPage tree.now }
    requires sized { world.s ≤ MOST_SIZE }
    ensures { AreRaisesSmall tree.now world (2 ^ 42) }
{}
