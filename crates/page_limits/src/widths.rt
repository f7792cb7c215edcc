ghost use Rattle.std.specs.Prelude.{◌≡◌, ◌≤◌, ◌^◌, ℕ, true};
ghost use Rattle.viz_base.specs.declared.limits.TheConstants.{MOST_LAID_CHARACTERS, MOST_PIXELS, MOST_SIZE};
ghost use Rattle.viz_base.specs.Trees.{is_inline, character_count};
ghost use Rattle.layout_semantics.specs.Blocks.{kind_of};
ghost use Rattle.layout_semantics.specs.Order.{IsOnPage};
ghost use Rattle.lay_length.specs.Limits.{IsSmallPage};
ghost use Rattle.page_limits.specs.Boxes.{IsWhole};
ghost use Rattle.page_limits.specs.InlineSizes.{AreEdgesSmall, AreWidthsBounded};

use viz_base::{BoxTree, World};

/// On a page of at most 16,384 boxes and 524,288 characters, none of which reaches beyond 2^40 units, in
/// viewports of at most 16,384 px by 16,384 px at default font sizes of at most 256 px, what
/// the properties of each box give across is at most 2^42 units together with its edges and its containing block: its
/// width, its minimum, its preferred widths and its width as a replaced box; and so is each of its edges.
pub fn widths_of_a_page_are_small(tree: &BoxTree, world: World)
    requires small { IsSmallPage tree.now }
    requires few_characters { character_count tree.now.boxes ≤ MOST_LAID_CHARACTERS }
    requires narrow { world.w ≤ MOST_PIXELS }
    requires sized { world.s ≤ MOST_SIZE }
    requires low { world.h ≤ MOST_PIXELS }
    ensures whole { (k : ℕ) → IsOnPage tree.now.boxes k → IsWhole tree.now k
        → AreWidthsBounded tree.now world (2 ^ 42) k }
    ensures inline { (k : ℕ) → IsOnPage tree.now.boxes k → is_inline (kind_of tree.now k) ≡ true
        → AreEdgesSmall tree.now world (2 ^ 42) k }
{}
