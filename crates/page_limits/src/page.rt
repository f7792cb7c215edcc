ghost use Rattle.std.specs.Prelude.{◌≤◌, ◌^◌};
ghost use Rattle.std.specs.List.{AllByRecursion};
ghost use Rattle.viz_base.specs.declared.limits.TheConstants.{MOST_LAID_CHARACTERS, MOST_PIXELS, MOST_SIZE};
ghost use Rattle.viz_base.specs.Trees.{character_count};
ghost use Rattle.layout_semantics.specs.Page.{page_rendering};
ghost use Rattle.lay_length.specs.Limits.{IsSmallPage};
ghost use Rattle.page_limits.specs.Bounds.{IsPlacedIn, all_around};

use viz_base::{BoxTree, World};

/// Of a page of at most 16,384 boxes and 524,288 characters, none of which reaches beyond 2^40 units, in
/// viewports of at most 16,384 px by 16,384 px at default font sizes of at most 256 px, each
/// edge of each rectangle of the rendering is at most 2^70 units in size.
pub fn coordinates_of_a_page_are_small(tree: &BoxTree, world: World)
    requires small { IsSmallPage tree.now }
    requires few_characters { character_count tree.now.boxes ≤ MOST_LAID_CHARACTERS }
    requires narrow { world.w ≤ MOST_PIXELS }
    requires sized { world.s ≤ MOST_SIZE }
    requires low { world.h ≤ MOST_PIXELS }
    ensures { AllByRecursion (IsPlacedIn (all_around (2 ^ 70)))
        (page_rendering tree.now world).boxes }
{}
