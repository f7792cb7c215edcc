ghost use Rattle.std.specs.Prelude.{ℕ, ◌≤◌, ◌^◌, length};
ghost use Rattle.std.specs.List.{AllByRecursion};
ghost use Rattle.viz_base.specs.declared.limits.TheConstants.{MOST_BOXES, MOST_LAID_CHARACTERS};
ghost use Rattle.viz_base.specs.Trees.{character_count};
ghost use Rattle.layout_semantics.specs.Order.{IsOnPage};
ghost use Rattle.layout_semantics.specs.Page.{page_rendering};
ghost use Rattle.page_limits.specs.Bounds.{IsPlacedIn, all_around};
ghost use Rattle.page_limits.specs.Boxes.{ArePropertiesSmall, IsInlineBoxSmall, IsWhole};
ghost use Rattle.page_limits.specs.Raises.{AreRaisesSmall};

use viz_base::{BoxTree, World};

/// Of a page of at most 16,384 boxes and 524,288 characters, where what the properties of each box give is at most 2^42
/// units in size (its lengths in its containing block, its preferred widths, its fonts and the widths of its words),
/// and so is its raise together with those of the inline boxes around it, each edge of each rectangle of the rendering
/// is at most 2^70 units in size, however floats, clearance, lines, contexts and boxes in boxes come together.
pub fn coordinates_are_small_where_properties_are(tree: &BoxTree, world: World)
    requires few_boxes { length tree.now.boxes ≤ MOST_BOXES }
    requires few_characters { character_count tree.now.boxes ≤ MOST_LAID_CHARACTERS }
    requires root { IsWhole tree.now 0 }
    requires boxes { (k : ℕ) → IsOnPage tree.now.boxes k → IsWhole tree.now k
        → ArePropertiesSmall tree.now world (2 ^ 42) k }
    requires raises { AreRaisesSmall tree.now world (2 ^ 42) }
    requires lines { (k : ℕ) → IsOnPage tree.now.boxes k
        → IsInlineBoxSmall tree.now world (2 ^ 42) k }
    ensures { AllByRecursion (IsPlacedIn (all_around (2 ^ 70)))
        (page_rendering tree.now world).boxes }
{}
