ghost use Rattle.std.specs.Prelude.{◌≡◌, ◌⊎◌, ◌<◌, ◌+ℤ◌, ℕ, ℤ, List, ◌∷◌, ◌++◌, map, filter, IsTrue, true, false};
ghost use Rattle.std.specs.List.{list_all, flat_map};
ghost use Rattle.viz_base.specs.declared.renderings.Placed.{Placed};
ghost use Rattle.layout_semantics.specs.Blocks.{kind_of};
ghost use Rattle.layout_semantics.specs.Order.{kids_of, page_order};
ghost use Rattle.layout_semantics.specs.FlowBoxes.{is_open_above};
ghost use Rattle.layout_semantics.specs.Margins.{collapsed};
ghost use Rattle.layout_semantics.specs.Page.{page_rendering};
ghost use Rattle.layout_laws.specs.Entries.{named_by, name_of, holds_blocks_alone, is_whole};
ghost use Rattle.layout_laws.specs.PlainFlow.{HasPlainBlocks, IsEntryOf, content_of, leading, all_margins, collapses, trailing};

use viz_base::{BoxTree, World};

/// Whatever the page, each of its boxes has one entry, in document order, but for inline boxes and texts, which are
/// cut at the ends of lines, and forced breaks; the other entries are those of lines and of the pieces of inline
/// boxes and texts (CSS 2.1, 9.2.1, 9.2.2, 9.4, 9.5).
pub fn each_whole_box_has_one_entry(tree: &BoxTree, world: World)
    ensures { map named_by (filter (λ (p : Placed ℤ). is_whole p.kind)
        (page_rendering tree.now world).boxes)
        ≡ map (name_of tree.now) (filter
        (λ k. is_whole (kind_of tree.now k)) (page_order tree.now.boxes)) }
{}

/// A page whose boxes are blocks and floats has one entry for each of them, in document order (CSS 2.1, 9.2.1, 9.4.1,
/// 9.5).
pub fn each_box_has_one_entry(tree: &BoxTree, world: World)
    requires { IsTrue (holds_blocks_alone tree.now) }
    ensures { map named_by (page_rendering tree.now world).boxes
        ≡ map (name_of tree.now) (page_order tree.now.boxes) }
{}

/// Where no box floats and none is cleared, a block stands below the bottom border edge of the last one before it
/// that does not collapse through, by what all margins between them collapse to: those that adjoin that one's bottom,
/// those of the blocks between, which collapse through, and those that adjoin its own top (CSS 2.1, 8.3.1, 9.4.1).
pub fn blocks_stand_one_below_the_other(tree: &BoxTree, world: World)
    requires { HasPlainBlocks tree.now }
    ensures { (a b c : ℕ) (before passed after : List ℕ) (outer upper lower : Placed ℤ)
        → IsEntryOf tree.now world a outer → IsEntryOf tree.now world b upper
        → IsEntryOf tree.now world c lower
        → kids_of tree.now.boxes a ≡ before ++ b ∷ (passed ++ c ∷ after)
        → collapses tree.now world b ≡ false → IsTrue (list_all (collapses tree.now world) passed)
        → lower.border.top ≡ upper.border.bottom +ℤ collapsed
        (trailing tree.now world (content_of outer) b
        ++ (flat_map (all_margins tree.now world (content_of outer)) passed
        ++ leading tree.now world (content_of outer) c)) }
{}

/// Where all blocks before it in its parent collapse through, and the parent's border, padding or context parts its
/// top margin from theirs (the root's context does), a block stands below the top of the parent's content by what the
/// margins of all of them collapse to (CSS 2.1, 8.3.1, 9.4.1).
pub fn a_first_block_stands_below_its_parents_top(tree: &BoxTree, world: World)
    requires { HasPlainBlocks tree.now }
    ensures { (a c : ℕ) (passed after : List ℕ) (outer lower : Placed ℤ)
        → IsEntryOf tree.now world a outer → IsEntryOf tree.now world c lower
        → kids_of tree.now.boxes a ≡ passed ++ c ∷ after
        → IsTrue (list_all (collapses tree.now world) passed)
        → (a ≡ 0) ⊎ (is_open_above tree.now a ≡ false)
        → lower.border.top ≡ outer.content.top +ℤ collapsed
        (flat_map (all_margins tree.now world (content_of outer)) passed
        ++ leading tree.now world (content_of outer) c) }
{}

/// Where nothing parts the parent's top margin from theirs, the parent's top border edge is that of the first blocks
/// in it, up to the first that does not collapse through (CSS 2.1, 8.3.1).
pub fn a_first_block_shares_its_parents_top(tree: &BoxTree, world: World)
    requires { HasPlainBlocks tree.now }
    ensures { (a c : ℕ) (passed after : List ℕ) (outer lower : Placed ℤ)
        → IsEntryOf tree.now world a outer → IsEntryOf tree.now world c lower
        → kids_of tree.now.boxes a ≡ passed ++ c ∷ after
        → IsTrue (list_all (collapses tree.now world) passed) → 0 < a
        → is_open_above tree.now a ≡ true → lower.border.top ≡ outer.border.top }
{}
