ghost use Rattle.std.specs.Prelude.{◌≡◌, ◌<◌, ◌≤◌, ◌^◌, ℕ, Bool, true, false, length};
ghost use Rattle.viz_calc.specs.State.{WhereOpen};
ghost use Rattle.viz_base.specs.declared.trees.BoxTree.{BoxTree};
ghost use Rattle.viz_base.specs.declared.worlds.World.{World};
ghost use Rattle.viz_calc.specs.World.{Reading};
ghost use Rattle.layout_semantics.specs.Preferred.{a_replaced, inline_content, blocks, inside_of, preferred};
ghost use Rattle.lay_length.specs.Limits.{IsSmallPage};
ghost use Rattle.lay_preferred.specs.Fitting.{AreSmallBoxes, BoxesFit, AreWithin};
ghost use Rattle.lay_preferred.specs.steps.Outer.{is_given, given, around, replaced, outer};
ghost use Rattle.lay_preferred.specs.steps.Parts.{inline_in, blocks_in};

use viz_base::BoxTree;

/// What the code computes of a box from the boxes in it are its preferred widths (CSS 2.1, 10.3.5): of a replaced box,
/// of one that holds inline content, item by item, and of one that holds blocks, child by child.
pub fn preferred_widths_level_by_level()
    ensures replaced { (tree : BoxTree) (w : World) (at : ℕ) → at < length tree.boxes
        → inside_of tree at ≡ a_replaced → replaced tree w at ≡ preferred tree w at }
    ensures inline { (tree : BoxTree) (w : World) (at : ℕ) → at < length tree.boxes
        → inside_of tree at ≡ inline_content → inline_in tree w at ≡ preferred tree w at }
    ensures blocks { (tree : BoxTree) (w : World) (at : ℕ) → at < length tree.boxes
        → inside_of tree at ≡ blocks → blocks_in tree w at ≡ preferred tree w at }
{}

/// What a box takes of its container with its edges: by its own `width`, or by what is in it.
pub fn outer_widths_by_width()
    ensures given { (tree : BoxTree) (w : World) (at : ℕ) → is_given tree at ≡ true
        → given tree w at ≡ outer tree w at }
    ensures inside { (tree : BoxTree) (w : World) (at : ℕ) → is_given tree at ≡ false
        → around tree w at (preferred tree w at) ≡ outer tree w at }
{}

/// Boxes that are small by themselves have preferred widths of at most 2^58 units, and fit with what is in them.
pub fn preferred_widths_of_small_boxes(tree: &BoxTree)
    ensures fit { (is_open : Reading → Bool) → AreSmallBoxes tree.now is_open
        → BoxesFit tree.now is_open }
    ensures inside { (is_open : Reading → Bool) → AreSmallBoxes tree.now is_open
        → WhereOpen is_open (λ e. (at : ℕ) → at < length tree.now.boxes
        → AreWithin (2 ^ 58) (preferred tree.now e.world at)) }
    ensures outer { (is_open : Reading → Bool) → AreSmallBoxes tree.now is_open
        → WhereOpen is_open (λ e. (at : ℕ) → at < length tree.now.boxes
        → AreWithin (2 ^ 58) (outer tree.now e.world at)) }
{}

/// The boxes of a small page are small by themselves, at default font sizes of at most 256 px.
pub fn boxes_of_a_small_page_are_small(tree: &BoxTree)
    requires small { IsSmallPage tree.now }
    ensures { (is_open : Reading → Bool) → (WhereOpen is_open (λ e. e.world.s ≤ 256))
        → AreSmallBoxes tree.now is_open }
{}
