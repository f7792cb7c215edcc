ghost use Rattle.std.specs.Prelude.{◌≡◌, ℕ, ◌<◌, ℤ, pos, ◌+ℤ◌, ◌≤ℤ◌, Bool, false, ◌∷◌, [], length};
ghost use Rattle.viz_base.specs.declared.layouts.Band.{Band};
ghost use Rattle.viz_base.specs.declared.lengths.Length.TheVariants as of_length;
ghost use Rattle.viz_base.specs.declared.styles.Clear.TheVariants as of_clear;
ghost use Rattle.viz_base.specs.declared.trees.BoxTree.{BoxTree as Tree};
ghost use Rattle.viz_base.specs.declared.worlds.World.{World};
ghost use Rattle.layout_semantics.specs.FlowBoxes.{clear_of};
ghost use Rattle.layout_semantics.specs.Horizontal.{widths};
ghost use Rattle.layout_semantics.specs.InlineContent.{is_zero};
ghost use Rattle.layout_semantics.specs.Leads.{lead, top_margin};
ghost use Rattle.layout_semantics.specs.Lengths.{borders, margins, paddings};
ghost use Rattle.layout_semantics.specs.Rectangles.{Frame, placed_box};
ghost use Rattle.layout_laws.specs.Edges.{HasEdges};
ghost use Rattle.layout_laws.specs.Terms.{IsInFlowBlock};

use viz_base::{BoxTree, World};

/// The border rectangle of a box is its margin rectangle without the strips of its margins, and so on to the content
/// rectangle, which is as wide and as high as the content (CSS 2.1, 8.1).
pub fn rectangles_are_apart_by_the_edges()
    ensures { (tree : Tree) (b : ℕ) (f : Frame) (height : ℤ)
        → HasEdges f.x f.v height (placed_box tree b f height) }
{}

/// Two automatic margins of a block in normal flow are equally wide where there is room for them, but for 1/64 px
/// (CSS 2.1, 10.3.3).
pub fn automatic_margins_are_equal(tree: &BoxTree, world: World, at: usize)
    requires block { IsInFlowBlock tree.now at }
    requires left { (margins tree.now at).left ≡ of_length.Auto }
    requires right { (margins tree.now at).right ≡ of_length.Auto }
    ensures no_wider { (cb : ℤ) → pos 0 ≤ℤ (widths tree.now world at cb).margin_right
        → (widths tree.now world at cb).margin_left ≤ℤ (widths tree.now world at cb).margin_right }
    ensures no_narrower { (cb : ℤ) → pos 0 ≤ℤ (widths tree.now world at cb).margin_right
        → (widths tree.now world at cb).margin_right ≤ℤ
        ((widths tree.now world at cb).margin_left +ℤ pos 1) }
{}

/// A border or a padding above the content of a box parts its top margin from those in it (CSS 2.1, 8.3.1).
pub fn an_edge_above_parts_margins(tree: &BoxTree, world: World, at: usize)
    requires within { at < length tree.now.boxes }
    requires clear { clear_of tree.now at ≡ of_clear.Nothing }
    ensures border { (passed : ℕ → Bool) (cb : Band ℤ) → is_zero (borders tree.now at).top ≡ false
        → (lead tree.now world passed cb at).margins ≡ top_margin tree.now world cb at ∷ [] }
    ensures padding { (passed : ℕ → Bool) (cb : Band ℤ) → is_zero (paddings tree.now at).top ≡ false
        → (lead tree.now world passed cb at).margins ≡ top_margin tree.now world cb at ∷ [] }
{}
