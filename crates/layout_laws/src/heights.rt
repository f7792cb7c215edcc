ghost use Rattle.std.specs.Prelude.{◌≡◌, ℕ, ℤ, is_none, is_some};
ghost use Rattle.viz_base.specs.declared.trees.BoxTree.{BoxTree as Tree};
ghost use Rattle.viz_base.specs.declared.worlds.World.{World};
ghost use Rattle.layout_semantics.specs.DefiniteHeights.{definite_height, given_height, has_auto_height, is_definite};
ghost use Rattle.layout_semantics.specs.Flow.{Progress, context_height};
ghost use Rattle.layout_laws.specs.Heights.{ReachesDown};

use viz_base::{BoxTree, World};

/// A box that starts a block formatting context, of height `auto`, reaches to its content's bottom and its floats'
/// (CSS 2.1, 10.6.7).
pub fn a_context_reaches_to_its_floats()
    ensures { (tree : Tree) (w : World) (top : ℤ) (end : Progress)
        → ReachesDown top end (context_height tree w top end) }
{}

/// Whether the height that percentages are of is definite, and whether a box's own height is auto, is told by the
/// tree alone, whatever the world and the viewport (CSS 2.1, 10.5).
pub fn the_tree_tells_which_heights_are_definite(tree: &BoxTree, world: World, at: usize)
    ensures definite { is_definite tree.now at ≡ is_some (definite_height tree.now world at) }
    ensures auto { has_auto_height tree.now at ≡ is_none (given_height tree.now world at) }
{}
