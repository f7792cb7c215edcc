ghost use Rattle.std.specs.Prelude.{◌≡◌, ℕ, ℤ, List};
ghost use Rattle.viz_base.specs.declared.layouts.Band.{Band};
ghost use Rattle.viz_base.specs.declared.trees.BoxTree.{BoxTree as Tree};
ghost use Rattle.viz_base.specs.declared.worlds.World.{World};
ghost use Rattle.layout_semantics.specs.Floats.{FloatBox};
ghost use Rattle.layout_semantics.specs.LineHeights.{InlineContext};
ghost use Rattle.layout_semantics.specs.Lines.{lines_in};
ghost use Rattle.layout_semantics.specs.Flow.{Progress, fresh, flow_to};
ghost use Rattle.layout_laws.specs.PlacedFloats.{ArePlacedAfter, AreClear};

/// The floats in lines are placed one after another by the rules for floats, after those of the context that came
/// before (CSS 2.1, 9.5.1).
pub fn floats_of_lines_are_placed_by_the_rules()
    ensures { (c : InlineContext) (y least : ℤ) (floats : List FloatBox)
        → ArePlacedAfter floats (lines_in c y least floats).floats }
{}

/// So are those of all that is in a block container, lines and blocks, whatever the page.
pub fn floats_of_a_container_are_placed_by_the_rules()
    ensures { (tree : Tree) (w : World) (levels b : ℕ) (cb : Band ℤ) (top : ℤ) (p : Progress)
        → ArePlacedAfter p.floats (flow_to tree w levels b cb top p).floats }
{}

/// No two floats of a block formatting context overlap, and none is above an earlier one (CSS 2.1, 9.5.1).
pub fn no_floats_of_a_context_overlap()
    ensures { (tree : Tree) (w : World) (levels b : ℕ) (cb : Band ℤ) (top : ℤ)
        → AreClear (flow_to tree w levels b cb top (fresh top)).floats }
{}
