ghost use Rattle.std.specs.Prelude.{◌≡◌, ℕ, ℤ, pos, ◌+ℤ◌, ◌-ℤ◌, Bool, true, false, List, [], unwrap_or};
ghost use Rattle.viz_base.specs.declared.layouts.Band.{Band};
ghost use Rattle.viz_base.specs.declared.trees.BoxTree.{BoxTree as Tree};
ghost use Rattle.viz_base.specs.declared.worlds.World.{World};
ghost use Rattle.layout_semantics.specs.FlowBoxes.{flow_children};
ghost use Rattle.layout_semantics.specs.InlineContent.{has_line, is_floated_at};
ghost use Rattle.layout_semantics.specs.Margins.{collapsed};
ghost use Rattle.layout_semantics.specs.Rectangles.{Frame, border_height};
ghost use Rattle.layout_semantics.specs.Lines.{lines_in};
ghost use Rattle.layout_semantics.specs.Flow.{Cleared, Progress, below, block_height, child, content_height, flow_step, inline_context, laid, laid_block, reached};

/// A block with nothing in it has the height that its property gives, 0 where that is `auto`, clamped by its maximum
/// and its minimum; so high is it from its top to its bottom border edge, with its borders and paddings (CSS 2.1,
/// 10.6.3, 10.7).
pub fn an_empty_block_has_no_height()
    ensures { (tree : Tree) (w : World) (inside : ℕ → Band ℤ → ℤ → Progress
        → Progress) (cb : Band ℤ) (p : Progress) (b : ℕ) (cleared : Cleared) (f : Frame)
        → has_line tree b ≡ false → flow_children tree b ≡ []
        → (laid_block tree w (flow_step tree w inside) cb p b cleared f).bottom
        ≡ f.corner.y +ℤ border_height f.v (content_height tree w b (pos 0)) }
{}

/// The content of a block with lines ends at the bottom of the last one (CSS 2.1, 10.6.3).
pub fn a_block_ends_at_its_last_line()
    ensures { (tree : Tree) (w : World) (inside : ℕ → Band ℤ → ℤ → Progress
        → Progress) (cb : Band ℤ) (top : ℤ) (p : Progress) (b : ℕ) (joins : Bool)
        → has_line tree b ≡ true → block_height tree w joins top
        (flow_step tree w inside b cb top p).standing
        ≡ (lines_in (inline_context tree w inside b cb) top
        (unwrap_or p.least top) p.floats).bottom -ℤ top }
{}

/// Behind a child in flow that does not collapse through, the content of a block ends at the child's bottom border
/// edge, where the bottom margins of both collapse, and else at the edge of what that child's margin and those in it
/// collapse to (CSS 2.1, 8.3.1, 10.6.3).
pub fn a_block_ends_at_its_last_childs_edge()
    ensures joined { (tree : Tree) (w : World) (inside : ℕ → Band ℤ → ℤ → Progress → Progress)
        (cb : Band ℤ) (top : ℤ) (p : Progress) (k : ℕ) → is_floated_at tree k ≡ false
        → (laid tree w inside cb p k (reached tree w inside cb p k)).through ≡ false
        → block_height tree w true top (child tree w inside cb top p k).standing
        ≡ (laid tree w inside cb p k (reached tree w inside cb p k)).bottom -ℤ top }
    ensures apart { (tree : Tree) (w : World) (inside : ℕ → Band ℤ → ℤ → Progress → Progress)
        (cb : Band ℤ) (top : ℤ) (p : Progress) (k : ℕ) → is_floated_at tree k ≡ false
        → (laid tree w inside cb p k (reached tree w inside cb p k)).through ≡ false
        → block_height tree w false top (child tree w inside cb top p k).standing
        ≡ ((laid tree w inside cb p k (reached tree w inside cb p k)).bottom
        +ℤ collapsed (laid tree w inside cb p k (reached tree w inside cb p k)).margins) -ℤ top }
{}

/// A float adds nothing to the height of a block that starts no context, and neither does a child that collapses
/// through, where the block's bottom margin collapses with the last one's and nothing is cleared (CSS 2.1, 10.6.3).
pub fn floats_and_empty_blocks_add_no_height()
    ensures float { (tree : Tree) (w : World) (inside : ℕ → Band ℤ → ℤ → Progress → Progress)
        (cb : Band ℤ) (top : ℤ) (p : Progress) (k : ℕ) (joins : Bool) → is_floated_at tree k ≡ true
        → block_height tree w joins top (child tree w inside cb top p k).standing
        ≡ block_height tree w joins top p.standing }
    ensures through { (tree : Tree) (w : World) (inside : ℕ → Band ℤ → ℤ → Progress
        → Progress) (cb : Band ℤ) (top : ℤ) (p : Progress) (k : ℕ) (edge : ℤ) (run : List ℤ)
        → is_floated_at tree k ≡ false
        → (laid tree w inside cb p k (reached tree w inside cb p k)).through ≡ true
        → (reached tree w inside cb p k).clears ≡ false → p.standing ≡ below edge run false
        → block_height tree w true top (child tree w inside cb top p k).standing ≡ edge -ℤ top }
{}
