ghost use Rattle.std.specs.Prelude.{◌≡◌, ◌⊎◌, ℕ, ℤ, ◌+ℤ◌, true, false, Some, None, unwrap_or};
ghost use Rattle.viz_base.specs.declared.layouts.Band.{Band};
ghost use Rattle.viz_base.specs.declared.styles.Style.{Style};
ghost use Rattle.viz_base.specs.declared.trees.BoxTree.{BoxTree as Tree};
ghost use Rattle.viz_base.specs.declared.worlds.World.{World};
ghost use Rattle.layout_semantics.specs.FlowBoxes.{inline_size, is_replaced_at};
ghost use Rattle.layout_semantics.specs.InlineContent.{has_line, is_floated_at};
ghost use Rattle.layout_semantics.specs.Lengths.{own};
ghost use Rattle.layout_semantics.specs.Lines.{lines_in};
ghost use Rattle.layout_semantics.specs.Flow.{Progress, independent, child, flow_step, inline_context, inner_size};

/// The baseline of an inline-block is that of its last line box; it is its bottom margin edge where it has none or its
/// overflow is other than visible, and so is that of a replaced box. Above and below it lies the whole margin box (CSS
/// 2.1, 10.8.1).
pub fn an_inline_block_hangs_by_its_last_line()
    ensures line { (tree : Tree) (w : World) (inside : ℕ → Band ℤ → ℤ → Progress → Progress)
        (cb : Band ℤ) (k : ℕ) (y : ℤ) → is_floated_at tree k ≡ false → is_replaced_at tree k ≡ false
        → own tree k (λ (s : Style). s.clips) false ≡ false
        → (independent tree w inside k (inline_size cb)).baseline ≡ Some y
        → (inner_size tree w inside cb k).above ≡ y }
    ensures edge { (tree : Tree) (w : World) (inside : ℕ → Band ℤ → ℤ → Progress
        → Progress) (cb : Band ℤ) (k : ℕ)
        → (is_replaced_at tree k ≡ true)
        ⊎ ((own tree k (λ (s : Style). s.clips) false ≡ true)
        ⊎ ((independent tree w inside k (inline_size cb)).baseline ≡ None))
        → (inner_size tree w inside cb k).above ≡ (independent tree w inside k (inline_size cb)).size.height }
    ensures whole { (tree : Tree) (w : World) (inside : ℕ → Band ℤ → ℤ → Progress
        → Progress) (cb : Band ℤ) (k : ℕ)
        → ((inner_size tree w inside cb k).above +ℤ (inner_size tree w inside cb k).below)
        ≡ (independent tree w inside k (inline_size cb)).size.height }
{}

/// The lines of a block container give it the baseline of the last of them, and floats and replaced boxes leave the
/// baseline that came before: a line in a float is none of the container's (CSS 2.1, 9.5, 10.8.1).
pub fn lines_in_flow_give_the_baseline()
    ensures lines { (tree : Tree) (w : World) (inside : ℕ → Band ℤ → ℤ → Progress
        → Progress) (cb : Band ℤ) (top : ℤ) (p : Progress) (b : ℕ) → has_line tree b ≡ true
        → (flow_step tree w inside b cb top p).baseline
        ≡ (lines_in (inline_context tree w inside b cb) top
        (unwrap_or p.least top) p.floats).baseline }
    ensures float { (tree : Tree) (w : World) (inside : ℕ → Band ℤ → ℤ → Progress → Progress)
        (cb : Band ℤ) (top : ℤ) (p : Progress) (k : ℕ) → is_floated_at tree k ≡ true
        → (child tree w inside cb top p k).baseline ≡ p.baseline }
    ensures replaced { (tree : Tree) (w : World) (inside : ℕ → Band ℤ → ℤ → Progress
        → Progress) (cb : Band ℤ) (top : ℤ) (p : Progress) (k : ℕ) → is_floated_at tree k ≡ false
        → is_replaced_at tree k ≡ true → (child tree w inside cb top p k).baseline ≡ p.baseline }
{}
