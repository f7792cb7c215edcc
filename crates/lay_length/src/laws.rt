//! How large font sizes are on a small page (CSS 2.1, 15.7).
ghost use Rattle.std.specs.Prelude.{◌≤◌, ◌^◌, ℕ, unsigned_abs, IsTrue};
ghost use Rattle.viz_base.specs.Trees.{has_box};
ghost use Rattle.viz_base.specs.declared.worlds.World.{World};
ghost use Rattle.layout_semantics.specs.Fonts.{font_size};
ghost use Rattle.lay_length.specs.Limits.{IsSmallPage};

use viz_base::BoxTree;

/// On a small page each font size is at most 2^40 units, at each default font size up to 256 px.
pub fn font_sizes_of_a_small_page(tree: &BoxTree)
    requires small { IsSmallPage tree.now }
    ensures { (w : World) → w.s ≤ 256 → (node : ℕ) → IsTrue (has_box tree.now.boxes node)
        → unsigned_abs (font_size tree.now w node) ≤ 2 ^ 40 }
{}
