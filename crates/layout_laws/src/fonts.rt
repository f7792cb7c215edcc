ghost use Rattle.std.specs.Prelude.{◌≡◌, slice_get, Some};
ghost use Rattle.std.specs.Option.{option_map_or};
ghost use Rattle.viz_base.specs.declared.styles.Style.{Style};
ghost use Rattle.viz_base.specs.FontSizes.{computed_size, parent_in, default_size};
ghost use Rattle.layout_semantics.specs.Fonts.{font_size};

use viz_base::{BoxTree, World};

/// The font size of a node comes about by its style from its parent's font size, and without a parent from the
/// default one (CSS 2.1, 15.7).
pub fn a_font_size_comes_from_the_parents(tree: &BoxTree, world: World, node: usize)
    ensures { (style : Style) → slice_get tree.now.styles node ≡ Some style
        → font_size tree.now world node
        ≡ computed_size world.s (option_map_or (font_size tree.now world)
        (parent_in tree.now.parents node) (default_size world.s)) style.size }
{}
