//! When the boxes of a page are a box tree.
ghost use Rattle.std.specs.Prelude.{◌≡◌, []};
ghost use Rattle.viz_base.specs.Trees.{IsBoxTree};
ghost use Rattle.layout_semantics.specs.BoxTrees.{page_boxes, page_parts, tree_parents, tree_styles};
ghost use Rattle.layout_semantics.specs.Refusals.{blocks_in_inlines};
ghost use Rattle.layout_laws.specs.Styled.{AreStylesOf};

use viz_base::{Font, List, Page, Style};

/// Where no block-level box in normal flow is in an inline box, the boxes of a page and its styles are a box tree: each
/// fact of `BoxTree` holds.
pub fn the_boxes_of_a_page_are_a_tree(page: &Page, styles: &List<Style>, fonts: &List<Font>)
    requires styled { AreStylesOf page.now.nodes styles.now fonts.now }
    requires no_block_in_inlines { blocks_in_inlines (page_parts page.now.nodes styles.now) ≡ [] }
    ensures { IsBoxTree (page_boxes page.now.nodes styles.now)
        (tree_styles page.now.nodes styles.now) fonts.now (tree_parents page.now.nodes) }
{}
