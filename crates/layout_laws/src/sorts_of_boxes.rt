ghost use Rattle.std.specs.Prelude.{◌≡◌, ◌<◌, ℕ, true, false, slice_get, Some};
ghost use Rattle.viz_base.specs.Pages.{is_break, is_element, is_replaced as is_replaced_body};
ghost use Rattle.viz_base.specs.Trees.{floats, is_anon, is_replaced};
ghost use Rattle.viz_base.specs.declared.nodes.Node.{Node};
ghost use Rattle.viz_base.specs.declared.styles.Display.TheVariants as of_display;
ghost use Rattle.viz_base.specs.declared.styles.Style.{Style as Styled};
ghost use Rattle.viz_base.specs.declared.trees.BoxNode.{BoxNode};
ghost use Rattle.viz_base.specs.declared.trees.Kind.TheVariants as of_kind;
ghost use Rattle.layout_semantics.specs.BoxTrees.{clips_at, page_boxes, tree_styles};
ghost use Rattle.layout_laws.specs.Sorts.{IsOwnBox, IsElementBox, IsFloat, IsBlock, IsAtomic, IsInPieces};

use viz_base::{List, Page, Style};

/// An element that floats has a block-level box that is taken out of the flow and starts a block formatting context,
/// whatever its `display` (CSS 2.1, 9.4.1, 9.5, 9.7).
pub fn a_float_is_block_level_whatever_its_display(page: &Page, styles: &List<Style>)
    ensures { (b : BoxNode) (n : Node) (s : Styled) → IsElementBox page.now.nodes styles.now b n s
        → floats s ≡ true → IsFloat (tree_styles page.now.nodes styles.now) b }
{}

/// An element with `display: block` has a block-level box in normal flow, which starts a block formatting context
/// exactly where its overflow is other than visible (CSS 2.1, 9.2.1, 9.4.1).
pub fn a_block_starts_a_context_where_it_clips(page: &Page, styles: &List<Style>)
    ensures { (b : BoxNode) (n : Node) (s : Styled) → IsElementBox page.now.nodes styles.now b n s
        → floats s ≡ false → s.display ≡ of_display.Block
        → IsBlock (tree_styles page.now.nodes styles.now) b
        (clips_at (tree_styles page.now.nodes styles.now) b.node) }
{}

/// An inline-block has an atomic inline-level box, which starts a block formatting context (CSS 2.1, 9.2.2, 9.4.1).
pub fn an_inline_block_is_atomic(page: &Page, styles: &List<Style>)
    ensures { (b : BoxNode) (n : Node) (s : Styled) → IsElementBox page.now.nodes styles.now b n s
        → floats s ≡ false → s.display ≡ of_display.InlineBlock
        → IsAtomic (tree_styles page.now.nodes styles.now) b true }
{}

/// An element with `display: inline` has an inline box; where it is replaced, an atomic inline-level one (CSS 2.1,
/// 9.2.2).
pub fn an_inline_element_is_atomic_where_it_is_replaced(page: &Page, styles: &List<Style>)
    ensures inline { (b : BoxNode) (n : Node) (s : Styled)
        → IsElementBox page.now.nodes styles.now b n s → floats s ≡ false
        → s.display ≡ of_display.Inline → is_replaced_body n.body ≡ false
        → IsInPieces (tree_styles page.now.nodes styles.now) b of_kind.Inline }
    ensures replaced { (b : BoxNode) (n : Node) (s : Styled)
        → IsElementBox page.now.nodes styles.now b n s → floats s ≡ false
        → s.display ≡ of_display.Inline → is_replaced_body n.body ≡ true
        → IsAtomic (tree_styles page.now.nodes styles.now) b false }
{}

/// A text and a `br` are inline content, whatever their style (CSS 2.1, 9.2.2; of `br` our own reading).
pub fn a_text_and_a_break_are_inline(page: &Page, styles: &List<Style>)
    ensures text { (b : BoxNode) (n : Node) (s : Styled) → IsOwnBox page.now.nodes styles.now b n s
        → is_element n.body ≡ false → IsInPieces
        (tree_styles page.now.nodes styles.now) b of_kind.Chars }
    ensures forced { (b : BoxNode) (n : Node) (s : Styled)
        → IsOwnBox page.now.nodes styles.now b n s → 0 < b.node → is_break n.body ≡ true
        → IsInPieces (tree_styles page.now.nodes styles.now) b of_kind.Break }
{}

/// The root has a block in normal flow that starts a block formatting context, and an anonymous block box starts none
/// (CSS 2.1, 9.2.1.1, 9.4.1, 9.7).
pub fn the_root_and_anonymous_boxes_are_blocks(page: &Page, styles: &List<Style>)
    ensures root { (b : BoxNode) (n : Node) (s : Styled) → IsOwnBox page.now.nodes styles.now b n s
        → b.node ≡ 0 → IsBlock (tree_styles page.now.nodes styles.now) b true }
    ensures anonymous { (at : ℕ) (b : BoxNode)
        → slice_get (page_boxes page.now.nodes styles.now) at ≡ Some b → is_anon b.kind ≡ true
        → IsBlock (tree_styles page.now.nodes styles.now) b false }
{}

/// A box is replaced exactly where its element is (CSS 2.1, 3.1).
pub fn a_replaced_element_has_a_replaced_box(page: &Page, styles: &List<Style>)
    ensures { (b : BoxNode) (n : Node) (s : Styled) → IsOwnBox page.now.nodes styles.now b n s
        → is_replaced b.kind ≡ is_replaced_body n.body }
{}
