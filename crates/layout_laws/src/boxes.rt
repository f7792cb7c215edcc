ghost use Rattle.std.specs.Prelude.{◌≡◌, ◌≢◌, ◌<◌, ◌≤◌, ℕ, true, false, IsTrue, sum_by, [], length, slice_get, Contains, Some, is_some, codes};
ghost use Rattle.viz_base.specs.Pages.{has_tag, is_element_at, text_of};
ghost use Rattle.viz_base.specs.declared.nodes.Node.{Node};
ghost use Rattle.std.specs.Str.{chars};
ghost use Rattle.viz_base.specs.Trees.{ascends, has_box, is_anon, is_chars, is_inline_level, is_leaf, is_replaced, character_count};
ghost use Rattle.viz_base.specs.declared.trees.BoxNode.{BoxNode};
ghost use Rattle.layout_semantics.specs.Blocks.{parent_of};
ghost use Rattle.layout_semantics.specs.Elements.{ancestors, is_closed, is_hidden, is_shown, node_passes};
ghost use Rattle.layout_semantics.specs.Order.{kids_of, IsOnPage};
ghost use Rattle.layout_semantics.specs.BoxTrees.{clips_at, page_boxes, tree_styles};
ghost use Rattle.layout_laws.specs.Apart.{IsBlockBetween};
ghost use Rattle.layout_laws.specs.Viewport.{IsFirstBody};

use viz_base::{List, Page, Style};

/// Boxes stand in document order (CSS 2.1, 3.1): a box before the boxes in it, and these in ascending order.
pub fn a_box_comes_before_its_content(page: &Page, styles: &List<Style>, at: usize)
    ensures { IsTrue (ascends at (kids_of (page_boxes page.now.nodes styles.now) at)) }
{}

/// A box is in the box that it names as its parent.
pub fn the_boxes_in_a_box_name_it(page: &Page, styles: &List<Style>, at: usize, kid: usize)
    requires inside { Contains (kids_of (page_boxes page.now.nodes styles.now) at) kid }
    ensures { parent_of (page_boxes page.now.nodes styles.now) kid ≡ Some at }
{}

/// A box that names another is one of the boxes in it.
pub fn each_box_is_in_the_box_that_it_names(
    page: &Page,
    styles: &List<Style>,
    at: usize,
    kid: usize,
)
    requires names { parent_of (page_boxes page.now.nodes styles.now) kid ≡ Some at }
    ensures { Contains (kids_of (page_boxes page.now.nodes styles.now) at) kid }
{}

/// Each box is the root's, or in a box that is on the page.
pub fn each_box_is_on_the_page(page: &Page, styles: &List<Style>, at: usize)
    requires within { at < length (page_boxes page.now.nodes styles.now) }
    ensures { IsOnPage (page_boxes page.now.nodes styles.now) at }
{}

/// The first box is the root's: a block in normal flow, whatever the style says, that starts a block formatting context
/// (CSS 2.1, 9.4.1 and 9.7).
pub fn the_first_box_is_the_roots(page: &Page, styles: &List<Style>)
    ensures node { (b : BoxNode) → slice_get (page_boxes page.now.nodes styles.now) 0 ≡ Some b
        → b.node ≡ 0 }
    ensures context { (b : BoxNode) → slice_get (page_boxes page.now.nodes styles.now) 0 ≡ Some b
        → b.context ≡ true }
    ensures block { (b : BoxNode) → slice_get (page_boxes page.now.nodes styles.now) 0 ≡ Some b
        → b.block_level ≡ true }
{}

/// Boxes stand in the order of their nodes, but for anonymous block boxes; so no node has two boxes.
pub fn boxes_stand_in_the_order_of_their_nodes(
    page: &Page,
    styles: &List<Style>,
    first: usize,
    second: usize,
)
    requires order { first < second }
    ensures { (a b : BoxNode) → slice_get (page_boxes page.now.nodes styles.now) first ≡ Some a
        → slice_get (page_boxes page.now.nodes styles.now) second ≡ Some b
        → is_anon a.kind ≡ false → is_anon b.kind ≡ false → a.node < b.node }
{}

/// A hidden node has no box, and neither has what is in it (CSS 2.1, 9.2.4).
pub fn no_hidden_node_has_a_box(page: &Page, styles: &List<Style>, at: usize)
    ensures own { (b : BoxNode) → slice_get (page_boxes page.now.nodes styles.now) at ≡ Some b
        → is_hidden styles.now b.node ≡ false }
    ensures above { (b : BoxNode) (above : ℕ)
        → slice_get (page_boxes page.now.nodes styles.now) at ≡ Some b
        → Contains (ancestors page.now.nodes b.node) above → is_hidden styles.now above ≡ false }
{}

/// The content of a replaced element and of a `br` has no box.
pub fn no_content_of_a_replaced_element_has_a_box(page: &Page, styles: &List<Style>, at: usize)
    ensures { (b : BoxNode) (above : ℕ)
        → slice_get (page_boxes page.now.nodes styles.now) at ≡ Some b
        → Contains (ancestors page.now.nodes b.node) above
        → node_passes is_closed page.now.nodes above ≡ false }
{}

/// An element that is shown has a box: neither it nor what it is in is hidden, and it is in no replaced element and
/// no `br`.
pub fn each_shown_element_has_a_box(page: &Page, styles: &List<Style>, node: usize)
    requires element { IsTrue (is_element_at page.now.nodes node) }
    requires styled { node < length styles.now }
    requires shown { IsTrue (is_shown page.now.nodes styles.now node) }
    ensures { IsTrue (has_box (page_boxes page.now.nodes styles.now) node) }
{}

/// The texts of all boxes together have no more characters than the texts of the page.
pub fn boxes_have_no_more_characters_than_the_page(page: &Page, styles: &List<Style>)
    ensures { character_count (page_boxes page.now.nodes styles.now)
        ≤ sum_by (λ (n : Node). length (chars (text_of n.body))) page.now.nodes }
{}

/// A text box has characters.
pub fn no_text_box_is_empty(page: &Page, styles: &List<Style>, at: usize)
    ensures { (b : BoxNode) → slice_get (page_boxes page.now.nodes styles.now) at ≡ Some b
        → IsTrue (is_chars b.kind) → b.chars ≢ [] }
{}

/// A box has an intrinsic size exactly where it is replaced (CSS 2.1, 3.1).
pub fn replaced_boxes_alone_have_a_size(page: &Page, styles: &List<Style>, at: usize)
    ensures { (b : BoxNode) → slice_get (page_boxes page.now.nodes styles.now) at ≡ Some b
        → is_some b.size ≡ is_replaced b.kind }
{}

/// Text boxes, forced line breaks and replaced boxes hold no boxes.
pub fn leaves_hold_no_box(page: &Page, styles: &List<Style>, at: usize)
    ensures { (b : BoxNode) → slice_get (page_boxes page.now.nodes styles.now) at ≡ Some b
        → IsTrue (is_leaf b.kind) → b.kids ≡ [] }
{}

/// An anonymous block box holds an inline-level box: floats alone get none (CSS 2.1, 9.2.1.1).
pub fn an_anonymous_block_holds_an_inline_level_box(page: &Page, styles: &List<Style>, at: usize)
    ensures { (b : BoxNode) → slice_get (page_boxes page.now.nodes styles.now) at ≡ Some b
        → is_anon b.kind ≡ true → (k : ℕ) × (c : BoxNode) × Contains b.kids k
        × (slice_get (page_boxes page.now.nodes styles.now) k ≡ Some c)
        × (is_inline_level c ≡ true) }
{}

/// Anonymous block boxes hold whole runs: between two of them in one box stands a block-level box in normal flow
/// (CSS 2.1, 9.2.1.1).
pub fn a_block_stands_between_two_anonymous_blocks(
    page: &Page,
    styles: &List<Style>,
    at: usize,
    first: usize,
    second: usize,
)
    requires { first < second }
    ensures { (b c d : BoxNode) → slice_get (page_boxes page.now.nodes styles.now) at ≡ Some b
        → Contains b.kids first → Contains b.kids second
        → slice_get (page_boxes page.now.nodes styles.now) first ≡ Some c
        → slice_get (page_boxes page.now.nodes styles.now) second ≡ Some d → is_anon c.kind ≡ true
        → is_anon d.kind ≡ true
        → IsBlockBetween (tree_styles page.now.nodes styles.now)
        (page_boxes page.now.nodes styles.now) b.kids first second }
{}

/// The overflow of the first `body` in an `html` whose own is visible goes to the viewport, and its box does not clip
/// (CSS 2.1, 11.1.1).
pub fn the_overflow_of_body_goes_to_the_viewport(page: &Page, styles: &List<Style>, at: usize)
    requires html { IsTrue (node_passes (has_tag (codes "html")) page.now.nodes 0) }
    requires visible { clips_at styles.now 0 ≡ false }
    requires first { IsFirstBody page.now.nodes at }
    ensures { clips_at (tree_styles page.now.nodes styles.now) at ≡ false }
{}

/// Where the root's own overflow is not visible, that goes to the viewport, and each other element clips as its style
/// says (CSS 2.1, 11.1.1).
pub fn the_overflow_of_html_goes_before_that_of_body(page: &Page, styles: &List<Style>, at: usize)
    requires element { IsTrue (is_element_at page.now.nodes at) }
    requires clips { clips_at styles.now 0 ≡ true }
    ensures { clips_at (tree_styles page.now.nodes styles.now) at ≡ clips_at styles.now at }
{}
