ghost use Rattle.std.specs.Prelude.{◌≡◌, ◌<◌, ℕ, ℤ, Bool, List, [], ◌∷◌, length, Contains, false};
ghost use Rattle.std.specs.List.{flat_map};
ghost use Rattle.viz_base.specs.Trees.{is_inline};
ghost use Rattle.viz_base.specs.declared.layouts.Band.{Band};
ghost use Rattle.layout_semantics.specs.Order.{kids_of, IsOnPage};
ghost use Rattle.layout_semantics.specs.DefiniteHeights.{percentage_container, definite_height};
ghost use Rattle.layout_semantics.specs.InlineContent.{Item, content};
ghost use Rattle.layout_semantics.specs.Preferred.{preferred};
ghost use Rattle.layout_semantics.specs.LineHeights.{InlineContext, LineExtent, shift, tallest};
ghost use Rattle.layout_semantics.specs.Lines.{SoFar, laid_next, laid_none, go_on};
ghost use Rattle.layout_semantics.specs.Blocks.{kind_of};
ghost use Rattle.layout_semantics.specs.FlowBoxes.{inline_size, block_band, content_band, room, room_inside};
ghost use Rattle.layout_semantics.specs.Horizontal.{placing_of, block_flow};
ghost use Rattle.layout_semantics.specs.Leads.{is_up_to, lead, lead_step};
ghost use Rattle.layout_semantics.specs.Clearance.{Ground, resolve, resolve_step};
ghost use Rattle.layout_semantics.specs.Flow.{Progress, flow, flow_step};
ghost use Rattle.layout_laws.specs.Nested.{box_items, preferred_by_inside, container_by_parent, definite_height_by_container, shift_by_parent, lines_of};

use viz_base::{BoxTree, World};

/// Inline content is that of the boxes in a box, one after another; an inline box has its own between its start and
/// its end (CSS 2.1, 9.4.2).
pub fn inline_content_box_by_box(tree: &BoxTree, at: usize)
    ensures { content tree.now at ≡ flat_map (box_items tree.now) (kids_of tree.now.boxes at) }
{}

/// The preferred widths of a box come from the outer ones of the boxes in it (CSS 2.1, 10.3.5; our own reading).
pub fn preferred_widths_come_from_inside(tree: &BoxTree, world: World, at: usize)
    requires within { at < length tree.now.boxes }
    ensures { preferred tree.now world at ≡ preferred_by_inside tree.now world at }
{}

/// The box whose height percentages are of is the parent, but an inline box and an anonymous block are passed over
/// (CSS 2.1, 9.2.1.1, 10.5).
pub fn percentages_of_heights_are_of_the_container(tree: &BoxTree, at: usize)
    requires on_page { IsOnPage tree.now.boxes at }
    ensures { percentage_container tree.now at ≡ container_by_parent tree.now at }
{}

/// A definite height is the container's own, where that is one, in turn by the definite height around it; the
/// viewport's is definite (CSS 2.1, 10.5).
pub fn a_definite_height_is_the_containers(tree: &BoxTree, world: World, at: usize)
    requires on_page { IsOnPage tree.now.boxes at }
    ensures { definite_height tree.now world at ≡ definite_height_by_container tree.now world at }
{}

/// A box of a line is raised by its own `vertical-align` and as the inline box around it is (CSS 2.1, 10.8.1).
pub fn raises_add_up()
    ensures { (c : InlineContext) (at : ℕ) (e : LineExtent) → IsOnPage c.tree.boxes at
        → shift c at e ≡ shift_by_parent c at e }
{}

/// The containing block of a box in another is as wide as the content of that one, an inline box being none (CSS 2.1,
/// 10.1).
pub fn the_room_of_a_box_is_its_containers_content(
    tree: &BoxTree,
    world: World,
    at: usize,
    kid: usize,
)
    requires on_page { IsOnPage tree.now.boxes at }
    requires inside { Contains (kids_of tree.now.boxes at) kid }
    ensures { room tree.now world kid ≡ room_inside tree.now world at (room tree.now world at) }
{}

/// The band that the flow of a box gives those in it is as wide as their containing block, where its own is (CSS 2.1,
/// 9.4.1, 10.1).
pub fn a_band_is_as_wide_as_the_containing_block(
    tree: &BoxTree,
    world: World,
    at: usize,
    kid: usize,
)
    requires on_page { IsOnPage tree.now.boxes at }
    requires inside { Contains (kids_of tree.now.boxes at) kid }
    requires container { is_inline (kind_of tree.now at) ≡ false }
    ensures { (cb : Band ℤ) → inline_size cb ≡ room tree.now world at
        → inline_size (content_band tree.now world cb at) ≡ room tree.now world kid }
{}

/// The band that a block in normal flow, not replaced, gives those in it is the same at each height of the viewport
/// (CSS 2.1, 10.1, 10.3.3).
pub fn a_blocks_band_needs_no_height(tree: &BoxTree, world: World, at: usize)
    requires block { placing_of tree.now at ≡ block_flow }
    ensures band { (cb : Band ℤ) → block_band tree.now world cb at
        ≡ content_band tree.now world cb at }
    ensures height { (h : ℕ) (cb : Band ℤ) → content_band tree.now (record world { h = h }) cb at
        ≡ content_band tree.now world cb at }
{}

/// The lead of a box, from those of the boxes in it: more levels would change nothing (CSS 2.1, 8.3.1).
pub fn a_lead_comes_from_inside(tree: &BoxTree, world: World, at: usize)
    requires within { at < length tree.now.boxes }
    ensures { (passed : ℕ → Bool) (cb : Band ℤ) → lead tree.now world passed cb at
        ≡ lead_step tree.now world (lead tree.now world passed) passed cb at }
{}

/// Where a box stands: a box of its lead that has `clear` and is not cleared is passed, and the lead goes on, as
/// often as there is one (CSS 2.1, 9.5.2).
pub fn a_lead_goes_on_through_what_is_not_cleared(tree: &BoxTree, at: usize)
    requires within { at < length tree.now.boxes }
    ensures { (g : Ground) (run : List ℤ) (cb : Band ℤ) (passed : ℕ → Bool) → g.tree ≡ tree.now
        → resolve g run cb at passed ≡ resolve_step g run
        (λ d. resolve g run cb at (is_up_to d)) (lead g.tree g.world passed cb at) }
{}

/// The flow of what is in a box, by that of what is in later boxes: more levels would change nothing (CSS 2.1, 9.4).
pub fn a_flow_comes_from_inside(tree: &BoxTree, world: World, at: usize)
    requires within { at < length tree.now.boxes }
    ensures { (cb : Band ℤ) (top : ℤ) (p : Progress) → flow tree.now world at cb top p
        ≡ flow_step tree.now world (flow tree.now world) at cb top p }
{}

/// Lines follow one another until no segment is left.
pub fn lines_go_on_to_the_last_segment()
    ensures done { (c : InlineContext) (now : SoFar) → lines_of c now [] ≡ laid_none now }
    ensures next { (c : InlineContext) (now : SoFar) (first : List Item) (parts : List (List Item))
        → lines_of c now (first ∷ parts)
        ≡ go_on (lines_of c) (laid_next c (tallest c) now first (first ∷ parts)) }
{}
