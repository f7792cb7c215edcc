//! The box tree of a page.
ghost use Rattle.std.specs.Prelude.{◌≡◌, ◌<◌, ◌≤◌, ◌^◌, [], length, IfOk, MatchResult};
ghost use Rattle.viz_base.specs.Answers.{Gives};
ghost use Rattle.layout_semantics.specs.BoxTrees.{page_boxes, page_parts, tree_styles};
ghost use Rattle.layout_semantics.specs.Parts.{shown_parts};
ghost use Rattle.layout_semantics.specs.Refusals.{blocks_in_inlines, right_to_left_letters};
ghost use Rattle.layout_semantics.specs.WhiteSpace.{collapsed};
ghost use Rattle.layout_laws.specs.Styled.{AreStylesOf};
ghost use Rattle.page_boxes.specs.Seen.{all_seen};
ghost use Rattle.page_boxes.specs.Trees.{AreAllowed, HasFewBoxes, IsJudged, lists_of, page_tree, refusal_named};

use crate::copies::{copy_fonts, parents_of};
use crate::faults::BoxFault;
use crate::leads::leads;
use crate::nodes::shown_parts;
use crate::parts::Part;
use crate::places::{boxes_of, count};
use crate::reaches::beyond_reach;
use crate::refusals::{block_in_inline, right_to_left};
use crate::spaces::collapsed;
use crate::styles::tree_styles;
use crate::words::words_of;
use std::alloc::Global;
use viz_base::{BoxNode, BoxTree, Font, List, MOST_BOXES, Mem, Page, Style};

/// The most boxes of a page.

/// The boxes of the nodes of a page, with the characters that stay of texts.
fn parts_of(alloc: Global, page: &Page, styles: &List<Style>) -> Result<Vec<Part>, Mem>
    requires few { length page.now.nodes < 2 ^ 32 }
    requires styled { length styles.now ≡ length page.now.nodes }
    ensures { IfOk result (λ parts. all_seen parts.items
        ≡ collapsed (shown_parts page.now.nodes styles.now)) }
{
    let shown = shown_parts(alloc, page, styles)?;
    let parts = collapsed(alloc, &shown, page.nodes.len())?;
    Ok(parts)
}

/// Refuses boxes for a block in an inline box, or a character that is written from right to left.
fn judge(alloc: Global, page: &Page, styles: &List<Style>, parts: &[Part]) -> Result<(), BoxFault>
    requires { all_seen parts.now ≡ collapsed (shown_parts page.now.nodes styles.now) }
    ensures { IsJudged (blocks_in_inlines (all_seen parts.now))
        (right_to_left_letters (all_seen parts.now)) result }
{
    if let Some(node) = block_in_inline(alloc, parts, page.nodes.len())? {
        return Err(BoxFault::BlockInInline(node));
    }
    if let Some(found) = right_to_left(parts) {
        return Err(BoxFault::RightToLeft(found.0, found.1));
    }
    Ok(())
}

/// The boxes at their places, unless there are too many.
fn placed(
    alloc: Global,
    page: &Page,
    styles: &List<Style>,
    parts: &[Part],
) -> Result<List<BoxNode>, BoxFault>
    requires few { length page.now.nodes < 2 ^ 32 }
    requires parts { all_seen parts.now ≡ page_parts page.now.nodes styles.now }
    ensures { HasFewBoxes (page_boxes page.now.nodes styles.now) result }
{
    let nodes = page.nodes.len();
    let leads = leads(alloc, parts, nodes)?;
    if count(parts, &leads) > MOST_BOXES {
        return Err(BoxFault::TooManyBoxes);
    }
    Ok(boxes_of(alloc, parts, &leads, nodes)?)
}

/// The boxes of a page with the styles of its tree, unless it is refused for a box, a character, or their number.
fn allowed_boxes(
    alloc: Global,
    page: &Page,
    styles: &List<Style>,
    used: &List<Style>,
) -> Result<List<BoxNode>, BoxFault>
    requires few { length page.now.nodes < 2 ^ 32 }
    requires styled { length styles.now ≡ length page.now.nodes }
    requires used { used.now ≡ tree_styles page.now.nodes styles.now }
    ensures { AreAllowed page.now.nodes styles.now result }
{
    let parts = parts_of(alloc, page, used)?;
    match judge(alloc, page, used, &parts) {
        Ok(()) => placed(alloc, page, styles, &parts),
        Err(fault) => Err(fault),
    }
}

/// The box tree of a page with these styles and fonts (CSS 2.1, 9.2).
///
/// `BlockInInline` for the first block-level box in normal flow that is directly in an inline box, `RightToLeft` for
/// the first character that is written from right to left, `TooManyBoxes` for more than 16,384 boxes, and `Reach` for
/// the first box with which the page reaches further than 2^40 units from the origin, the first of these that applies;
/// `Mem` for want of memory, and for a page of 2^32 nodes and more.
pub fn build_boxes(
    alloc: Global,
    page: &Page,
    styles: &List<Style>,
    fonts: &List<Font>,
) -> Result<BoxTree, BoxFault>
    requires styled { AreStylesOf page.now.nodes styles.now fonts.now }
    ensures { Gives lists_of refusal_named result (page_tree page.now.nodes styles.now fonts.now) }
{
    if u32::try_from(page.nodes.len()).is_err() {
        return Err(BoxFault::Mem);
    }
    let used = tree_styles(alloc, page, styles)?;
    let boxes = allowed_boxes(alloc, page, styles, &used)?;
    let parents = parents_of(alloc, page.nodes.as_slice())?;
    if let Some(node) = beyond_reach(alloc, &boxes, &used, fonts, &parents)? {
        return Err(BoxFault::Reach(node));
    }
    let fonts = copy_fonts(alloc, fonts.as_slice())?;
    let words = words_of(alloc, boxes.as_slice(), used.as_slice(), fonts.as_slice())?;
    Ok(BoxTree {
        boxes,
        styles: used,
        fonts,
        parents,
        words,
    })
}
