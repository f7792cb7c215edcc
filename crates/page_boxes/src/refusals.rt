//! Boxes for which a page is refused.
ghost use Rattle.std.specs.Prelude.{◌≡◌, ◌&&◌, replicate, IfOk, false};
ghost use Rattle.layout_semantics.specs.BoxTrees.{is_block_part};
ghost use Rattle.layout_semantics.specs.Directions.{is_right_to_left};
ghost use Rattle.page_boxes.specs.Seen.{seen, all_seen};
ghost use Rattle.page_boxes.specs.steps.Tables.{held};
ghost use Rattle.page_boxes.specs.steps.Refusing.{inline_nodes, block_in, first_turned, turned};

use crate::parts::{Level, Part};
use crate::tables::{held, put};
use std::alloc::{AllocError, Global};
use viz_base::Kind;

/// For each node whether its box is an inline box.
fn inline_nodes(alloc: Global, parts: &[Part], nodes: usize) -> Result<Vec<bool>, AllocError>
    ensures { IfOk result (λ table. table.items
        ≡ inline_nodes (replicate nodes false) (all_seen parts.now)) }
{
    let mut table = vec![in alloc; false; nodes]?;
    for part in parts {
        put(&mut table, Some(part.node), part.kind == Kind::Inline);
    }
    Ok(table)
}

/// Whether a box is block-level, in normal flow and directly in an inline box.
fn is_block_in(inlines: &[bool], part: &Part) -> bool
    ensures { result ≡ (is_block_part (seen part.now) && held inlines.now part.now.parent false) }
{
    part.level == Level::Block && held(inlines, part.parent, false)
}

/// The node of the first block-level box in normal flow that is directly in an inline box.
pub fn block_in_inline(
    alloc: Global,
    parts: &[Part],
    nodes: usize,
) -> Result<Option<u32>, AllocError>
    ensures { IfOk result (λ node. node
        ≡ block_in (inline_nodes (replicate nodes false) (all_seen parts.now))
        (all_seen parts.now)) }
{
    let table = inline_nodes(alloc, parts, nodes)?;
    for part in parts {
        if is_block_in(&table, part) {
            return Ok(Some(part.node));
        }
    }
    Ok(None)
}

/// Hebrew, Arabic, Syriac and their neighbours, the marks of right to left order, the forms of presentation, and the
/// scripts of the supplementary plane.
fn is_right_to_left(letter: char) -> bool
    ensures { result ≡ is_right_to_left letter }
{
    matches!(
        letter,
        '\u{590}'..='\u{8FF}'
            | '\u{200F}'
            | '\u{202B}'
            | '\u{202E}'
            | '\u{2067}'
            | '\u{FB1D}'..='\u{FDFF}'
            | '\u{FE70}'..='\u{FEFE}'
            | '\u{10800}'..='\u{10FFF}'
            | '\u{1E800}'..='\u{1EFFF}'
    )
}

fn first_right_to_left(letters: &[char]) -> Option<char>
    ensures { result ≡ first_turned letters.now }
{
    for letter in letters {
        if is_right_to_left(*letter) {
            return Some(*letter);
        }
    }
    None
}

/// The first character that is written from right to left, with its node.
pub fn right_to_left(parts: &[Part]) -> Option<(u32, char)>
    ensures { result ≡ turned (all_seen parts.now) }
{
    for part in parts {
        if let Some(letter) = first_right_to_left(part.text.as_slice()) {
            return Some((part.node, letter));
        }
    }
    None
}
