//! Which characters of texts stay (CSS 2.1, 16.6.1).
ghost use Rattle.std.specs.Prelude.{◌≡◌, [], replicate, IfOk, false};
ghost use Rattle.viz_base.specs.declared.trees.Kind.{Kind};
ghost use Rattle.layout_semantics.specs.WhiteSpace.{is_white, is_bare};
ghost use Rattle.page_boxes.specs.Seen.{seen, all_seen};
ghost use Rattle.page_boxes.specs.steps.Spaces.{squeezed, keeps_behind, keeps_behind_inline, keeps_behind_part, with_text, spaces_walk};

use crate::parts::{Level, Part};
use crate::tables::{held, put};
use std::alloc::{AllocError, Global};
use viz_base::{Kind, List, Mem};

/// Space, tab, line feed and carriage return.
fn is_white(letter: char) -> bool
    ensures { result ≡ is_white letter }
{
    matches!(letter, ' ' | '\t' | '\n' | '\r')
}

/// The characters that stay of a text, where white space before it would stay or not.
fn squeezed(alloc: Global, before: bool, letters: &[char]) -> Result<List<char>, AllocError>
    ensures { IfOk result (λ kept. kept ≡ squeezed before letters.now) }
{
    let mut keeps = before;
    let mut kept = List::new(alloc);
    for letter in letters {
        if !is_white(*letter) {
            kept.push(*letter)?;
        } else if keeps {
            kept.push(' ')?;
        }
        keeps = !is_white(*letter);
    }
    Ok(kept)
}

/// Whether white space stays behind a text.
fn keeps_behind(before: bool, letters: &[char]) -> bool
    ensures { result ≡ keeps_behind before letters.now }
{
    let mut keeps = before;
    for letter in letters {
        keeps = !is_white(*letter);
    }
    keeps
}

/// Whether white space stays behind an inline-level box.
fn keeps_behind_inline(before: bool, kind: Kind, letters: &[char]) -> bool
    ensures { result ≡ keeps_behind_inline before kind letters.now }
{
    match kind {
        Kind::Chars => keeps_behind(before, letters),
        Kind::Break => false,
        Kind::Inline => before,
        _ => true,
    }
}

/// Whether white space stays behind a box.
fn keeps_behind_part(before: bool, part: &Part) -> bool
    ensures { result ≡ keeps_behind_part before (seen part.now) }
{
    match part.level {
        Level::Block => false,
        Level::Floated => before,
        Level::Inline => keeps_behind_inline(before, part.kind, part.text.as_slice()),
    }
}

/// A part with another text.
fn with_text(part: &Part, text: List<char>) -> Part
    ensures { seen result ≡ with_text (seen part.now) text }
{
    Part {
        node: part.node,
        parent: part.parent,
        container: part.container,
        kind: part.kind,
        level: part.level,
        text,
        size: part.size,
        context: part.context,
    }
}

/// Whether it is a text of which nothing stays.
fn is_bare(part: &Part) -> bool
    ensures { result ≡ is_bare (seen part.now) }
{
    part.kind == Kind::Chars && part.text.is_empty()
}

/// The boxes that stay once white space has collapsed, with the characters that stay.
pub fn collapsed(alloc: Global, parts: &[Part], nodes: usize) -> Result<Vec<Part>, Mem>
    ensures { IfOk result (λ kept. all_seen kept.items
        ≡ spaces_walk (replicate nodes false) (all_seen parts.now)) }
{
    let mut table = vec![in alloc; false; nodes]?;
    let mut kept = Vec::new(alloc);
    for part in parts {
        let before = held(&table, part.container, false);
        let text = squeezed(alloc, before, part.text.as_slice())?;
        // What a container's content ends with so far, kept for each node, so that one pass does for the page.
        put(&mut table, part.container, keeps_behind_part(before, part));
        let left = with_text(part, text);
        if !is_bare(&left) {
            kept.push(left)?;
        }
    }
    Ok(kept)
}
