//! The inline content of a block container, from the tree (CSS 2.1, 9.2.2, 9.4.2).
ghost use Rattle.std.specs.Prelude.{◌≡◌, ◌<◌, ◌++◌, ◌∷◌, [], length, IfOk, OnOk};
ghost use Rattle.std.specs.List.{AllByRecursion, flat_map};
ghost use Rattle.layout_semantics.specs.InlineContent.{text_of, text_items, content as content_of};
ghost use Rattle.lay_line.specs.Items.{items_of, summed, summed_of};
ghost use Rattle.lay_line.specs.steps.Content.{IsSum, behind_space, own_items, summed_word, summed_words, with_sums};

use crate::items::Item;
use lay_tree::boxes::{children, is_floated, kind};
use std::alloc::AllocError;
use viz_base::{BoxTree, Kind, Word};

/// Adds an item.
fn add<'a>(item: Item<'a>, items: &mut Vec<Item<'a>>) -> Result<(), AllocError>
    ensures { OnOk result (summed_of items.new.items
        ≡ summed_of items.old.items ++ summed item.entry ∷ []) }
{
    items.push(item)?;
    Ok(())
}

/// Adds a word, where it has a letter.
fn add_word<'a>(at: u32, word: &'a Word, items: &mut Vec<Item<'a>>) -> Result<(), AllocError>
    ensures { OnOk result (summed_of items.new.items
        ≡ summed_of items.old.items ++ summed_word at word.now) }
{
    if word.letters.is_empty() {
        return Ok(());
    }
    add(Item::Word(at, word), items)
}

/// Adds a space before each of some words.
fn add_words<'a>(at: u32, words: &'a [Word], items: &mut Vec<Item<'a>>) -> Result<(), AllocError>
    ensures { OnOk result (summed_of items.new.items
        ≡ summed_of items.old.items ++ flat_map (behind_space at) words.now) }
{
    for word in words {
        add(Item::Space(at), items)?;
        add_word(at, word, items)?;
    }
    Ok(())
}

/// Adds the words and spaces of a text.
fn add_text<'a>(at: u32, words: &'a [Word], items: &mut Vec<Item<'a>>) -> Result<(), AllocError>
    ensures { OnOk result (summed_of items.new.items
        ≡ summed_of items.old.items ++ summed_words at words.now) }
{
    match words.split_first() {
        Some((first, rest)) => {
            add_word(at, first, items)?;
            add_words(at, rest, items)
        }
        None => Ok(()),
    }
}

/// The words of a box.
fn words_at(tree: &BoxTree, at: u32) -> &[Word]
    ensures { summed_words at result.now
        ≡ with_sums tree.now (text_items at (text_of tree.now at)) }
{
    match tree.words.get(at as usize) {
        Some(words) => words.as_slice(),
        None => &[],
    }
}

#[cycle(walk)]
#[tactic(auto, unfolding(crate::specs::steps::Content::own_items))]
/// Adds the items of a box in inline content.
fn add_box<'a>(tree: &'a BoxTree, at: u32, items: &mut Vec<Item<'a>>) -> Result<(), AllocError>
    requires { at < length tree.now.boxes }
    ensures { OnOk result (summed_of items.new.items
        ≡ summed_of items.old.items ++ own_items tree.now at) }
{
    if is_floated(tree, at) {
        return add(Item::Float(at), items);
    }
    match kind(tree, at) {
        Kind::Chars => add_text(at, words_at(tree, at), items),
        Kind::Break => add(Item::Forced(at), items),
        Kind::Inline => {
            add(Item::Start(at), items)?;
            add_content(tree, at, items)?;
            add(Item::Finish(at), items)
        }
        _ => add(Item::Atomic(at), items),
    }
}

#[cycle(walk)]
/// Adds the inline content of a box.
fn add_content<'a>(tree: &'a BoxTree, at: u32, items: &mut Vec<Item<'a>>) -> Result<(), AllocError>
    requires { at < length tree.now.boxes }
    ensures { OnOk result (summed_of items.new.items
        ≡ summed_of items.old.items ++ with_sums tree.now (content_of tree.now at)) }
{
    for kid in children(tree, at) {
        add_box(tree, *kid, items)?;
    }
    Ok(())
}

/// The inline content of a box, in document order: what its texts, floats and atomic boxes are, and where its inline
/// boxes start and end. Each word has the sum of its advances. Fails for want of memory alone.
pub fn content(tree: &BoxTree, at: u32) -> Result<Vec<Item<'_>>, AllocError>
    requires { at < length tree.now.boxes }
    ensures value { IfOk result (λ items. items_of items.items ≡ content_of tree.now at) }
    ensures kept { IfOk result (λ items. AllByRecursion (IsSum tree.now) (summed_of items.items)) }
{
    let mut items = Vec::new(tree.boxes.allocator());
    add_content(tree, at, &mut items)?;
    Ok(items)
}
