//! Inline content as a list (CSS 2.1, 9.2.2, 9.4.2).
ghost use Rattle.std.specs.Prelude.{◌≡◌};
ghost use Rattle.layout_semantics.specs.Segments.{is_thing, is_end, is_space, is_forced};
ghost use Rattle.lay_line.specs.Items.{item_of};
ghost use Rattle.lay_line.specs.steps.Staying.{is_solid as is_solid_of};

use viz_base::Word;

/// An item of inline content, with the place of its box in the tree.
#[derive(Clone, Copy)]
pub enum Item<'a> {
    /// The start of an inline box.
    Start(u32),
    /// The end of an inline box.
    Finish(u32),
    /// A word of a text, as the tree keeps it.
    Word(u32, &'a Word),
    /// A space of a text.
    Space(u32),
    /// An atomic inline-level box.
    Atomic(u32),
    /// A forced line break.
    Forced(u32),
    /// A float.
    Float(u32),
}

/// Whether an item is a word, a space, an atomic box or a forced break.
pub fn is_thing(item: &Item) -> bool
    ensures { result ≡ is_thing (item_of item.now) }
{
    match item {
        Item::Word(..) | Item::Space(_) | Item::Atomic(_) | Item::Forced(_) => true,
        Item::Start(_) | Item::Finish(_) | Item::Float(_) => false,
    }
}

/// Whether an item is the end of an inline box.
pub fn is_end(item: &Item) -> bool
    ensures { result ≡ is_end (item_of item.now) }
{
    matches!(item, Item::Finish(_))
}

/// Whether an item is a space.
pub fn is_space(item: &Item) -> bool
    ensures { result ≡ is_space (item_of item.now) }
{
    matches!(item, Item::Space(_))
}

/// Whether an item is a forced break.
pub fn is_forced(item: &Item) -> bool
    ensures { result ≡ is_forced (item_of item.now) }
{
    matches!(item, Item::Forced(_))
}

/// Whether an item is a word or an atomic box.
pub fn is_solid(item: &Item) -> bool
    ensures { result ≡ is_solid_of (item_of item.now) }
{
    matches!(item, Item::Word(..) | Item::Atomic(_))
}
