ghost use Rattle.std.specs.Prelude.{◌≡◌};
ghost use Rattle.viz_base.specs.Trees.{IsBoxTree};
ghost use Rattle.viz_base.specs.Words.{words_of};

use crate::{Font, List, Style, Text};

/// The kind of a box (CSS 2.1, 9.2).
#[derive(Clone, Copy, Debug, PartialEq, Eq)]
pub enum Kind {
    /// A block container in normal flow.
    Block,
    /// An anonymous block box.
    Anon,
    /// A floated box that is not replaced.
    Float,
    /// An inline-block.
    Atomic,
    /// The box of a replaced element.
    Replaced,
    /// An inline box.
    Inline,
    /// A text box.
    Chars,
    /// A line box; only renderings have it.
    Line,
    /// A forced line break.
    Break,
}

/// A box of a page before layout.
#[derive(Drop)]
pub struct BoxNode {
    pub kind: Kind,
    /// The node that it comes from, or the nearest element around it.
    pub node: u32,
    /// The place of the box that it is in.
    pub parent: Option<u32>,
    /// The places of the boxes in it, in document order.
    pub kids: List<u32>,
    /// The characters of a text box, after white space was collapsed.
    pub chars: Text,
    /// The intrinsic width and height of a replaced box, in whole pixels.
    pub size: Option<(u32, u32)>,
    /// Whether it starts a block formatting context (CSS 2.1, 9.4.1).
    pub context: bool,
    /// Whether it is block-level (CSS 2.1, 9.2.1).
    pub block_level: bool,
}

/// What stands between two spaces of a text.
#[derive(Drop)]
pub struct Word {
    /// Its characters, none between two spaces that stand together.
    pub letters: List<char>,
    /// The sum of their advances, in units of its font's em square.
    pub units: i64,
}

/// The boxes of a page with all that layout needs of its nodes and fonts.
#[derive(Drop)]
pub struct BoxTree {
    /// The boxes; the first is the root's.
    pub boxes: List<BoxNode>,
    /// A style for each node.
    pub styles: List<Style>,
    pub fonts: List<Font>,
    /// The parent of each node.
    pub parents: List<Option<u32>>,
    /// For each box the words of its text: what stands before, between and behind its spaces.
    pub words: List<List<Word>>,
    /// It is the box tree of some page.
    pub ghost ok: { IsBoxTree boxes styles fonts parents },
    /// The words are those of its boxes, in their fonts.
    pub ghost kept: { words ≡ words_of boxes styles fonts },
}
