use crate::{List, Text};

/// An element or a text, with the place of the element that it is in.
#[derive(Drop)]
pub struct Node {
    pub parent: Option<u32>,
    pub body: Body,
}

/// What a node is.
#[derive(Drop)]
pub enum Body {
    Element(Element),
    /// A text, with its characters.
    Chars(Text),
}

/// An element. Its tag and the names of its attributes are in lower case.
#[derive(Drop)]
pub struct Element {
    pub tag: Text,
    pub attrs: List<Attr>,
    /// The intrinsic width and height of a replaced element, in whole pixels.
    pub size: Option<(u32, u32)>,
}

/// An attribute.
#[derive(Drop)]
pub struct Attr {
    pub name: Text,
    pub value: Text,
}
