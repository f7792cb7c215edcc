/// What is said of an assertion at a width of the viewport.
#[derive(Clone, Copy, PartialEq, Eq)]
pub enum Word {
    /// It is true of the page's rendering at each default font size and height of the range.
    Holds,
    /// It is false at one of them.
    Fails,
    /// The turns did not tell.
    Undecided,
}

/// What is said of each width from one to another, both included, in pixels.
#[derive(Clone, Copy)]
pub struct Line {
    /// The first width.
    pub wl: u32,
    /// The last width.
    pub wh: u32,
    /// What is said of each of them.
    pub word: Word,
}
