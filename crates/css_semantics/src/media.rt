use viz_base::Bound;

/// What an identifier says in a media list (CSS 2.1, 7.3; Media Queries 3, chapters 3 and 4).
#[derive(Clone, Copy)]
pub enum MediaWord {
    Only,
    Not,
    And,
    Or,
    /// `all` or `screen`: a medium that the page is shown on.
    Shown,
    /// `min-width`.
    MinWidth,
    /// `max-width`.
    MaxWidth,
    /// Any other word, which can be another medium alone.
    Other,
}

/// What tokens are in the grammar of media lists (Media Queries 3, chapter 3).
#[derive(Clone, Copy)]
pub enum MediaPiece {
    Word(MediaWord),
    /// `(`.
    Open,
    /// `)`.
    Close,
    /// `:`.
    Colon,
    /// A width that isn't below zero.
    Width(Bound),
    /// What stands in no entry of a media list.
    Other,
}
