//! How many segments a line is asked to take at once (CSS 2.1, 9.4.2).
ghost use Rattle.std.specs.Prelude.{◌≡◌, ◌<◌, [], IsTrue, IfSome, MatchOption, length};
ghost use Rattle.std.specs.List.{list_all};
ghost use Rattle.lay_line.specs.Items.{item_of, bare_of};
ghost use Rattle.lay_line.specs.steps.Leaping.{is_text as is_text_of, is_begun as is_begun_of, is_plain as is_plain_of, IsLeap};
ghost use Rattle.lay_line.specs.steps.Loading.{parts_of, IsFirst};

use crate::held::Piece;
use crate::items::Item;
use crate::segments::{Segments, cut_first};

/// How much text the lines of a container took so far, in bytes: from it a line guesses how much it takes.
///
/// No layout depends on it, only how many questions are asked. Letters are not of one width, so a guess may be wrong.
#[derive(Clone, Copy)]
pub struct Guess {
    /// The text of the line so far.
    pub line: u64,
    /// What a line took.
    pub fits: u64,
    /// What one didn't take.
    pub over: u64,
}

impl Guess {
    /// Behind more text of the line.
    pub(crate) fn taken(self, size: u64) -> Guess {
        let line = self.line.saturating_add(size);
        let over = if self.over <= line {
            line.saturating_add(line / 4)
        } else {
            self.over
        };
        Guess {
            line,
            fits: self.fits.max(line),
            over,
        }
    }

    /// After a line that doesn't take so much more.
    pub(crate) fn refused(self, size: u64) -> Guess {
        let sum = self.line.saturating_add(size);
        let fits = if sum <= self.fits {
            sum - sum / 16
        } else {
            self.fits
        };
        Guess {
            line: self.line,
            fits,
            over: self.over.min(sum),
        }
    }

    /// How much text more the line is asked to take at once.
    fn room(self) -> u64 {
        let aim = if self.line < self.fits {
            self.fits
        } else if self.over == u64::MAX {
            self.line.saturating_mul(2)
        } else {
            self.line / 2 + self.over / 2
        };
        aim.saturating_sub(self.line)
    }
}

/// How many bytes letters take in a text.
fn bytes_of(letters: &[char]) -> u64 {
    let mut size = 0u64;
    for letter in letters {
        size = size.saturating_add(letter.len_utf8() as u64);
    }
    size
}

/// How much text an item is.
fn size_of(item: &Item) -> u64 {
    match item {
        Item::Word(_, word) => bytes_of(word.letters.as_slice()),
        Item::Space(_) => 1,
        _ => 0,
    }
}

/// How much text pieces are.
pub(crate) fn text_in<N>(pieces: &[Piece<N>]) -> u64 {
    let mut size = 0u64;
    for piece in pieces {
        size = size.saturating_add(size_of(&piece.item));
    }
    size
}

/// Whether an item is a word or a space.
fn is_text(item: &Item) -> bool
    ensures { result ≡ is_text_of (item_of item.now) }
{
    matches!(item, Item::Word(..) | Item::Space(_))
}

/// Whether pieces are words and spaces.
fn are_text<N>(pieces: &[Piece<N>]) -> bool
    ensures { result ≡ list_all is_text_of (bare_of pieces.now) }
{
    for piece in pieces {
        if !is_text(&piece.item) {
            return false;
        }
    }
    true
}

/// Whether pieces begin with a word.
fn is_begun<N>(pieces: &[Piece<N>]) -> bool
    ensures { result ≡ is_begun_of (bare_of pieces.now) }
{
    match pieces.first() {
        Some(piece) => matches!(piece.item, Item::Word(..)),
        None => false,
    }
}

/// Whether pieces are a word and then words and spaces.
fn is_plain<N>(pieces: &[Piece<N>]) -> bool
    ensures { result ≡ is_plain_of (bare_of pieces.now) }
{
    is_begun(pieces) && are_text(pieces)
}

/// Segments that a line may take at once.
#[derive(Drop)]
pub struct Leap<'p, 'a, N> {
    /// All their pieces.
    pub first: &'p [Piece<'a, N>],
    /// The segments behind them.
    pub rest: Segments<'p, 'a, N>,
    /// How many they are.
    pub count: usize,
    /// How much text they are.
    pub size: u64,
}

/// The first segment alone.
fn alone<'p, 'a, N>(segments: &Segments<'p, 'a, N>) -> Option<Leap<'p, 'a, N>>
    ensures { MatchOption result (parts_of segments.now.pieces.now segments.now.marks.now ≡ [])
        (λ l. IsFirst segments.now.pieces.now segments.now.marks.now l.first.now l.rest.pieces.now l.rest.marks.now
        × (l.count ≡ 1)) }
{
    let cut = cut_first(segments)?;
    Some(Leap {
        first: cut.first,
        rest: cut.rest,
        count: 1,
        size: text_in(cut.first),
    })
}

/// The segment behind some that a line takes with them, if it is of words and spaces and no more than so much text.
fn further<'p, 'a, N>(
    rest: &Segments<'p, 'a, N>,
    room: u64,
    goes_on: bool,
) -> Option<Leap<'p, 'a, N>>
    ensures { IfSome result (λ l. IsFirst rest.now.pieces.now rest.now.marks.now l.first.now l.rest.pieces.now
        l.rest.marks.now × (IsTrue (is_plain_of (bare_of l.first.now)) × IsTrue goes_on)) }
{
    match alone(rest) {
        Some(next) if goes_on && next.size <= room && is_plain(next.first) => Some(next),
        _ => None,
    }
}

/// The first segment, or more of them where they are words and spaces: at most so many, and no more than a line is
/// guessed to take.
pub(crate) fn leap_on<'p, 'a, N>(
    guess: Guess,
    segments: &Segments<'p, 'a, N>,
    most: usize,
) -> Option<Leap<'p, 'a, N>>
    ensures { MatchOption result (parts_of segments.now.pieces.now segments.now.marks.now ≡ [])
        (λ l. IsLeap (λ ps. is_plain_of (bare_of ps)) segments.now.pieces.now segments.now.marks.now l.first.now
        l.rest.pieces.now l.rest.marks.now l.count most) }
{
    let one = alone(segments)?;
    if !is_plain(one.first) {
        return Some(one);
    }
    let mut rest = one.rest;
    let mut count = 1;
    let mut size = one.size;
    let room = guess.room();
    while let Some(next) = further(&rest, room.saturating_sub(size), count < most) {
        rest = next.rest;
        count += 1;
        size = size.saturating_add(next.size);
    }
    let taken = segments.pieces.len().saturating_sub(rest.pieces.len());
    let (first, _) = segments.pieces.split_at(taken);
    Some(Leap {
        first,
        rest,
        count,
        size,
    })
}
