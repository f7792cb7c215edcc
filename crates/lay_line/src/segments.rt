//! Content in the segments that no line breaks (CSS 2.1, 9.4.2).
ghost use Rattle.std.specs.Prelude.{◌≡◌, [], ◌≤◌, length, IfSome, MatchOption};
ghost use Rattle.lay_line.specs.steps.Loading.{parts_of, mark_from, IsFirst};

use crate::held::Piece;

/// Pieces, and whether a segment ends behind each.
#[derive(Drop)]
pub struct Segments<'p, 'a, N> {
    /// The pieces, in order.
    pub pieces: &'p [Piece<'a, N>],
    /// For each piece whether a segment ends behind it.
    pub marks: &'p [bool],
}

/// A segment, and those behind it.
#[derive(Drop)]
pub struct Cut<'p, 'a, N> {
    /// All that was cut.
    pub pieces: &'p [Piece<'a, N>],
    /// The pieces of the segment.
    pub first: &'p [Piece<'a, N>],
    /// The segments behind it.
    pub rest: Segments<'p, 'a, N>,
}

/// How many items there are up to the first mark.
fn first_mark(marks: &[bool]) -> Option<usize>
    ensures value { result ≡ mark_from 0 marks.now }
    ensures within { IfSome result (λ n. n ≤ length marks.now) }
{
    let mut count = 0;
    for mark in marks {
        count += 1;
        if *mark {
            return Some(count);
        }
    }
    None
}

/// The first segment, and those behind it.
pub fn cut_first<'p, 'a, N>(segments: &Segments<'p, 'a, N>) -> Option<Cut<'p, 'a, N>>
    ensures { MatchOption result (parts_of segments.now.pieces.now segments.now.marks.now ≡ [])
        (λ c. IsFirst segments.now.pieces.now segments.now.marks.now c.first.now c.rest.pieces.now c.rest.marks.now
        × (c.pieces.now ≡ segments.now.pieces.now)) }
{
    if segments.pieces.is_empty() {
        return None;
    }
    match first_mark(segments.marks) {
        Some(n) if n < segments.pieces.len() => {
            let (first, pieces) = segments.pieces.split_at(n);
            let (_, marks) = segments.marks.split_at(n);
            Some(Cut {
                pieces: segments.pieces,
                first,
                rest: Segments { pieces, marks },
            })
        }
        _ => {
            let (first, pieces) = segments.pieces.split_at(segments.pieces.len());
            let (_, marks) = segments.marks.split_at(segments.marks.len());
            Some(Cut {
                pieces: segments.pieces,
                first,
                rest: Segments { pieces, marks },
            })
        }
    }
}
