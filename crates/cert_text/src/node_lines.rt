ghost use Rattle.std.specs.Prelude.{◌≡◌};
ghost use Rattle.cert_text.specs.steps.Whole.{piece_of};

use crate::certificate::Piece;
use lin_proof::{Answer, Derivation, Row};
use viz_base::{Boxed, List};

/// A node without the nodes below it. What is larger lies in boxes, so that a level of a walk takes little of the
/// stack.
#[derive(Drop)]
pub enum NodeLines {
    /// A def.
    Def(Boxed<Row>, Boxed<i128>),
    /// A split.
    Split(Boxed<Row>),
    /// A lemma.
    Lemma(Boxed<Row>, Boxed<Derivation>),
    /// A void.
    Void(Boxed<Derivation>),
    /// A grid.
    Grid,
    /// A leaf.
    Leaf(List<Answer>),
}

/// The piece, out of its boxes.
pub fn piece_of(lines: NodeLines) -> Piece
    ensures { result ≡ piece_of lines }
{
    match lines {
        NodeLines::Def(row, divisor) => Piece::Def(row.into_inner(), divisor.into_inner()),
        NodeLines::Split(row) => Piece::Split(row.into_inner()),
        NodeLines::Lemma(row, why) => Piece::Lemma(row.into_inner(), why.into_inner()),
        NodeLines::Void(why) => Piece::Void(why.into_inner()),
        NodeLines::Grid => Piece::Grid,
        NodeLines::Leaf(answers) => Piece::Leaf(answers),
    }
}
