ghost use Rattle.std.specs.Prelude.{◌≡◌, ◌++◌, IfOk, OnErr, reverse};
ghost use Rattle.cert_text.specs.steps.Stream.{all_due, below, dues_below};

use crate::certificate::Piece;
use crate::spelling::MOST_LEVELS;
use std::alloc::AllocError;

/// A piece that is still to come.
#[derive(Clone, Copy)]
pub enum Due {
    /// A certificate's head.
    Head,
    /// A node in a certificate of this form, where at most `levels` defs, splits and lemmas may stand one in another.
    Node { form: u8, levels: u16 },
}

/// A node with one level less.
fn below(due: Due) -> Due
    ensures { result ≡ below due }
{
    match due {
        Due::Head => Due::Head,
        Due::Node { form, levels } => Due::Node {
            form,
            levels: levels.saturating_sub(1),
        },
    }
}

/// The last of the later ones, which is the next.
fn next_of(later: &mut Vec<Due>) -> Option<Due>
    ensures { all_due result later.new.items ≡ reverse later.old.items }
{
    later.pop()
}

/// What is due next where this piece was due, and the later ones. No more of them stand at once than nodes stand one in
/// another. The only fault is want of memory, and the later ones are then as they were.
pub fn due_after(due: Due, piece: &Piece, later: &mut Vec<Due>) -> Result<Option<Due>, AllocError>
    ensures due { IfOk result (λ next. all_due next later.new.items
        ≡ dues_below due piece.now ++ reverse later.old.items) }
    ensures kept { OnErr result (later.new.items ≡ later.old.items) }
{
    match piece {
        Piece::Head { form, .. } => Ok(Some(Due::Node {
            form: *form,
            levels: MOST_LEVELS,
        })),
        Piece::Def(..) | Piece::Lemma(..) => Ok(Some(below(due))),
        Piece::Split(_) => {
            later.push(below(due))?;
            Ok(Some(below(due)))
        }
        Piece::Void(_) | Piece::Grid | Piece::Leaf(_) => Ok(next_of(later)),
    }
}
