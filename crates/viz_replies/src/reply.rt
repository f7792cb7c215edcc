ghost use Rattle.std.specs.Prelude.{◌≡◌, IfOk};

use std::alloc::Global;
use viz_base::Mem;

/// What kind of reply it is.
#[derive(Clone, Copy, Debug, PartialEq, Eq)]
pub enum Answer {
    /// What was asked for was done.
    Done,
    /// The assertion is false at a world of the range.
    Violated,
    /// The job file is refused.
    JobRefused,
    /// The turns were too few.
    Undecided,
    /// The certificate file is refused.
    CertRefused,
}

/// An answer with the whole output that goes with it.
#[derive(Drop)]
pub struct Reply {
    pub answer: Answer,
    pub output: Vec<u8>,
}

/// A reply of one line.
pub fn line(alloc: Global, answer: Answer, text: &[u8]) -> Result<Reply, Mem>
    ensures { IfOk result (λ r. (r.answer ≡ answer) × (r.output.items ≡ text.now)) }
{
    Ok(Reply {
        answer,
        output: Vec::from_slice(alloc, text)?,
    })
}
