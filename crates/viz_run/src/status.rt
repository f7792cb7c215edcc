ghost use Rattle.std.specs.Prelude.{◌≡◌};
ghost use Rattle.viz_run.specs.Run.{code_of};

use viz_replies::Answer;

/// A file that a command names.
#[derive(Clone, Copy)]
pub enum File {
    Job,
    Certificate,
}

/// How a run ends.
#[derive(Clone, Copy)]
pub enum Status {
    /// The command was replied to.
    Replied(Answer),
    /// The words are of no form.
    Usage,
    /// This file could not be read.
    ReadFault(File),
    /// The output could not be written.
    WriteFault,
    /// Want of memory.
    Memory,
}

impl Status {
    /// The number that the program ends with.
    pub fn code(self) -> u8
        ensures { result ≡ code_of self }
    {
        match self {
            Status::Replied(Answer::Done) => 0,
            Status::Replied(Answer::Violated) => 1,
            Status::Usage => 2,
            Status::ReadFault(_) => 3,
            Status::WriteFault => 4,
            Status::Replied(Answer::JobRefused) => 5,
            Status::Replied(Answer::Undecided) => 6,
            Status::Memory => 7,
            Status::Replied(Answer::CertRefused) => 8,
        }
    }
}
