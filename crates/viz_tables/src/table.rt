/// What kind of table it is.
#[derive(Clone, Copy, Debug, PartialEq, Eq)]
pub enum TableAnswer {
    /// Each line holds or fails.
    Done,
    /// The turns were too few for some line.
    Undecided,
    /// The job file is refused.
    JobRefused,
    /// The list of rules is refused.
    ListRefused,
}

/// An answer with the whole output that goes with it.
#[derive(Drop)]
pub struct Table {
    pub answer: TableAnswer,
    pub output: Vec<u8>,
}
