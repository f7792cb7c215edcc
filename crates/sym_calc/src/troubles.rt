use lin_proof::Row;

/// Why a comparison is left open. Answers and lines are numbered from 0.
#[derive(Drop)]
pub enum Trouble {
    /// The derivation of this answer is wrong at this line, and at none before it.
    Line(u32, u32),
    /// This answer is not to the difference that is asked for: that one, and its own.
    Differs(u32, Row, Row),
    /// All answers were taken.
    Short,
}
