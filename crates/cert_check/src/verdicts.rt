//! What is found of a certificate, and for which causes it is rejected.
use lin_proof::Row;
use thiserror::Error;
use viz_base::World;

/// What was found of a certificate.
#[derive(Debug, Drop)]
pub enum Verdict {
    /// The certificate is right for the job, and the job holds.
    Accepted,
    /// It is rejected, for this cause.
    Rejected(Reject),
}

/// Why a certificate is rejected. Nodes are numbered from 0 in preorder: a node, then those of its
/// first child, then those of its second. Each node before the one that is named is good, and that
/// one is not, unless it is a leaf: a leaf may be rejected though the formula is true in its part and
/// all its answers are right, where these are not the ones that are asked for, or for a number.
#[derive(Debug, Drop, Error)]
pub enum Reject {
    /// The certificate names another digest than the job's.
    #[error("the certificate is another job's")]
    OtherJob,
    /// The node is badly shaped.
    #[error("node {0} is badly shaped")]
    Shape(u32),
    /// The node is a lemma, a void or a leaf. This line is wrong in the derivation of this answer, which is 0 for a
    /// lemma or a void.
    #[error("node {0}: line {2} of the derivation of answer {1} is wrong")]
    Line(u32, u32, u32),
    /// The node is a grid, and this the first world of its part, by width, then by size, and then by height, at which
    /// the formula is false.
    #[error("node {0} has a world at which the formula is false")]
    Untrue(u32, World),
    /// The node is a leaf, in whose part the formula is false.
    #[error("the formula is false in the part of node {0}")]
    Unmet(u32),
    /// The node is a leaf. This answer is not to the difference that is asked for: that one, and its own.
    #[error("node {0}: answer {1} is not to the difference that is asked for")]
    Differs(u32, u32, Row, Row),
    /// The node is a leaf, and more is asked for than it has answers.
    #[error("node {0} has too few answers")]
    Short(u32),
    /// The node is a leaf, so many of whose answers are not asked for.
    #[error("node {0} has {1} answers too many")]
    Left(u32, u64),
    /// A number of the node is outside 128 bits: of a split's or a lemma's denial, on the way at a grid's worlds, or at
    /// a leaf.
    #[error("node {0} has a number outside 128 bits")]
    Coeff(u32),
}
