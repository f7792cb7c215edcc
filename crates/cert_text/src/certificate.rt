use lin_proof::{Answer, Derivation, Row};
use thiserror::Error;
use viz_base::{Boxed, List};

/// Why a page's assertion holds at every world of its range.
#[derive(Drop)]
pub struct Cert {
    /// Its form: 1, or 2 where it may have lemmas. One of another form has no text.
    pub form: u8,
    /// SHA-256 of the job's bytes.
    pub job: [u8; 32],
    /// How the whole range is decided.
    pub root: CertNode,
}

/// A part of the range, and how it is decided there. Whatever a node says, it takes 32 bytes: what is larger lies in
/// boxes, so that a grid beside a split does not take a row's room.
#[derive(Drop)]
pub enum CertNode {
    /// In the part below, the next variable is the row divided by a number and rounded down.
    Def(Boxed<Row>, Boxed<i128>, Boxed<CertNode>),
    /// The row is at least 0 in the first part, and below 0 in the second.
    Split(Boxed<Row>, Boxed<CertNode>, Boxed<CertNode>),
    /// The row is at least 0 in the whole part, since a derivation refutes the part's facts followed by the row's
    /// denial; below, the row is a fact.
    Lemma(Boxed<Row>, Boxed<Derivation>, Boxed<CertNode>),
    /// The part has no world: a derivation refutes its facts.
    Void(Boxed<Derivation>),
    /// Each world of the part is laid out by itself.
    Grid,
    /// The part is laid out as a whole, and each comparison of the layout is answered in turn.
    Leaf(List<Answer>),
}

/// A part of a certificate: its head, or a node without the nodes below it. Its lines stand together in the text, the
/// head's first, and then those of the nodes in preorder.
#[derive(Drop)]
pub enum Piece {
    /// The first two lines.
    Head {
        /// The certificate's form, 1 or 2.
        form: u8,
        /// SHA-256 of the job's bytes.
        job: [u8; 32],
    },
    /// A def: the next variable is the row divided by the number and rounded down. One node is below it.
    Def(Row, i128),
    /// A split by the row's sign. Two nodes are below it.
    Split(Row),
    /// A lemma: the row is at least 0 by the derivation. One node is below it.
    Lemma(Row, Derivation),
    /// A void, and why it has no world.
    Void(Derivation),
    /// A grid.
    Grid,
    /// A leaf's answers.
    Leaf(List<Answer>),
}

/// Why bytes are read as no certificate.
#[derive(Clone, Copy, Debug, PartialEq, Eq, Error)]
pub enum CertFault {
    /// Want of memory.
    #[error("out of memory")]
    Mem,
    /// The bytes are no certificate's text. The number is the length of their longest prefix that
    /// is a prefix of some certificate's text.
    #[error("no certificate: byte {0}")]
    Grammar(u64),
}
