//! How many bytes the nodes of a certificate have in its text.
use crate::lengths::{int_length, row_length};
use crate::reach::derivation_length;
use cert_text::CertNode;
use lin_proof::Answer;

/// The length of a node's text, with all nodes below it.
pub fn node_length(node: &CertNode) -> u64 {
    match node {
        CertNode::Def(row, divisor, below) => 9u64
            .saturating_add(row_length(row.get()))
            .saturating_add(int_length(*divisor.get()))
            .saturating_add(node_length(below.get())),
        CertNode::Split(row, first, second) => 7u64
            .saturating_add(row_length(row.get()))
            .saturating_add(node_length(first.get()))
            .saturating_add(node_length(second.get())),
        CertNode::Lemma(row, why, below) => 7u64
            .saturating_add(row_length(row.get()))
            .saturating_add(derivation_length(why.get()))
            .saturating_add(node_length(below.get())),
        CertNode::Void(why) => derivation_length(why.get()).saturating_add(5),
        CertNode::Grid => 5,
        CertNode::Leaf(answers) => answers_length(answers.as_slice()).saturating_add(9),
    }
}

fn answers_length(answers: &[Answer]) -> u64 {
    let mut length = 0u64;
    for answer in answers {
        length = length.saturating_add(answer_length(answer));
    }
    length
}

fn answer_length(answer: &Answer) -> u64 {
    let word = if answer.yes { 4u64 } else { 3u64 };
    word.saturating_add(row_length(&answer.row))
        .saturating_add(1)
        .saturating_add(derivation_length(&answer.why))
}
