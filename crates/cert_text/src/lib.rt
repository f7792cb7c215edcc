//! Certificates, and their text in bytes: written and read back exactly.
#![tactic(auto)]

mod certificate;
mod cursor;
mod due;
mod laws;
mod node_lines;
mod nodes;
mod numbers;
mod pieces;
mod read;
mod spelling;
mod stream;
mod turn;
mod write;

pub use certificate::{Cert, CertFault, CertNode, Piece};
pub use laws::{
    no_more_nodes_than_bytes, no_text_begins_another, one_answer, one_certificate, one_spelling,
    whole_texts_are_given_whole,
};
pub use nodes::read_cert;
pub use spelling::has_spelling;
pub use stream::Reader;
pub use write::{push_row, write_cert};
