use cert_text::{CertFault, Piece, Reader};
use serde_json::Value;
use test_scribe::{Fault, Scribe};

/// The name of a piece.
fn name_of(piece: &Piece) -> &'static str {
    match piece {
        Piece::Head { form: 1, .. } => "Head 1",
        Piece::Head { .. } => "Head 2",
        Piece::Def(..) => "Def",
        Piece::Split(_) => "Split",
        Piece::Lemma(..) => "Lemma",
        Piece::Void(_) => "Void",
        Piece::Grid => "Grid",
        Piece::Leaf(_) => "Leaf",
    }
}

/// Tells the end of a reading: behind a certificate, or at the place from which on no certificate's text goes.
fn tell_end(scribe: &mut Scribe, end: Result<u64, CertFault>) {
    match end {
        Ok(taken) => scribe.tagged("End", &[taken]),
        Err(CertFault::Grammar(at)) => scribe.tagged("Grammar", &[at]),
        Err(CertFault::Mem) => scribe.fail(Fault::Mem),
    }
}

/// Tells the next piece, with the bytes taken up to its end, or the end, and whether there is a piece.
fn tell_next(scribe: &mut Scribe, reader: &mut Reader<'_>) -> bool {
    match reader.next() {
        Ok(Some(piece)) => {
            scribe.tagged(name_of(&piece), &[reader.place()]);
            true
        }
        Ok(None) => {
            tell_end(scribe, Ok(reader.place()));
            false
        }
        Err(fault) => {
            tell_end(scribe, Err(fault));
            false
        }
    }
}

/// The pieces with which a text begins as certificates are read, each with the bytes taken, and where this ends.
pub fn told(scribe: &mut Scribe, case: &Value) {
    let text = scribe.text_at(case, 1);
    let mut reader = Reader::new(scribe.alloc(), text.as_bytes());
    scribe.open();
    // There are fewer pieces than bytes, and the end is told once.
    for _ in 0..=text.len() {
        if !tell_next(scribe, &mut reader) {
            break;
        }
    }
    scribe.close();
}
