ghost use Rattle.std.specs.Prelude.{◌≡◌, ◌≤◌, ◌++◌, ℕ, List, [], length, Option, Result};
ghost use Rattle.cert_text.specs.declared.certificate.Cert.{Cert};
ghost use Rattle.cert_text.specs.declared.certificate.CertFault.{CertFault};
ghost use Rattle.cert_text.specs.declared.certificate.Piece.{Piece};
ghost use Rattle.cert_text.specs.Nodes.{node_count};
ghost use Rattle.cert_text.specs.Pieces.{AreOne, HasGiven, IsNext, Reading, cert_pieces};
ghost use Rattle.cert_text.specs.Texts.{CertText};

/// Each text has one certificate.
pub fn one_certificate()
    ensures { (first second : Cert) (text : List ℕ) → CertText first text → CertText second text
        → first ≡ second }
{}

/// Each certificate has at most one text.
pub fn one_spelling()
    ensures { (cert : Cert) (first second : List ℕ) → CertText cert first → CertText cert second
        → first ≡ second }
{}

/// No certificate's text begins another's.
pub fn no_text_begins_another()
    ensures { (first second : Cert) (text more : List ℕ) → CertText first text
        → CertText second (text ++ more) → more ≡ [] }
{}

/// A certificate has at most as many nodes as its text has bytes.
pub fn no_more_nodes_than_bytes()
    ensures { (cert : Cert) (text : List ℕ) → CertText cert text
        → node_count cert.root ≤ length text }
{}

/// A reader whose bytes taken are a whole certificate's text has given that certificate's pieces, and no others.
pub fn whole_texts_are_given_whole()
    ensures { (reading : Reading) (given : List Piece) (cert : Cert) → HasGiven reading given
        → CertText cert reading.taken → given ≡ cert_pieces cert }
{}

/// A reader answers one thing, and after none or a fault of the text the same again, but for want of memory.
pub fn one_answer()
    ensures { (reading one other : Reading) (given : List Piece)
        (first second : Result (Option Piece) CertFault) → HasGiven reading given
        → IsNext reading first one → IsNext reading second other → AreOne first one second other }
{}
