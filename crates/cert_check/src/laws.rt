//! What certificates and their verdicts have in common.
ghost use Rattle.std.specs.Prelude.{◌≤◌, ℕ, List, length};
ghost use Rattle.cert_text.specs.declared.certificate.Cert.{Cert};
ghost use Rattle.cert_text.specs.Texts.{CertText};
ghost use Rattle.cert_semantics.specs.Nodes.{nodes_of};
ghost use Rattle.cert_check.specs.Laws.{OneVerdict, RightHolds, UnitIsUnitRow, UnitsArePlain};

/// A job holds for which some certificate is right that is plainly computed.
pub fn right_holds()
    ensures { RightHolds }
{}

/// A certificate without leaves has one verdict, so each verdict comes exactly where its cause stands.
pub fn one_verdict_each()
    ensures { OneVerdict }
{}

/// The rows by which a rectangle is cut are those of one variable, which stands for an axis of the form, and the
/// coefficient 1 or -1.
pub fn unit_rows()
    ensures { UnitIsUnitRow }
{}

/// A certificate of unit splits and grids that has a text is plainly computed: its numbers stay in `i128`.
pub fn units_are_plain()
    ensures { UnitsArePlain }
{}

/// A certificate's text has at least as many bytes as the certificate has nodes.
pub fn no_more_nodes_than_bytes()
    ensures { (form : ℕ) (cert : Cert) (text : List ℕ) → CertText cert text
        → length (nodes_of form cert) ≤ length text }
{}
