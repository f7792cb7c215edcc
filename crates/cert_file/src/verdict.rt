//! What is found of the bytes of a certificate file.
use cert_check::Reject;

/// What was found of the bytes of a certificate file.
#[derive(Debug, Drop)]
pub enum FileVerdict {
    /// They are the texts of as many certificates as there are parts, each right for its part's job, which holds.
    Accepted,
    /// They are such texts, and the certificate of this part, counted from 0, is the first that is rejected.
    Rejected(u32, Reject),
    /// They are no such texts. The number is the length of their longest prefix that begins such a file.
    Grammar(u64),
}
