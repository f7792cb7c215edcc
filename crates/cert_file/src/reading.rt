//! The certificates of a file, read for the jobs of its parts.
ghost use Rattle.std.specs.Prelude.{◌≡◌, length, IsTrue, IfErr, IfOk, MatchResult, OnOk};
ghost use Rattle.cert_text.specs.Texts.{CertText, job_has_text};
ghost use Rattle.cert_text.specs.declared.certificate.Cert.{Cert};
ghost use Rattle.cert_check.specs.steps.Stream.{HasFault};
ghost use Rattle.cert_file.specs.Files.{AreReadFor, IsFileFault, with_digest};
ghost use Rattle.cert_file.specs.steps.Reads.{IsReadFront, IsReadMore};

use crate::checking::text_length;
use cert_text::{Cert, CertFault, read_cert};
use std::alloc::Global;
use viz_base::{Job, List};

/// The certificate with this digest put in, which has a text where the certificate had one.
fn with_digest(cert: Cert, digest: &[u8; 32]) -> Cert
    ensures cert { result ≡ with_digest digest.now cert }
    ensures spelled { IsTrue (job_has_text digest.now) }
{
    // This read tells that they are bytes.
    let _bytes = digest.as_slice();
    Cert {
        form: cert.form,
        job: *digest,
        root: cert.root,
    }
}

/// A certificate, and the length of its text.
#[derive(Drop)]
pub struct Front {
    pub cert: Cert,
    /// How many bytes its text has.
    pub length: usize,
}

/// The certificate with whose text the bytes begin.
fn read_front(alloc: Global, bytes: &[u8]) -> Result<Front, CertFault>
    ensures read { IfOk result (IsReadFront bytes.now) }
    ensures fault { IfErr result (λ fault. HasFault fault bytes.now) }
{
    let length = text_length(alloc, bytes)? as usize;
    match read_cert(alloc, &bytes[..length]) {
        Ok(cert) => Ok(Front { cert, length }),
        Err(CertFault::Mem) => Err(CertFault::Mem),
        // These bytes are a certificate's text.
        Err(CertFault::Grammar(_)) => unreachable!(),
    }
}

/// Reads the certificate with whose text the bytes begin behind others, for a part's job. Gives the length of the text.
fn read_more(
    alloc: Global,
    certs: &mut List<Cert>,
    job: &Job,
    bytes: &[u8],
) -> Result<usize, CertFault>
    ensures read { IfOk result (IsReadMore job.now bytes.now certs.old certs.new) }
    ensures fault { IfErr result (λ fault. HasFault fault bytes.now) }
{
    let front = read_front(alloc, bytes)?;
    match certs.push(with_digest(front.cert, &job.digest)) {
        Ok(()) => Ok(front.length),
        Err(_) => Err(CertFault::Mem),
    }
}

/// The certificates of a file, one for each part and one behind another, each with the digest of its part's job in
/// place of its own; whether they are right isn't asked. Faults: `Mem`, want of memory; `Grammar(at)`, exactly where
/// the bytes are no file of as many certificates, at being the length of their longest prefix that begins one.
pub fn read_file(alloc: Global, jobs: &[Job], bytes: &[u8]) -> Result<List<Cert>, CertFault>
    ensures { MatchResult result (AreReadFor jobs.now bytes.now)
        (λ fault. IsFileFault fault (length jobs.now) bytes.now) }
{
    let mut certs = List::new(alloc);
    let mut at = 0;
    for job in jobs {
        match read_more(alloc, &mut certs, job, &bytes[at..]) {
            Ok(length) => at += length,
            Err(CertFault::Mem) => return Err(CertFault::Mem),
            Err(CertFault::Grammar(here)) => return Err(CertFault::Grammar(at as u64 + here)),
        }
    }
    if at < bytes.len() {
        return Err(CertFault::Grammar(at as u64));
    }
    Ok(certs)
}
