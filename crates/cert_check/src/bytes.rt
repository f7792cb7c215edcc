//! Certificates in bytes, judged node by node as they are read: none is ever whole in memory.
ghost use Rattle.std.specs.Prelude.{◌≡◌, ◌↔◌, ◌+◌, ◌<◌, ◌≤◌, ◌^◌, [], length, IfErr, IfOk, IsTrue};
ghost use Rattle.cert_text.specs.Pieces.{HasGiven, bytes_of};
ghost use Rattle.cert_text.specs.Texts.{CertText};
ghost use Rattle.cert_text.specs.declared.certificate.Cert.{Cert};
ghost use Rattle.cert_semantics.specs.Axes.{axis_count};
ghost use Rattle.cert_check.specs.Bytes.{IsBytesVerdict, IsFront};
ghost use Rattle.cert_check.specs.Right.{AreUnitsAndGrids, IsPlainlyComputed, Right};
ghost use Rattle.cert_check.specs.Truths.{Holds};
ghost use Rattle.cert_check.specs.declared.bytes.BytesVerdict.TheVariants.{Accepted, Grammar};
ghost use Rattle.cert_check.specs.steps.Stream.{HasFault, HeadsFor, IsFound, IsFoundOfAll, IsHead, IsOneMore, IsReadOn, of_verdict};

use crate::verdicts::{Reject, Verdict};
use crate::visits::Visits;
use crate::walk::Stop;
use cert_text::{CertFault, Piece, Reader};
use std::alloc::Global;
use viz_base::{Job, Mem};

/// What was found of the bytes of a certificate.
#[derive(Debug, Drop)]
pub enum BytesVerdict {
    /// The bytes spell a certificate that is right for the job, and the job holds.
    Accepted,
    /// They spell a certificate that is rejected, for this cause.
    Rejected(Reject),
    /// They spell none. The number is the length of their longest prefix that is a prefix of some certificate's text.
    Grammar(u64),
}

/// What was found of the bytes that begin with a certificate.
#[derive(Debug, Drop)]
pub enum Front {
    /// They begin with the text of a certificate. The verdict on it, and the length of its text.
    Judged(Verdict, u64),
    /// No certificate's text stands at their front. The number is the length of their longest prefix that is a prefix
    /// of some certificate's text.
    Grammar(u64),
}

/// Whether a piece is the head of a certificate for the job.
fn heads_for(job: &Job, piece: &Piece) -> bool
    ensures { IsTrue result ↔ HeadsFor job.now piece.now }
{
    match piece {
        Piece::Head { job: digest, .. } => *digest == job.digest,
        _ => false,
    }
}

/// Reads a certificate's head.
fn read_head(job: &Job, reader: &mut Reader<'_>) -> Result<bool, CertFault>
    requires { HasGiven reader.old [] }
    ensures bytes { bytes_of reader.new ≡ bytes_of reader.old }
    ensures head { IfOk result (λ is_head. IsHead job.now reader.new is_head) }
    ensures fault { IfErr result (λ fault. HasFault fault (bytes_of reader.old)) }
{
    match reader.next()? {
        Some(piece) => Ok(heads_for(job, &piece)),
        // No certificate's text is empty.
        None => Ok(false),
    }
}

/// Reads a certificate up to its end, or to the first node that is rejected.
fn judge(alloc: Global, job: &Job, reader: &mut Reader<'_>) -> Result<Verdict, CertFault>
    requires front { HasGiven reader.old [] }
    requires few { length (bytes_of reader.old) + axis_count job.now.form < 2 ^ 32 }
    ensures bytes { bytes_of reader.new ≡ bytes_of reader.old }
    ensures found { IfOk result (IsFound job.now reader.new) }
    ensures fault { IfErr result (λ fault. HasFault fault (bytes_of reader.old)) }
{
    if !read_head(job, reader)? {
        return Ok(Verdict::Rejected(Reject::OtherJob));
    }
    let mut visits = match Visits::new(alloc, job) {
        Ok(visits) => visits,
        Err(_) => return Err(CertFault::Mem),
    };
    let mut number = 0;
    while let Some(piece) = reader.next()? {
        match visits.visit(alloc, piece, number) {
            Ok(next) => number = next,
            Err(Stop::Mem) => return Err(CertFault::Mem),
            Err(Stop::Rejected(reject)) => return Ok(Verdict::Rejected(reject.into_inner())),
        }
    }
    Ok(Verdict::Accepted)
}

/// Reads one piece more, and tells whether there was one.
fn skip(reader: &mut Reader<'_>) -> Result<bool, CertFault>
    ensures bytes { bytes_of reader.new ≡ bytes_of reader.old }
    ensures one { IfOk result (λ some. IsOneMore reader.old some reader.new) }
    ensures fault { IfErr result (λ fault. HasFault fault (bytes_of reader.old)) }
{
    match reader.next()? {
        Some(_) => Ok(true),
        None => Ok(false),
    }
}

/// Reads a certificate to its end, whatever its nodes say.
fn read_rest(reader: &mut Reader<'_>) -> Result<(), CertFault>
    ensures bytes { bytes_of reader.new ≡ bytes_of reader.old }
    ensures rest { IfOk result (λ _. IsReadOn reader.old reader.new) }
    ensures fault { IfErr result (λ fault. HasFault fault (bytes_of reader.old)) }
{
    'rest: while skip(reader)? {}
    Ok(())
}

/// Reads a whole certificate, also behind a node that is rejected.
fn judge_whole(alloc: Global, job: &Job, reader: &mut Reader<'_>) -> Result<Verdict, CertFault>
    requires front { HasGiven reader.old [] }
    requires few { length (bytes_of reader.old) + axis_count job.now.form < 2 ^ 32 }
    ensures bytes { bytes_of reader.new ≡ bytes_of reader.old }
    ensures found { IfOk result (IsFoundOfAll job.now reader.new) }
    ensures fault { IfErr result (λ fault. HasFault fault (bytes_of reader.old)) }
{
    match judge(alloc, job, reader)? {
        Verdict::Accepted => Ok(Verdict::Accepted),
        Verdict::Rejected(reject) => {
            read_rest(reader)?;
            Ok(Verdict::Rejected(reject))
        }
    }
}

/// The verdict on bytes, `count` of them, where the first `length` are the text of a certificate with this verdict.
fn at_end(verdict: Verdict, length: u64, count: u64) -> BytesVerdict
    ensures behind { length < count → result ≡ Grammar length }
    ensures all { count ≤ length → result ≡ of_verdict verdict }
{
    if length < count {
        return BytesVerdict::Grammar(length);
    }
    match verdict {
        Verdict::Accepted => BytesVerdict::Accepted,
        Verdict::Rejected(reject) => BytesVerdict::Rejected(reject),
    }
}

/// The verdict on the certificate with whose text the bytes begin, for a job, and how long that text is; whoever made
/// them, and whatever stands behind. The certificate is never whole in memory: it holds what stands above a node, and
/// the node. The grammar's fault goes before every rejection. The only fault is want of memory.
pub fn check_front(alloc: Global, job: &Job, bytes: &[u8]) -> Result<Front, Mem>
    requires few { length bytes.now + axis_count job.now.form < 2 ^ 32 }
    ensures { IfOk result (λ front. IsFront job.now bytes.now front) }
{
    let mut reader = Reader::new(alloc, bytes);
    match judge_whole(alloc, job, &mut reader) {
        Ok(verdict) => Ok(Front::Judged(verdict, reader.place())),
        Err(CertFault::Mem) => Err(Mem),
        Err(CertFault::Grammar(at)) => Ok(Front::Grammar(at)),
    }
}

/// The verdict on the certificate that the bytes spell, for a job, and whether they spell one: as `check_front` has
/// it, where nothing stands behind. All else is as `check` has it. The only fault is want of memory.
///
/// This is the claim on a text as a whole. No program calls it: the certificates of a file's parts stand one behind
/// another, so each of them is read by `check_front`.
pub fn check_bytes(alloc: Global, job: &Job, bytes: &[u8]) -> Result<BytesVerdict, Mem>
    requires few { length bytes.now + axis_count job.now.form < 2 ^ 32 }
    ensures verdict { IfOk result (λ verdict. IsBytesVerdict job.now bytes.now verdict) }
    ensures exact { IfOk result (λ verdict. (cert : Cert) → CertText cert bytes.now
        → IsPlainlyComputed job.now cert → (verdict ≡ Accepted) ↔ Right job.now cert) }
    ensures units { IfOk result (λ verdict. (cert : Cert) → CertText cert bytes.now
        → AreUnitsAndGrids job.now cert → (verdict ≡ Accepted) ↔ Right job.now cert) }
    ensures holds { IfOk result (λ verdict. verdict ≡ Accepted → Holds job.now) }
{
    match check_front(alloc, job, bytes)? {
        Front::Judged(verdict, length) => Ok(at_end(verdict, length, bytes.len() as u64)),
        Front::Grammar(at) => Ok(BytesVerdict::Grammar(at)),
    }
}
