//! The certificates of a file, one behind another.
ghost use Rattle.std.specs.Prelude.{◌≡◌, ◌+◌, ◌<◌, ◌^◌, length, IfErr, IfOk};
ghost use Rattle.cert_text.specs.Pieces.{bytes_of};
ghost use Rattle.cert_semantics.specs.Axes.{axis_count};
ghost use Rattle.cert_check.specs.steps.Stream.{HasFault, IsOneMore};
ghost use Rattle.cert_file.specs.Files.{IsFileVerdict};
ghost use Rattle.cert_file.specs.steps.UpTo.{HasText, IsFound, IsJudged, wrong_of};

use crate::verdict::FileVerdict;
use cert_check::{Front, Reject, Verdict, check_front};
use cert_text::{CertFault, Reader};
use std::alloc::Global;
use viz_base::{Job, Mem};

/// The first certificate that is rejected: the number of its part, and why.
#[derive(Drop)]
struct Wrong {
    part: u32,
    reject: Reject,
}

/// What stands at the front of the bytes behind the certificates of some parts.
#[derive(Drop)]
enum Found {
    /// The text of the next part's certificate, and the first certificate that is rejected up to there.
    Read { length: u64, wrong: Option<Wrong> },
    /// No certificate's text. The number is the length of the longest prefix of these bytes that begins one.
    Grammar(u64),
}

/// Reads one piece more, and tells whether there was one.
fn skip(reader: &mut Reader<'_>) -> Result<bool, CertFault>
    ensures bytes { bytes_of reader.new ≡ bytes_of reader.old }
    ensures one { IfOk result (λ some. IsOneMore reader.old some reader.new) }
    ensures fault { IfErr result (λ fault. HasFault fault (bytes_of reader.old)) }
{
    match reader.next()? {
        Some(_) => Ok(true),
        None => Ok(false),
    }
}

/// How long the text of the certificate is with which the bytes begin.
pub(crate) fn text_length(alloc: Global, bytes: &[u8]) -> Result<u64, CertFault>
    ensures text { IfOk result (HasText bytes.now) }
    ensures fault { IfErr result (λ fault. HasFault fault bytes.now) }
{
    let mut reader = Reader::new(alloc, bytes);
    'rest: while skip(&mut reader)? {}
    Ok(reader.place())
}

/// What is wrong with the certificate of a part, if anything is.
fn wrong_of(part: u32, verdict: Verdict) -> Option<Wrong>
    ensures { result ≡ wrong_of part verdict }
{
    match verdict {
        Verdict::Accepted => None,
        Verdict::Rejected(reject) => Some(Wrong { part, reject }),
    }
}

/// Judges the certificate of a part.
fn judged(alloc: Global, job: &Job, part: u32, bytes: &[u8]) -> Result<Found, Mem>
    requires few { length bytes.now + axis_count job.now.form < 2 ^ 32 }
    ensures { IfOk result (IsJudged job.now part bytes.now) }
{
    match check_front(alloc, job, bytes)? {
        Front::Judged(verdict, length) => Ok(Found::Read {
            length,
            wrong: wrong_of(part, verdict),
        }),
        Front::Grammar(at) => Ok(Found::Grammar(at)),
    }
}

/// Reads the certificate of a part, and judges it unless one before it is rejected.
fn read_part(
    alloc: Global,
    job: &Job,
    part: u32,
    bytes: &[u8],
    wrong: Option<Wrong>,
) -> Result<Found, Mem>
    requires few { length bytes.now + axis_count job.now.form < 2 ^ 32 }
    ensures { IfOk result (IsFound job.now part bytes.now wrong) }
{
    let Some(wrong) = wrong else {
        return judged(alloc, job, part, bytes);
    };
    match text_length(alloc, bytes) {
        Ok(length) => Ok(Found::Read {
            length,
            wrong: Some(wrong),
        }),
        Err(CertFault::Mem) => Err(Mem),
        Err(CertFault::Grammar(at)) => Ok(Found::Grammar(at)),
    }
}

/// The verdict on a certificate file, for the jobs of all parts: as many certificates as parts, one behind another. The
/// grammar's fault, over the whole file, goes before every rejection. No certificate is ever whole in memory. The only
/// fault is want of memory.
pub fn check_file(alloc: Global, jobs: &[Job], bytes: &[u8]) -> Result<FileVerdict, Mem>
    requires few { length bytes.now + 3 < 2 ^ 32 }
    requires parts { length jobs.now < 2 ^ 32 }
    ensures { IfOk result (IsFileVerdict jobs.now bytes.now) }
{
    let mut at = 0;
    let mut wrong = None;
    for (number, job) in jobs.iter().enumerate() {
        match read_part(alloc, job, number as u32, &bytes[at..], wrong)? {
            Found::Read {
                length,
                wrong: first,
            } => {
                at += length as usize;
                wrong = first;
            }
            Found::Grammar(length) => return Ok(FileVerdict::Grammar(at as u64 + length)),
        }
    }
    if at < bytes.len() {
        return Ok(FileVerdict::Grammar(at as u64));
    }
    match wrong {
        None => Ok(FileVerdict::Accepted),
        Some(first) => Ok(FileVerdict::Rejected(first.part, first.reject)),
    }
}
