//! A job file and a certificate file.
ghost use Rattle.std.specs.Prelude.{◌≡◌, ◌≤◌, ◌∷◌, [], length, codes, IfOk};
ghost use Rattle.viz_replies.specs.Certificates.{cert_most};
ghost use Rattle.viz_replies.specs.Lines.{numbered};
ghost use Rattle.viz_replies.specs.steps.Answers.{AreSpelled};
ghost use Rattle.viz_renew.specs.steps.Read.{AreFilesRead};

use cert_file::read_file;
use cert_text::{Cert, CertFault};
use std::alloc::Global;
use viz_base::{Job, List, Mem};
use viz_replies::{
    Answer, CERT_MOST, JOB_MOST, JobsRead, Reply, long_certificate, long_job, numbered_line,
    read_jobs,
};

/// What the bytes of a job file and of a certificate file come to.
#[derive(Drop)]
pub enum FilesRead {
    /// The jobs of all parts, and a certificate for each, with the digest of the job.
    Read(List<Job>, List<Cert>),
    /// One of them is refused.
    Refused(Reply),
}

/// The reply where the certificates' grammar breaks behind so many bytes.
fn broken_grammar(alloc: Global, at: u64) -> Result<Reply, Mem>
    ensures { IfOk result (λ r. (r.answer ≡ Answer.CertRefused)
        × (r.output.items ≡ numbered (codes "rejected grammar") (at ∷ []))) }
{
    numbered_line(alloc, Answer::CertRefused, b"rejected grammar", &[at])
}

/// The certificates for these jobs, which the bytes of the job file spell.
fn read_certificates(
    alloc: Global,
    bytes: &[u8],
    jobs: List<Job>,
    cert: &[u8],
) -> Result<FilesRead, Mem>
    requires spelled { AreSpelled bytes.now jobs }
    requires short { length cert.now ≤ cert_most }
    ensures { IfOk result (AreFilesRead bytes.now cert.now) }
{
    match read_file(alloc, jobs.as_slice(), cert) {
        Ok(certs) => Ok(FilesRead::Read(jobs, certs)),
        Err(CertFault::Mem) => Err(Mem),
        Err(CertFault::Grammar(at)) => Ok(FilesRead::Refused(broken_grammar(alloc, at)?)),
    }
}

/// The jobs and certificates of both files, or the reply where one is refused: first a file that is too long, then the
/// job, then the certificates' grammar.
pub(crate) fn read_files(alloc: Global, job: &[u8], cert: &[u8]) -> Result<FilesRead, Mem>
    ensures { IfOk result (AreFilesRead job.now cert.now) }
{
    if job.len() > JOB_MOST {
        return Ok(FilesRead::Refused(long_job(alloc)?));
    }
    if cert.len() > CERT_MOST {
        return Ok(FilesRead::Refused(long_certificate(alloc)?));
    }
    match read_jobs(alloc, job)? {
        JobsRead::Read(jobs) => read_certificates(alloc, job, jobs, cert),
        JobsRead::Refused(reply) => Ok(FilesRead::Refused(reply)),
    }
}
