//! The renewal of the certificates of all parts.
ghost use Rattle.std.specs.Prelude.{◌≡◌, ◌+◌, ◌≤◌, ◌<◌, ◌^◌, ℕ, List, length, IfOk};
ghost use Rattle.cert_text.specs.Texts.{CertText};
ghost use Rattle.cert_semantics.specs.Axes.{axis_count};
ghost use Rattle.cert_semantics.specs.Nodes.{nodes_of};
ghost use Rattle.cert_file.specs.Files.{AreTexts};
ghost use Rattle.prove_search.specs.Outcomes.{plain_most};
ghost use Rattle.viz_renew.specs.steps.Read.{HaveFewNodes};
ghost use Rattle.viz_renew.specs.steps.Renew.{AreJudged, IsJudged, IsRenewalSearch, IsRenewalStep};

use cert_check::{Verdict, check};
use cert_text::{Cert, write_cert};
use prove_search::is_proof;
use std::alloc::Global;
use viz_base::{Job, Mem};
use viz_replies::{Found, part_most, search_part};

/// Whether a certificate is of form 1 and accepted for a job.
fn stands(alloc: Global, job: &Job, cert: &Cert) -> Result<bool, Mem>
    requires few { length (nodes_of job.now.form cert.now) + axis_count job.now.form < 2 ^ 32 }
    requires text { (text : List ℕ) × CertText cert.now text }
    ensures { IfOk result (IsJudged job.now cert.now) }
{
    if cert.form != 1 {
        return Ok(false);
    }
    match check(alloc, job, cert)? {
        Verdict::Accepted => {}
        Verdict::Rejected(_) => return Ok(false),
    }
    Ok(true)
}

/// Whether each certificate is of form 1 and accepted for its part's job.
pub(crate) fn all_stand(alloc: Global, jobs: &[Job], certs: &[Cert]) -> Result<bool, Mem>
    requires as_many { length certs.now ≡ length jobs.now }
    requires few { HaveFewNodes certs.now }
    requires texts { (texts : List ℕ) × AreTexts certs.now texts }
    ensures { IfOk result (AreJudged jobs.now certs.now) }
{
    for at in 0..jobs.len() {
        let good = stands(alloc, &jobs[at], &certs[at])?;
        if !good {
            return Ok(false);
        }
    }
    Ok(true)
}

/// The texts of certificates, one behind another.
pub(crate) fn texts_of(alloc: Global, certs: &[Cert]) -> Result<Vec<u8>, Mem>
    requires { (texts : List ℕ) × AreTexts certs.now texts }
    ensures { IfOk result (λ texts. AreTexts certs.now texts.items) }
{
    let mut texts = Vec::new(alloc);
    for cert in certs {
        let text = write_cert(alloc, cert)?;
        texts.extend_from_slice(text.as_slice())?;
    }
    Ok(texts)
}

/// Puts the text of a part's certificate behind the others, if it still proves the part's job, or else that of one that
/// is searched; or why there is none.
fn renew_part(
    alloc: Global,
    job: &Job,
    cert: &Cert,
    turns: u64,
    most: u64,
    texts: &mut Vec<u8>,
) -> Result<Option<Found>, Mem>
    requires { plain_most ≤ most }
    ensures { IfOk result (IsRenewalStep turns most job.now texts.old.items texts.new.items) }
{
    let still = is_proof(alloc, job, cert, most)?;
    if !still {
        return search_part(alloc, job, turns, most, texts);
    }
    let text = write_cert(alloc, cert)?;
    texts.extend_from_slice(text.as_slice())?;
    Ok(None)
}

/// Renews the certificates of all parts, each with so many turns, up to the first whose job isn't proved.
pub(crate) fn renew(alloc: Global, jobs: &[Job], certs: &[Cert], turns: u64) -> Result<Found, Mem>
    requires some { 0 < length jobs.now }
    requires few { length jobs.now ≤ 12 }
    requires as_many { length certs.now ≡ length jobs.now }
    ensures { IfOk result (IsRenewalSearch turns jobs.now) }
{
    let most = part_most(jobs.len());
    let mut texts = Vec::new(alloc);
    for at in 0..jobs.len() {
        if let Some(end) = renew_part(alloc, &jobs[at], &certs[at], turns, most, &mut texts)? {
            return Ok(end);
        }
    }
    Ok(Found::Proved(texts))
}
