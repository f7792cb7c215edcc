//! What a finding has to pass, whoever made it.
ghost use Rattle.std.specs.Prelude.{◌≡◌, ◌↔◌, ◌+◌, ◌-◌, ◌≤◌, ◌<◌, ◌^◌, ℕ, List, length, IsTrue, IfOk, IfSome, MatchOption};
ghost use Rattle.viz_base.specs.Worlds.{world_count};
ghost use Rattle.cert_text.specs.declared.certificate.CertNode.TheVariants.{Grid};
ghost use Rattle.cert_text.specs.Texts.{CertText};
ghost use Rattle.cert_check.specs.Truths.{Holds};
ghost use Rattle.prove_search.specs.Outcomes.{IsViolation, IsOutcome, IsProof, Decides, has_lemma};
ghost use Rattle.prove_search.specs.steps.Turns.{AreLeft, IsWithinBounds};

use crate::outcome::Outcome;
use crate::plain::MOST_WORLDS;
use cert_check::{Reject, Verdict, check, holds_at};
use cert_lemmas::with_lemmas;
use cert_text::{Cert, CertNode, has_spelling, write_cert};
use path_search::Finding;
use std::alloc::Global;
use viz_base::{Job, Mem, World, lies_in, world_count};

/// The most bytes that a certificate's text may have: 64 MiB.
pub const MOST_BYTES: u64 = 1 << 26;

/// What is left of the turns where each grid and leaf of a node takes one; None where there are fewer turns.
fn left_after(node: &CertNode, turns: u64) -> Option<u64>
    ensures { AreLeft node.now turns result }
{
    match node {
        CertNode::Def(_, _, below) => left_after(below.get(), turns),
        CertNode::Lemma(_, _, below) => left_after(below.get(), turns),
        CertNode::Split(_, first, second) => {
            let left = left_after(first.get(), turns)?;
            left_after(second.get(), left)
        }
        CertNode::Void(_) => Some(turns),
        CertNode::Grid | CertNode::Leaf(_) => turns.checked_sub(1),
    }
}

/// Whether a node has a lemma, itself or below it.
fn has_lemma(node: &CertNode) -> bool
    ensures { result ≡ has_lemma node.now }
{
    match node {
        CertNode::Def(_, _, below) => has_lemma(below.get()),
        CertNode::Split(_, first, second) => has_lemma(first.get()) || has_lemma(second.get()),
        CertNode::Lemma(_, _, _) => true,
        CertNode::Void(_) | CertNode::Grid | CertNode::Leaf(_) => false,
    }
}

/// Whether a certificate is of form 2 where it has lemmas, and of another form where it has none.
fn is_of_its_form(cert: &Cert) -> bool
    ensures { IsTrue result → (cert.now.form ≡ 2) ↔ IsTrue (has_lemma cert.now.root) }
{
    (cert.form == 2) == has_lemma(&cert.root)
}

/// The text of a certificate that has one, where it has at most so many bytes. The only fault is want of memory.
fn short_text(alloc: Global, cert: &Cert, most: u64) -> Result<Option<Vec<u8>>, Mem>
    requires { (text : List ℕ) × CertText cert.now text }
    ensures { IfOk result (λ found. MatchOption found ((text : List ℕ) → CertText cert.now text → most < length text)
        (λ text. CertText cert.now text.items × (length text.items ≤ most))) }
{
    let text = write_cert(alloc, cert)?;
    if text.len() as u64 <= most {
        Ok(Some(text))
    } else {
        Ok(None)
    }
}

/// Whether a certificate is one grid, as it has to be for a range of at most 64 worlds, or the range has more.
fn is_grid_of_few(job: &Job, cert: &Cert) -> bool
    ensures { IsTrue result → world_count job.now.range ≤ 64 → cert.now.root ≡ Grid }
{
    world_count(job.range) > MOST_WORLDS || matches!(cert.root, CertNode::Grid)
}

/// The text of a certificate within bounds: it has one of at most `most` bytes and 64 MiB, and at most as many grids
/// and leaves as turns, is one grid for a range of at most 64 worlds, and is of form 2 exactly where it has lemmas. The
/// only fault is want of memory.
fn text_within(
    alloc: Global,
    job: &Job,
    cert: &Cert,
    turns: u64,
    most: u64,
) -> Result<Option<Vec<u8>>, Mem>
    ensures { IfOk result (λ found. IfSome found
        (λ text. IsWithinBounds job.now turns most cert.now text.items)) }
{
    if !has_spelling(cert) || left_after(&cert.root, turns).is_none() {
        return Ok(None);
    }
    if !is_of_its_form(cert) || !is_grid_of_few(job, cert) {
        return Ok(None);
    }
    short_text(alloc, cert, most.min(MOST_BYTES))
}

/// Whether a certificate, whoever made it, proves a job in at most `most` bytes, however many grids and leaves it has.
/// The only fault is want of memory.
#[tactic(auto, using(crate::proofs::Judged::passes_proves))]
pub fn is_proof(alloc: Global, job: &Job, cert: &Cert, most: u64) -> Result<bool, Mem>
    ensures { IfOk result (λ yes. IsTrue yes → IsProof job.now (2 ^ 64 - 1) most cert.now) }
{
    let Some(_text) = text_within(alloc, job, cert, u64::MAX, most)? else {
        return Ok(false);
    };
    match check(alloc, job, cert)? {
        Verdict::Accepted => Ok(true),
        Verdict::Rejected(_) => Ok(false),
    }
}

/// What stands of a certificate, where there are turns: within bounds it proves the job, or the formula is false at the
/// world of a grid that the checker names. None where it is wrong otherwise. The only fault is want of memory.
#[tactic(auto, using(crate::proofs::Judged::passes_proves, crate::proofs::Judged::untrue_violates))]
fn gated(
    alloc: Global,
    job: &Job,
    cert: &Cert,
    turns: u64,
    most: u64,
) -> Result<Option<Outcome>, Mem>
    requires { 0 < turns }
    ensures outcome { IfOk result (λ kept. IfSome kept (IsOutcome job.now turns most)) }
    ensures decides { IfOk result (λ kept. IfSome kept
        (λ outcome. Decides outcome (Holds job.now))) }
{
    let Some(text) = text_within(alloc, job, cert, turns, most)? else {
        return Ok(None);
    };
    match check(alloc, job, cert)? {
        Verdict::Accepted => Ok(Some(Outcome::Proved(text))),
        Verdict::Rejected(Reject::Untrue(_, world)) => Ok(Some(Outcome::Violated(world))),
        Verdict::Rejected(_) => Ok(None),
    }
}

/// What stands of a certificate with lemmas where these make it shorter, or else of it as it is, where there are turns.
/// The only fault is want of memory.
fn proved(
    alloc: Global,
    job: &Job,
    cert: &Cert,
    turns: u64,
    most: u64,
) -> Result<Option<Outcome>, Mem>
    requires { 0 < turns }
    ensures outcome { IfOk result (λ kept. IfSome kept (IsOutcome job.now turns most)) }
    ensures decides { IfOk result (λ kept. IfSome kept
        (λ outcome. Decides outcome (Holds job.now))) }
{
    if let Some(shorter) = with_lemmas(alloc, job.form, cert)? {
        let kept = gated(alloc, job, &shorter, turns, most)?;
        if kept.is_some() {
            return Ok(kept);
        }
    }
    gated(alloc, job, cert, turns, most)
}

/// Whether a job's formula is false at a world of its range. The only fault is want of memory.
pub fn is_violation(alloc: Global, job: &Job, world: World) -> Result<bool, Mem>
    ensures { IfOk result (λ yes. IsTrue yes ↔ IsViolation job.now job.now.range world) }
{
    // The search looks at worlds of its parts; that these lie in the range is not proved of it.
    if !lies_in(job.range, world) {
        return Ok(false);
    }
    Ok(!holds_at(alloc, job, world)?)
}

/// What stands of a finding, where there are turns: the text, of at most `most` bytes, of a certificate that proves the
/// job within them, or a world of its range at which its formula is false, which may be one of a certificate's grids.
/// Nothing is taken on trust. The only fault is want of memory.
pub fn confirmed(
    alloc: Global,
    job: &Job,
    finding: Finding,
    turns: u64,
    most: u64,
) -> Result<Option<Outcome>, Mem>
    ensures outcome { IfOk result (λ kept. IfSome kept (IsOutcome job.now turns most)) }
    ensures decides { IfOk result (λ kept. IfSome kept
        (λ outcome. Decides outcome (Holds job.now))) }
{
    if turns == 0 {
        return Ok(None);
    }
    match finding {
        Finding::Proof(cert) => proved(alloc, job, &cert, turns, most),
        Finding::World(world) => {
            if is_violation(alloc, job, world)? {
                Ok(Some(Outcome::Violated(world)))
            } else {
                Ok(None)
            }
        }
        Finding::Nothing => Ok(None),
    }
}
