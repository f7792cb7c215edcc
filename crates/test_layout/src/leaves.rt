use cert_check::{Verdict, check_leaf};
use cert_text::{CertNode, read_cert};
use lin_proof::Answer;
use serde_json::Value;
use std::alloc::Global;
use sym_calc::{Path, Sym};
use test_scribe::{Fault, Scribe, built};
use viz_base::{Job, Mem};

/// The verdict on the answers of a root that is a leaf.
fn verdict(alloc: Global, job: &Job, answers: &[Answer]) -> Result<Verdict, Mem> {
    let path = Path::new(alloc, job.form, job.range)?;
    let mut sym = Sym::new(&path, answers);
    check_leaf(alloc, job, 0, &mut sym)
}

/// Tells the verdict on the answers of a root that is a leaf.
fn leaf(scribe: &mut Scribe, job: &Job, answers: &[Answer]) {
    match verdict(scribe.alloc(), job, answers) {
        Ok(verdict) => scribe.name(&verdict),
        Err(fault) => scribe.fail(fault.into()),
    }
}

/// The verdict on a root that is a leaf.
fn root(scribe: &mut Scribe, job: &Job, node: &CertNode) {
    match node {
        CertNode::Leaf(answers) => leaf(scribe, job, answers.as_slice()),
        _ => scribe.fail(Fault::NoCase),
    }
}

/// The verdict on a root over the job of a case.
fn judge(scribe: &mut Scribe, case: &Value, node: &CertNode) {
    if let Some(job) = built(scribe, case) {
        root(scribe, &job, node);
    }
}

/// The verdict on a certificate of one leaf, given the job and the certificate.
pub fn judged(scribe: &mut Scribe, case: &Value) {
    let text = scribe.text_at(case, 2);
    let cert = read_cert(scribe.alloc(), text.as_bytes());
    if let Some(cert) = scribe.kept(cert) {
        judge(scribe, case, &cert.root);
    }
}
