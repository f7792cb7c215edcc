use crate::survey::Survey;
use crate::texts::node_length;
use crate::writer::written;
use cert_text::Cert;
use std::alloc::Global;
use viz_base::Mem;

/// The certificate with lemmas for one without, of a job of this form, where its text is shorter. None where it is not,
/// and where the certificate given is not of form 1. Whether it is right is for a checker to say. It takes memory for a
/// copy of the certificate, and a time that grows with the certificate's length times its depth.
pub fn with_lemmas(alloc: Global, form: u8, cert: &Cert) -> Result<Option<Cert>, Mem> {
    if cert.form != 1 {
        return Ok(None);
    }
    let survey = Survey::of(alloc, form, &cert.root)?;
    if survey.chosen.is_empty() {
        return Ok(None);
    }
    let shorter = Cert {
        form: 2,
        job: cert.job,
        root: written(alloc, form, &survey, &cert.root)?,
    };
    // The heads of both are as long.
    if node_length(&shorter.root) < node_length(&cert.root) {
        Ok(Some(shorter))
    } else {
        Ok(None)
    }
}
