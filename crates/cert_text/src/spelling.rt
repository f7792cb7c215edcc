ghost use Rattle.std.specs.Prelude.{◌≡◌, ◌↔◌, ℕ, nat_lt, List, IsTrue};
ghost use Rattle.std.specs.List.{list_all};
ghost use Rattle.lin_proof.specs.Number.{in_i128};
ghost use Rattle.cert_text.specs.Texts.{CertText, answer_has_text, branch_has_text, cert_has_text, derivation_has_text, ending_has_text, is_form, is_num, job_has_text, node_has_text, part_has_text, row_has_text, step_has_text, terms_have_text};

use crate::certificate::{Cert, CertNode};
use lin_proof::{Answer, Branch, Derivation, Ending, Row, Step};

/// The form of a certificate that may have lemmas.
pub const WITH_LEMMAS: u8 = 2;

/// How many defs, splits and lemmas may stand one in another.
pub const MOST_LEVELS: u16 = 512;

/// How many cases may enclose each other.
pub const MOST_CASES: u8 = 64;

/// Whether a certificate has a text. One has none where its form is neither 1 nor 2 or is 1 and it has a lemma, where
/// defs, splits and lemmas or cases stand too deep, where a sum has no part, or where a multiple or a divisor is not
/// above 0.
pub fn has_spelling(cert: &Cert) -> bool
    ensures { IsTrue result ↔ ((bytes : List ℕ) × CertText cert.now bytes) }
{
    is_spelled(cert)
}

fn is_spelled(cert: &Cert) -> bool
    ensures { result ≡ cert_has_text cert.now }
{
    is_form(cert.form) && is_job(cert.job.as_slice()) && is_node(&cert.root, cert.form, MOST_LEVELS)
}

/// Whether certificates have this form.
fn is_form(form: u8) -> bool
    ensures { result ≡ is_form form }
{
    form == 1 || form == WITH_LEMMAS
}

/// Whether a digest has 32 bytes.
fn is_job(job: &[u8]) -> bool
    ensures { result ≡ job_has_text job.now }
{
    job.len() == 32 && are_bytes(job)
}

fn are_bytes(job: &[u8]) -> bool
    ensures { result ≡ list_all (λ b. nat_lt b 256) job.now }
{
    job.iter().all(|byte| u16::from(*byte) < 256)
}

fn is_row(row: &Row) -> bool
    ensures { result ≡ row_has_text row.now }
{
    is_constant(row.k) && are_terms(row.terms.as_slice())
}

/// Each constant has a text.
fn is_constant(k: i128) -> bool
    ensures { result ≡ in_i128 k }
{
    let _ = k;
    true
}

/// Whether variables strictly ascend and no coefficient is 0.
#[tactic(auto, using(crate::proofs::HavingText::term_by_term))]
fn are_terms(terms: &[(u32, i128)]) -> bool
    ensures { result ≡ terms_have_text 0 terms.now }
{
    let mut least = 0;
    for term in terms {
        if u64::from(term.0) < least || term.1 == 0 {
            return false;
        }
        least = u64::from(term.0) + 1;
    }
    true
}

/// A multiplier or divisor, and the number of a row.
fn is_part(times: i128, number: u32) -> bool
    ensures { result ≡ part_has_text (times, number) }
{
    let _ = number;
    times > 0
}

fn are_parts(parts: &[(i128, u32)]) -> bool
    ensures { result ≡ list_all part_has_text parts.now }
{
    parts.iter().all(|part| is_part(part.0, part.1))
}

/// Each number of a fact has a text.
fn is_num(number: u32) -> bool
    ensures { result ≡ is_num number }
{
    let _ = number;
    true
}

fn is_step(step: &Step) -> bool
    ensures { result ≡ step_has_text step.now }
{
    match step {
        Step::Fact(number) => is_num(*number),
        Step::Sum(parts) => parts.len() > 0 && are_parts(parts.as_slice()),
        Step::Cut(divisor, number) => is_part(*divisor, *number),
    }
}

fn are_steps(steps: &[Step]) -> bool
    ensures { result ≡ list_all step_has_text steps.now }
{
    steps.iter().all(|step| is_step(step))
}

#[cycle(spelling)]
fn is_derivation(d: &Derivation, cases: u8) -> bool
    ensures { result ≡ derivation_has_text d.now cases }
{
    are_steps(d.steps.as_slice()) && is_ending(&d.last, cases)
}

#[cycle(spelling)]
fn is_ending(ending: &Ending, cases: u8) -> bool
    ensures { result ≡ ending_has_text ending.now cases }
{
    match ending {
        Ending::Closed => true,
        Ending::Cases(branch) => is_branch(branch.get(), cases),
    }
}

#[cycle(spelling)]
fn is_branch(branch: &Branch, cases: u8) -> bool
    ensures { result ≡ branch_has_text branch.now cases }
{
    cases > 0
        && is_row(&branch.row)
        && is_derivation(&branch.first, cases - 1)
        && is_derivation(&branch.second, cases - 1)
}

fn is_answer(answer: &Answer) -> bool
    ensures { result ≡ answer_has_text answer.now }
{
    is_row(&answer.row) && is_derivation(&answer.why, MOST_CASES)
}

fn are_answers(answers: &[Answer]) -> bool
    ensures { result ≡ list_all answer_has_text answers.now }
{
    answers.iter().all(|answer| is_answer(answer))
}

/// Whether a node has a text in a certificate of this form, where at most `levels` defs, splits and lemmas may stand
/// one in another.
fn is_node(node: &CertNode, form: u8, levels: u16) -> bool
    ensures { result ≡ node_has_text form node.now levels }
{
    match node {
        CertNode::Def(row, divisor, below) => {
            levels > 0
                && is_row(row.get())
                && *divisor.get() > 0
                && is_node(below.get(), form, levels - 1)
        }
        CertNode::Split(row, first, second) => {
            levels > 0
                && is_row(row.get())
                && is_node(first.get(), form, levels - 1)
                && is_node(second.get(), form, levels - 1)
        }
        CertNode::Lemma(row, why, below) => {
            levels > 0
                && form == WITH_LEMMAS
                && is_row(row.get())
                && is_derivation(why.get(), MOST_CASES)
                && is_node(below.get(), form, levels - 1)
        }
        CertNode::Void(why) => is_derivation(why.get(), MOST_CASES),
        CertNode::Grid => true,
        CertNode::Leaf(answers) => are_answers(answers.as_slice()),
    }
}
