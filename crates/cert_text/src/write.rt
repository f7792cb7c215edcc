ghost use Rattle.std.specs.Prelude.{◌≡◌, ◌++◌, ℕ, pos, List, IfOk, OnOk};
ghost use Rattle.std.specs.List.{flat_map};
ghost use Rattle.hex.specs.Hex.{encode_lower};
ghost use Rattle.cert_text.specs.steps.Write.{int_bytes, term_bytes, row_bytes};
ghost use Rattle.cert_text.specs.declared.certificate.Piece.TheVariants.{Head, Def, Split, Lemma, Void, Leaf};
ghost use Rattle.cert_text.specs.Texts.{CertText, answer_text, answer_word, branch_text, cert_text, derivation_text, ending_text, node_text, part_text, piece_text, step_text};

use crate::certificate::{Cert, CertNode};
use itoa::Buffer;
use lin_proof::{Answer, Branch, Derivation, Ending, Row, Step};
use std::alloc::{AllocError, Global};
use viz_base::Mem;

/// The text of a certificate that has one. The only fault is want of memory.
pub fn write_cert(alloc: Global, cert: &Cert) -> Result<Vec<u8>, Mem>
    requires { (bytes : List ℕ) × CertText cert.now bytes }
    ensures { IfOk result (λ text. CertText cert.now text.items) }
{
    let mut text = Vec::new(alloc);
    push_cert(&mut text, cert)?;
    Ok(text)
}

fn push_cert(text: &mut Vec<u8>, cert: &Cert) -> Result<(), AllocError>
    ensures { OnOk result (text.new.items ≡ text.old.items ++ cert_text cert.now) }
{
    push_head(text, cert.form, &cert.job)?;
    push_node(text, &cert.root)
}

fn push_form(text: &mut Vec<u8>, form: u8) -> Result<(), AllocError>
    ensures { OnOk result (text.new.items ≡ text.old.items ++ int_bytes (pos form)) }
{
    push_int(text, i128::from(form))
}

/// The first two lines.
fn push_head(text: &mut Vec<u8>, form: u8, job: &[u8; 32]) -> Result<(), AllocError>
    ensures { OnOk result (text.new.items ≡ text.old.items ++ piece_text (Head form job.now)) }
{
    let digits = digits_of(job);
    text.extend_from_slice(b"vizlog-cert ")?;
    push_form(text, form)?;
    text.extend_from_slice(b"\njob ")?;
    text.extend_from_slice(&digits)?;
    text.extend_from_slice(b"\n")?;
    Ok(())
}

/// 32 bytes in hex, with lower case letters.
fn digits_of(job: &[u8; 32]) -> [u8; 64]
    ensures { result ≡ encode_lower job.now }
{
    let mut digits = [0; 64];
    let _ = hex::encode_to_slice(job.as_slice(), &mut digits);
    digits
}

/// A number in decimal digits.
fn push_int(text: &mut Vec<u8>, number: i128) -> Result<(), AllocError>
    ensures { OnOk result (text.new.items ≡ text.old.items ++ int_bytes number) }
{
    let mut buffer = Buffer::new();
    text.extend_from_slice(buffer.format(number).as_bytes())
}

fn push_term(text: &mut Vec<u8>, term: (u32, i128)) -> Result<(), AllocError>
    ensures { OnOk result (text.new.items ≡ text.old.items ++ term_bytes term) }
{
    text.extend_from_slice(b" ")?;
    push_int(text, i128::from(term.0))?;
    text.extend_from_slice(b":")?;
    push_int(text, term.1)?;
    Ok(())
}

/// A row: its constant, and its terms.
pub fn push_row(text: &mut Vec<u8>, row: &Row) -> Result<(), AllocError>
    ensures { OnOk result (text.new.items ≡ text.old.items ++ row_bytes row.now) }
{
    push_int(text, row.k)?;
    for term in row.terms.as_slice() {
        push_term(text, *term)?;
    }
    Ok(())
}

/// A multiple of a row, and the row's number.
fn push_part(text: &mut Vec<u8>, part: (i128, u32)) -> Result<(), AllocError>
    ensures { OnOk result (text.new.items ≡ text.old.items ++ part_text part) }
{
    text.extend_from_slice(b" ")?;
    push_int(text, part.0)?;
    text.extend_from_slice(b":")?;
    push_int(text, i128::from(part.1))?;
    Ok(())
}

fn push_parts(text: &mut Vec<u8>, parts: &[(i128, u32)]) -> Result<(), AllocError>
    ensures { OnOk result (text.new.items ≡ text.old.items ++ flat_map part_text parts.now) }
{
    for part in parts {
        push_part(text, *part)?;
    }
    Ok(())
}

fn push_step(text: &mut Vec<u8>, step: &Step) -> Result<(), AllocError>
    ensures { OnOk result (text.new.items ≡ text.old.items ++ step_text step.now) }
{
    match step {
        Step::Fact(number) => {
            text.extend_from_slice(b"fact ")?;
            push_int(text, i128::from(*number))?;
        }
        Step::Sum(parts) => {
            text.extend_from_slice(b"sum")?;
            push_parts(text, parts.as_slice())?;
        }
        Step::Cut(divisor, number) => {
            text.extend_from_slice(b"cut")?;
            push_part(text, (*divisor, *number))?;
        }
    }
    text.extend_from_slice(b"\n")
}

#[cycle(push)]
fn push_derivation(text: &mut Vec<u8>, d: &Derivation) -> Result<(), AllocError>
    ensures { OnOk result (text.new.items ≡ text.old.items ++ derivation_text d.now) }
{
    push_steps(text, d.steps.as_slice())?;
    push_ending(text, &d.last)
}

fn push_steps(text: &mut Vec<u8>, steps: &[Step]) -> Result<(), AllocError>
    ensures { OnOk result (text.new.items ≡ text.old.items ++ flat_map step_text steps.now) }
{
    for step in steps {
        push_step(text, step)?;
    }
    Ok(())
}

#[cycle(push)]
fn push_ending(text: &mut Vec<u8>, ending: &Ending) -> Result<(), AllocError>
    ensures { OnOk result (text.new.items ≡ text.old.items ++ ending_text ending.now) }
{
    match ending {
        Ending::Closed => text.extend_from_slice(b"closed\n"),
        Ending::Cases(branch) => push_branch(text, branch.get()),
    }
}

#[cycle(push)]
fn push_branch(text: &mut Vec<u8>, branch: &Branch) -> Result<(), AllocError>
    ensures { OnOk result (text.new.items ≡ text.old.items ++ branch_text branch.now) }
{
    text.extend_from_slice(b"case ")?;
    push_row(text, &branch.row)?;
    text.extend_from_slice(b"\n")?;
    push_derivation(text, &branch.first)?;
    push_derivation(text, &branch.second)
}

fn push_word(text: &mut Vec<u8>, is_yes: bool) -> Result<(), AllocError>
    ensures { OnOk result (text.new.items ≡ text.old.items ++ answer_word is_yes) }
{
    if is_yes {
        text.extend_from_slice(b"yes ")
    } else {
        text.extend_from_slice(b"no ")
    }
}

fn push_answer(text: &mut Vec<u8>, answer: &Answer) -> Result<(), AllocError>
    ensures { OnOk result (text.new.items ≡ text.old.items ++ answer_text answer.now) }
{
    push_word(text, answer.yes)?;
    push_row(text, &answer.row)?;
    text.extend_from_slice(b"\n")?;
    push_derivation(text, &answer.why)
}

fn push_answers(text: &mut Vec<u8>, answers: &[Answer]) -> Result<(), AllocError>
    ensures { OnOk result (text.new.items ≡ text.old.items ++ flat_map answer_text answers.now) }
{
    for answer in answers {
        push_answer(text, answer)?;
    }
    Ok(())
}

/// A def's own line.
fn push_def(text: &mut Vec<u8>, row: &Row, divisor: i128) -> Result<(), AllocError>
    ensures { OnOk result (text.new.items ≡ text.old.items ++ piece_text (Def row.now divisor)) }
{
    text.extend_from_slice(b"def ")?;
    push_row(text, row)?;
    text.extend_from_slice(b" by ")?;
    push_int(text, divisor)?;
    text.extend_from_slice(b"\n")
}

/// A split's own line.
fn push_split(text: &mut Vec<u8>, row: &Row) -> Result<(), AllocError>
    ensures { OnOk result (text.new.items ≡ text.old.items ++ piece_text (Split row.now)) }
{
    text.extend_from_slice(b"split ")?;
    push_row(text, row)?;
    text.extend_from_slice(b"\n")
}

/// A lemma's own lines.
fn push_lemma(text: &mut Vec<u8>, row: &Row, why: &Derivation) -> Result<(), AllocError>
    ensures { OnOk result (text.new.items ≡ text.old.items ++ piece_text (Lemma row.now why.now)) }
{
    text.extend_from_slice(b"lemma ")?;
    push_row(text, row)?;
    text.extend_from_slice(b"\n")?;
    push_derivation(text, why)
}

fn push_void(text: &mut Vec<u8>, why: &Derivation) -> Result<(), AllocError>
    ensures { OnOk result (text.new.items ≡ text.old.items ++ piece_text (Void why.now)) }
{
    text.extend_from_slice(b"void\n")?;
    push_derivation(text, why)
}

fn push_leaf(text: &mut Vec<u8>, answers: &[Answer]) -> Result<(), AllocError>
    ensures { OnOk result (text.new.items ≡ text.old.items ++ piece_text (Leaf answers.now)) }
{
    text.extend_from_slice(b"leaf\n")?;
    push_answers(text, answers)?;
    text.extend_from_slice(b"end\n")
}

fn push_node(text: &mut Vec<u8>, node: &CertNode) -> Result<(), AllocError>
    ensures { OnOk result (text.new.items ≡ text.old.items ++ node_text node.now) }
{
    match node {
        CertNode::Def(row, divisor, below) => {
            push_def(text, row.get(), *divisor.get())?;
            push_node(text, below.get())
        }
        CertNode::Split(row, first, second) => {
            push_split(text, row.get())?;
            push_node(text, first.get())?;
            push_node(text, second.get())
        }
        CertNode::Lemma(row, why, below) => {
            push_lemma(text, row.get(), why.get())?;
            push_node(text, below.get())
        }
        CertNode::Void(why) => push_void(text, why.get()),
        CertNode::Grid => text.extend_from_slice(b"grid\n"),
        CertNode::Leaf(answers) => push_leaf(text, answers.as_slice()),
    }
}
