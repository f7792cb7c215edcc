//! The lines of certificates that are rejected.
ghost use Rattle.std.specs.Prelude.{◌≡◌, ◌++◌, IfOk, OnOk};
ghost use Rattle.viz_replies.specs.Lines.{spaced};
ghost use Rattle.viz_replies.specs.Replies.{part_words, reject_line, reject_reason};
ghost use Rattle.viz_replies.specs.Screens.{spaced_world};
ghost use Rattle.viz_replies.specs.steps.Rejects.{reject_words, reject_places, rows_text};

use crate::lines::{push_number, push_world};
use crate::reply::{Answer, Reply};
use cert_check::Reject;
use cert_text::push_row;
use lin_proof::Row;
use std::alloc::{AllocError, Global};
use viz_base::{Mem, World};

/// The word for what is wrong.
fn reject_words(reject: &Reject) -> &'static str
    ensures { result.now ≡ reject_words reject.now }
{
    match reject {
        Reject::OtherJob => "other-job",
        Reject::Shape(_) => "shape",
        Reject::Line(..) => "line",
        Reject::Untrue(..) => "untrue",
        Reject::Unmet(_) => "unmet",
        Reject::Differs(..) => "differs",
        Reject::Short(_) => "short",
        Reject::Left(..) => "left",
        Reject::Coeff(_) => "coeff",
    }
}

/// The row that is asked for, and that of the answer.
fn push_rows(out: &mut Vec<u8>, ours: &Row, theirs: &Row) -> Result<(), AllocError>
    ensures { OnOk result (out.new.items ≡ out.old.items ++ rows_text ours.now theirs.now) }
{
    out.extend_from_slice(b" ")?;
    push_row(out, ours)?;
    out.extend_from_slice(b" / ")?;
    push_row(out, theirs)
}

/// A node, and a number of it.
fn push_pair(out: &mut Vec<u8>, node: u32, number: u64) -> Result<(), AllocError>
    ensures { OnOk result (out.new.items ≡ out.old.items ++ (spaced node ++ spaced number)) }
{
    push_number(out, u64::from(node))?;
    push_number(out, number)
}

/// A node, and two numbers of it.
fn push_three(out: &mut Vec<u8>, node: u32, first: u32, second: u32) -> Result<(), AllocError>
    ensures { OnOk result (out.new.items
        ≡ out.old.items ++ (spaced node ++ (spaced first ++ spaced second))) }
{
    push_number(out, u64::from(node))?;
    push_pair(out, first, u64::from(second))
}

/// An answer that is to another difference than the one that is asked for.
fn push_differing(
    out: &mut Vec<u8>,
    node: u32,
    answer: u32,
    ours: &Row,
    theirs: &Row,
) -> Result<(), AllocError>
    ensures { OnOk result (out.new.items ≡ out.old.items
        ++ (spaced node ++ (spaced answer ++ rows_text ours.now theirs.now))) }
{
    push_pair(out, node, u64::from(answer))?;
    push_rows(out, ours, theirs)
}

/// A node, and a world of its part.
fn push_untrue(out: &mut Vec<u8>, form: u8, node: u32, world: World) -> Result<(), AllocError>
    ensures { OnOk result (out.new.items
        ≡ out.old.items ++ (spaced node ++ spaced_world form world)) }
{
    push_number(out, u64::from(node))?;
    push_world(out, form, world)
}

/// What stands behind the words: the node, and what is wrong at it.
fn push_places(out: &mut Vec<u8>, form: u8, reject: &Reject) -> Result<(), AllocError>
    ensures { OnOk result (out.new.items ≡ out.old.items ++ reject_places form reject.now) }
{
    match reject {
        Reject::OtherJob => Ok(()),
        Reject::Shape(node) | Reject::Unmet(node) | Reject::Short(node) | Reject::Coeff(node) =>
            push_number(out, u64::from(*node)),
        Reject::Line(node, answer, line) => push_three(out, *node, *answer, *line),
        Reject::Untrue(node, world) => push_untrue(out, form, *node, *world),
        Reject::Differs(node, answer, ours, theirs) => {
            push_differing(out, *node, *answer, ours, theirs)
        }
        Reject::Left(node, count) => push_pair(out, *node, *count),
    }
}

/// Why a certificate is wrong for a job of this form.
fn push_reason(out: &mut Vec<u8>, form: u8, reject: &Reject) -> Result<(), AllocError>
    ensures { OnOk result (out.new.items ≡ out.old.items ++ reject_reason form reject.now) }
{
    out.extend_from_slice(reject_words(reject).as_bytes())?;
    push_places(out, form, reject)?;
    out.extend_from_slice(b"\n")
}

/// The part whose certificate is wrong, where there are several.
fn push_part_words(out: &mut Vec<u8>, parts: usize, part: u32) -> Result<(), AllocError>
    ensures { OnOk result (out.new.items ≡ out.old.items ++ part_words parts part) }
{
    if parts > 1 {
        out.extend_from_slice(b"part")?;
        push_number(out, u64::from(part))?;
        out.extend_from_slice(b" ")?;
    }
    Ok(())
}

/// Where the certificate of a part is wrong: which of so many parts, the form of its job, and why.
#[derive(Clone, Copy)]
pub struct Wrong<'a> {
    pub form: u8,
    pub parts: usize,
    pub part: u32,
    pub reject: &'a Reject,
}

/// The line of a certificate that is wrong.
fn push_reject(out: &mut Vec<u8>, wrong: Wrong<'_>) -> Result<(), AllocError>
    ensures { OnOk result (out.new.items ≡ out.old.items
        ++ reject_line wrong.entry.form wrong.entry.parts wrong.entry.part wrong.entry.reject.now) }
{
    out.extend_from_slice(b"rejected ")?;
    push_part_words(out, wrong.parts, wrong.part)?;
    push_reason(out, wrong.form, wrong.reject)
}

/// The reply about a certificate that is wrong.
pub fn rejection(alloc: Global, wrong: Wrong<'_>) -> Result<Reply, Mem>
    ensures { IfOk result (λ r. (r.answer ≡ Answer.CertRefused)
        × (r.output.items ≡ reject_line wrong.entry.form wrong.entry.parts wrong.entry.part
        wrong.entry.reject.now)) }
{
    let mut output = Vec::new(alloc);
    push_reject(&mut output, wrong)?;
    Ok(Reply {
        answer: Answer::CertRefused,
        output,
    })
}
