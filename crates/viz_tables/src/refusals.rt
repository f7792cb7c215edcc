//! The lines of lists and job files that are refused.
ghost use Rattle.std.specs.Prelude.{◌≡◌, ◌≢◌, ◌++◌, IfOk, codes};
ghost use Rattle.viz_replies.specs.Lines.{spaced};
ghost use Rattle.viz_replies.specs.Jobs.{refusal_line};
ghost use Rattle.viz_tables.specs.Lines.{place_line};
ghost use Rattle.viz_tables.specs.Tables.{refused_answer, refused_line};

use crate::lines::push_number;
use crate::table::{Table, TableAnswer};
use page_build::JobRefusal;
use std::alloc::Global;
use viz_base::Mem;
use viz_replies::refusal;

/// The reply about a line of a list that breaks the form.
pub(crate) fn broken_line(alloc: Global, line: u64) -> Result<Table, Mem>
    ensures { IfOk result (λ r. (r.answer ≡ TableAnswer.ListRefused)
        × (r.output.items ≡ codes "list-refused" ++ (spaced line ++ codes " form\n"))) }
{
    let mut output = Vec::new(alloc);
    output.extend_from_slice(b"list-refused")?;
    push_number(&mut output, line)?;
    output.extend_from_slice(b" form\n")?;
    Ok(Table {
        answer: TableAnswer::ListRefused,
        output,
    })
}

/// The reply about a line of a list whose formula is refused at a place.
fn bad_formula(alloc: Global, line: u64, words: &[u8], at: u32) -> Result<Table, Mem>
    ensures { IfOk result (λ r. (r.answer ≡ TableAnswer.ListRefused)
        × (r.output.items ≡ place_line line words.now at)) }
{
    let mut output = Vec::new(alloc);
    output.extend_from_slice(b"list-refused")?;
    push_number(&mut output, line)?;
    output.extend_from_slice(words)?;
    push_number(&mut output, u64::from(at))?;
    output.extend_from_slice(b"\n")?;
    Ok(Table {
        answer: TableAnswer::ListRefused,
        output,
    })
}

/// The reply about a job file that is refused.
fn no_job(alloc: Global, why: JobRefusal) -> Result<Table, Mem>
    ensures { IfOk result (λ r. (why ≢ JobRefusal.Mem) × (r.answer ≡ TableAnswer.JobRefused)
        × (r.output.items ≡ refusal_line why)) }
{
    let reply = refusal(alloc, why)?;
    Ok(Table {
        answer: TableAnswer::JobRefused,
        output: reply.output,
    })
}

/// The reply where a job file is refused under the formula of a line.
pub(crate) fn refused(alloc: Global, line: u64, why: JobRefusal) -> Result<Table, Mem>
    ensures { IfOk result (λ r. (why ≢ JobRefusal.Mem) × (r.answer ≡ refused_answer why)
        × (r.output.items ≡ refused_line line why)) }
{
    match why {
        JobRefusal::Bad(at) => bad_formula(alloc, line, b" formula-bad", at),
        JobRefusal::Unbound(at) => bad_formula(alloc, line, b" formula-unbound", at),
        JobRefusal::TooDeep(at) => bad_formula(alloc, line, b" formula-too-deep", at),
        other => no_job(alloc, other),
    }
}
