//! What is replied about the bytes of two files.
ghost use Rattle.std.specs.Prelude.{◌≡◌, IfOk};
ghost use Rattle.viz_survey_run.specs.Statuses.{answer_of_reply, answer_of_table};
ghost use Rattle.viz_survey_run.specs.Runs.{IsReplyTo, long_answer, long_text};

use crate::status::SurveyAnswer;
use crate::words::Request;
use std::alloc::Global;
use viz_base::Mem;
use viz_renew::{reply_to_kept, reply_to_renew};
use viz_replies::{Reply, long_certificate};
use viz_tables::{Table, long_list, reply_to_table};

/// An answer with the whole output that goes with it.
#[derive(Drop)]
pub struct Report {
    pub answer: SurveyAnswer,
    pub output: Vec<u8>,
}

/// The report that a table is.
fn of_table(table: Table) -> Report
    ensures { (result.answer ≡ answer_of_table table.answer) × (result.output ≡ table.output) }
{
    Report {
        answer: SurveyAnswer::from(table.answer),
        output: table.output,
    }
}

/// The report that a reply is.
pub(crate) fn of_reply(reply: Reply) -> Report
    ensures { (result.answer ≡ answer_of_reply reply.answer) × (result.output ≡ reply.output) }
{
    Report {
        answer: SurveyAnswer::from(reply.answer),
        output: reply.output,
    }
}

/// The report on the bytes of both files.
pub(crate) fn report_on(
    alloc: Global,
    request: Request,
    job: &[u8],
    other: &[u8],
) -> Result<Report, Mem>
    ensures { IfOk result (λ r. IsReplyTo request job.now other.now r.answer r.output.items) }
{
    match request {
        Request::Table(turns) => Ok(of_table(reply_to_table(alloc, job, other, turns)?)),
        Request::Kept => Ok(of_reply(reply_to_kept(alloc, job, other)?)),
        Request::Renew(turns) => Ok(of_reply(reply_to_renew(alloc, job, other, turns)?)),
    }
}

/// The report where the second file has more bytes than it may.
pub(crate) fn report_of_long(alloc: Global, request: Request) -> Result<Report, Mem>
    ensures { IfOk result (λ r. (r.answer ≡ long_answer request)
        × (r.output.items ≡ long_text request)) }
{
    match request {
        Request::Table(_) => Ok(of_table(long_list(alloc)?)),
        _ => Ok(of_reply(long_certificate(alloc)?)),
    }
}
