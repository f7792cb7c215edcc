//! The whole table, given the bytes of a job file and of a list.
ghost use Rattle.std.specs.Prelude.{◌≡◌, ◌≢◌, ◌||◌, IfOk, MatchResult};
ghost use Rattle.page_build.specs.Jobs.{AreRefusedWith};
ghost use Rattle.viz_tables.specs.Tables.{IsListed, IsPushed, IsReplyToTable, IsTableReply, end_of};
ghost use Rattle.viz_tables.specs.Lines.{long_list_line};

use crate::faults::ListFault;
use crate::judging::first_refused;
use crate::lines::{push_lines, some_open};
use crate::lists::read_list;
use crate::refusals::{broken_line, refused};
use crate::rules::Rule;
use crate::surveys::survey;
use crate::table::{Table, TableAnswer};
use page_build::JobRefusal;
use std::alloc::Global;
use viz_base::Mem;
use viz_replies::{JOB_MOST, long_job};

/// Lists of more bytes are refused.
pub const LIST_MOST: usize = 2_097_152;

/// The reply about a list of more than `LIST_MOST` bytes.
pub fn long_list(alloc: Global) -> Result<Table, Mem>
    ensures { IfOk result (λ r. (r.answer ≡ TableAnswer.ListRefused)
        × (r.output.items ≡ long_list_line)) }
{
    Ok(Table {
        answer: TableAnswer::ListRefused,
        output: Vec::from_slice(alloc, b"list-refused too-long\n")?,
    })
}

/// The answer of a table, by whether one of its lines is undecided.
fn end_of(undecided: bool) -> TableAnswer
    ensures { result ≡ end_of undecided }
{
    if undecided {
        TableAnswer::Undecided
    } else {
        TableAnswer::Done
    }
}

/// Whether one of two is so.
fn either(a: bool, b: bool) -> bool
    ensures { result ≡ (a || b) }
{
    a || b
}

/// Pushes the survey of a rule; whether one of its lines is undecided.
fn push_survey(
    alloc: Global,
    out: &mut Vec<u8>,
    job: &[u8],
    rule: &Rule,
    turns: u64,
) -> Result<bool, JobRefusal>
    ensures { MatchResult result (IsPushed job.now turns rule.now out.old.items out.new.items)
        (λ why. why ≢ JobRefusal.Mem → AreRefusedWith rule.now.formula job.now why) }
{
    let lines = survey(alloc, job, rule.formula.as_str(), turns)?;
    push_lines(out, rule.name.as_slice(), lines.as_slice())?;
    Ok(some_open(lines.as_slice()))
}

/// The table of rules, each of which the job file is to be surveyed under.
fn surveys_of(alloc: Global, job: &[u8], rules: &[Rule], turns: u64) -> Result<Table, Mem>
    ensures { IfOk result (λ r. IsTableReply job.now rules.now turns r.answer r.output.items) }
{
    let mut output = Vec::new(alloc);
    let mut undecided = false;
    for at in 0..rules.len() {
        match push_survey(alloc, &mut output, job, &rules[at], turns) {
            Ok(open) => undecided = either(undecided, open),
            Err(why) => return refused(alloc, at as u64, why),
        }
    }
    Ok(Table {
        answer: end_of(undecided),
        output,
    })
}

/// The table of rules. All formulas are judged before the first is surveyed.
fn table_of(alloc: Global, job: &[u8], rules: &[Rule], turns: u64) -> Result<Table, Mem>
    ensures { IfOk result (λ r. IsTableReply job.now rules.now turns r.answer r.output.items) }
{
    match first_refused(alloc, job, rules)? {
        Some(table) => Ok(table),
        None => surveys_of(alloc, job, rules, turns),
    }
}

/// The reply about files that are not too long.
fn listed(alloc: Global, job: &[u8], list: &[u8], turns: u64) -> Result<Table, Mem>
    ensures { IfOk result (λ r. IsListed job.now list.now turns r.answer r.output.items) }
{
    match read_list(alloc, list) {
        Ok(rules) => table_of(alloc, job, rules.as_slice(), turns),
        Err(ListFault::Form(line)) => broken_line(alloc, line),
        Err(ListFault::Mem) => Err(Mem),
    }
}

/// At which widths of a job file's range each rule of a list holds, a line for each stretch of widths: the name of the
/// rule, the first width, the last, and `holds`, `fails` or `undecided`.
///
/// A job file of more than `JOB_MOST` bytes is refused first, then a list of more than `LIST_MOST`, then one that
/// breaks the form, then the first rule under whose formula, in place of its assertion, the job file is refused: the
/// list, if the formula is at fault, else the job file. `Mem` is for want of memory; no clause says when.
pub fn reply_to_table(alloc: Global, job: &[u8], list: &[u8], turns: u64) -> Result<Table, Mem>
    ensures { IfOk result (λ r. IsReplyToTable job.now list.now turns r.answer r.output.items) }
{
    if job.len() > JOB_MOST {
        let reply = long_job(alloc)?;
        return Ok(Table {
            answer: TableAnswer::JobRefused,
            output: reply.output,
        });
    }
    if list.len() > LIST_MOST {
        return long_list(alloc);
    }
    listed(alloc, job, list, turns)
}
