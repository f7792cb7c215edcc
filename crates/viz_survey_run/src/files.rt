//! What is replied over a shelf of files.
ghost use Rattle.std.specs.Prelude.{◌≡◌, ◌≢◌, ◌≤◌, IfOk, IsErr, IsTrue, MatchOption, None, Ok, Err, Result, length};
ghost use Rattle.viz_base.specs.Numbers.{Rose};
ghost use Rattle.viz_outside.specs.declared.shelf.Loaded.{Loaded};
ghost use Rattle.viz_outside.specs.declared.shelf.ShelfFault.{ShelfFault};
ghost use Rattle.viz_outside.specs.declared.shelf.ShelfFault.TheVariants.{Failed};
ghost use Rattle.viz_replies.specs.Jobs.{job_most};
ghost use Rattle.viz_run.specs.Files.{shelved};
ghost use Rattle.viz_survey_run.specs.Words.{cap_of};
ghost use Rattle.viz_survey_run.specs.Runs.{IsOfOther, IsReplied, LoadsLast};

use crate::replies::{Report, of_reply, report_of_long, report_on};
use crate::words::Command;
use std::alloc::Global;
use viz_base::Mem;
use viz_outside::{Loaded, Shelf, ShelfFault};
use viz_replies::{JOB_MOST, long_job};

/// The reply about a job file's bytes and the second file, if that can be read.
fn reply_behind<F: Shelf>(
    alloc: Global,
    command: Command,
    job: &[u8],
    shelf: &mut F,
) -> Result<Option<Report>, Mem>
    requires { length job.now ≤ job_most }
    ensures reply { IfOk result (λ found. MatchOption found
        (F.loads shelf.old command.entry.other.now (cap_of command.entry.request) (Err Failed) shelf.new)
        (λ r. IsOfOther (shelved F.files F.loads shelf.old shelf.new) shelf.old command.entry job.now
        r.answer r.output.items)) }
    ensures wanting { IsErr result → (answer : Result Loaded ShelfFault)
        × F.loads shelf.old command.entry.other.now
        (cap_of command.entry.request) answer shelf.new }
    ensures failed { result ≡ Ok None → Rose (F.faults shelf.old) (F.faults shelf.new) }
    ensures sure { IsTrue (F.sure shelf.old command.entry.other.now) → result ≢ Ok None }
{
    match shelf.load(command.other, command.request.cap()) {
        Ok(Loaded::Whole(bytes)) => Ok(Some(report_on(
            alloc,
            command.request,
            job,
            bytes.as_slice(),
        )?)),
        Ok(Loaded::Longer) => Ok(Some(report_of_long(alloc, command.request)?)),
        Err(ShelfFault::Failed) => Ok(None),
        Err(ShelfFault::Mem) => Err(Mem),
    }
}

/// The reply to a command, if its files can be read. A job file that is too long is refused before the second file is
/// loaded; no other fault of one file keeps the other from being loaded.
pub(crate) fn reply_over<F: Shelf>(
    alloc: Global,
    command: Command,
    shelf: &mut F,
) -> Result<Option<Report>, Mem>
    ensures reply { IfOk result (λ found. MatchOption found
        (LoadsLast (shelved F.files F.loads shelf.old shelf.new) command.entry (Err Failed))
        (λ r. IsReplied
        (shelved F.files F.loads shelf.old shelf.new) command.entry r.answer r.output.items)) }
    ensures wanting { IsErr result → (answer : Result Loaded ShelfFault)
        × LoadsLast (shelved F.files F.loads shelf.old shelf.new) command.entry answer }
    ensures failed { result ≡ Ok None → Rose (F.faults shelf.old) (F.faults shelf.new) }
    ensures sure { IsTrue (F.sure shelf.old command.entry.job.now)
        → IsTrue (F.sure shelf.old command.entry.other.now) → result ≢ Ok None }
{
    match shelf.load(command.job, JOB_MOST) {
        Ok(Loaded::Whole(bytes)) => reply_behind(alloc, command, bytes.as_slice(), shelf),
        Ok(Loaded::Longer) => Ok(Some(of_reply(long_job(alloc)?))),
        Err(ShelfFault::Failed) => Ok(None),
        Err(ShelfFault::Mem) => Err(Mem),
    }
}
