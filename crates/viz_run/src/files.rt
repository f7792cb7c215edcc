ghost use Rattle.std.specs.Prelude.{◌≡◌, ◌⊎◌, ◌≤◌, ℕ, List, length, Result, Err, IfOk, IsErrOf, IsTrue};
ghost use Rattle.viz_base.specs.Numbers.{Rose};
ghost use Rattle.viz_replies.specs.Replies.{IsChecked};
ghost use Rattle.viz_outside.specs.declared.shelf.Loaded.{Loaded};
ghost use Rattle.viz_outside.specs.declared.shelf.ShelfFault.{ShelfFault};
ghost use Rattle.viz_outside.specs.declared.shelf.ShelfFault.TheVariants.{Failed};
ghost use Rattle.viz_replies.specs.Certificates.{cert_most};
ghost use Rattle.viz_run.specs.Files.{IsGiven, LoadsBoth, LoadsJob, shelved};
ghost use Rattle.viz_run.specs.Run.{IsCheckOfFiles, IsLoaded, IsReplied, IsReplyOfFile, IsUnread};
ghost use Rattle.viz_run.specs.steps.Loads.{IsFileless, IsJobFile, IsSureCert, IsSureJob};

use crate::status::File;
use crate::words::Command;
use std::alloc::Global;
use viz_base::{Job, Mem};
use viz_outside::{Loaded, Shelf, ShelfFault};
use viz_replies::{
    Answer, CERT_MOST, JOB_MOST, JobsRead, Question, Reply, checked, long_certificate, long_job,
    read_jobs, reply_to, reply_to_gen, reply_to_trial,
};

/// What the job file of this name comes to.
fn load_jobs<F: Shelf>(alloc: Global, name: &str, shelf: &mut F) -> Result<JobsRead, ShelfFault>
    ensures file { IfOk result (IsJobFile (shelved F.files F.loads shelf.old shelf.new) name.now) }
    ensures files { F.files shelf.new ≡ F.files shelf.old }
    ensures unread { IsErrOf result ShelfFault.Failed
        → LoadsJob (shelved F.files F.loads shelf.old shelf.new) name.now (Err Failed) }
    ensures wanting { IsErrOf result ShelfFault.Mem → (answer : Result Loaded ShelfFault)
        × LoadsJob (shelved F.files F.loads shelf.old shelf.new) name.now answer }
    ensures failed { IsErrOf result ShelfFault.Failed
        → Rose (F.faults shelf.old) (F.faults shelf.new) }
    ensures sure { IsTrue (F.sure shelf.old name.now) → ¬ IsErrOf result ShelfFault.Failed }
    ensures sure_counts { IsTrue (F.sure shelf.old name.now)
        → F.faults shelf.new ≡ F.faults shelf.old }
    ensures counts { F.faults shelf.old ≤ F.faults shelf.new }
    ensures stays_sure { (other : List ℕ) → IsTrue (F.sure shelf.old other)
        → IsTrue (F.sure shelf.new other) }
{
    match shelf.load(name, JOB_MOST) {
        Ok(Loaded::Whole(bytes)) => Ok(read_jobs(alloc, bytes.as_slice())?),
        Ok(Loaded::Longer) => Ok(JobsRead::Refused(long_job(alloc)?)),
        Err(fault) => Err(fault),
    }
}

/// The reply to `check` about the jobs of all parts, with the certificate file of this name.
fn reply_by_file<F: Shelf>(
    alloc: Global,
    jobs: &[Job],
    name: &str,
    shelf: &mut F,
) -> Result<Reply, ShelfFault>
    requires { length jobs.now ≤ 12 }
    ensures reply { IfOk result (λ r. (bytes : _)
        × IsGiven
        (shelved F.files F.loads shelf.old shelf.new) name.now cert_most shelf.old shelf.new bytes
        × IsChecked jobs.now bytes r.answer r.output.items) }
    ensures unread { IsErrOf result ShelfFault.Failed
        → F.loads shelf.old name.now cert_most (Err Failed) shelf.new }
    ensures wanting { IsErrOf result ShelfFault.Mem → (answer : Result Loaded ShelfFault)
        × F.loads shelf.old name.now cert_most answer shelf.new }
    ensures failed { IsErrOf result ShelfFault.Failed
        → Rose (F.faults shelf.old) (F.faults shelf.new) }
    ensures sure { IsTrue (F.sure shelf.old name.now) → ¬ IsErrOf result ShelfFault.Failed }
    ensures counts { F.faults shelf.old ≤ F.faults shelf.new }
{
    match shelf.load(name, CERT_MOST) {
        Ok(Loaded::Whole(bytes)) => Ok(checked(alloc, jobs, bytes.as_slice())?),
        Ok(Loaded::Longer) => Ok(long_certificate(alloc)?),
        Err(fault) => Err(fault),
    }
}

/// Why there is no reply to a command.
#[derive(Clone, Copy)]
pub enum NoReply {
    /// Want of memory.
    Mem,
    /// This file could not be read.
    Unread(File),
}

impl From<Mem> for NoReply {
    ghost use Rattle.std.specs.Prelude.{◌≡◌};
    ghost use Rattle.viz_run.specs.declared.files.NoReply.TheVariants.{Mem};

    ghost from_gives = { λ _ none. none ≡ Mem };

    fn from(_: Mem) -> Self {
        NoReply::Mem
    }
}

/// The reply to a question about the job file of this name.
fn reply_of_file<F: Shelf>(
    alloc: Global,
    name: &str,
    question: &Question,
    shelf: &mut F,
) -> Result<Reply, NoReply>
    ensures reply { IfOk result (λ r.
        IsReplyOfFile (shelved F.files F.loads shelf.old shelf.new) name.now question.now r.answer r.output.items) }
    ensures unread { IsErrOf result (NoReply.Unread File.Job)
        → LoadsJob (shelved F.files F.loads shelf.old shelf.new) name.now (Err Failed)
        × Rose (F.faults shelf.old) (F.faults shelf.new) }
    ensures wanting { IsErrOf result NoReply.Mem → (answer : Result Loaded ShelfFault)
        × LoadsJob (shelved F.files F.loads shelf.old shelf.new) name.now answer }
    ensures sure { IsTrue (F.sure shelf.old name.now) → ¬ IsErrOf result (NoReply.Unread File.Job) }
    ensures one_file { ¬ IsErrOf result (NoReply.Unread File.Certificate) }
    ensures sure_counts { IsTrue (F.sure shelf.old name.now)
        → F.faults shelf.new ≡ F.faults shelf.old }
{
    match shelf.load(name, JOB_MOST) {
        Ok(Loaded::Whole(bytes)) => Ok(reply_to(alloc, bytes.as_slice(), question)?),
        Ok(Loaded::Longer) => Ok(long_job(alloc)?),
        Err(ShelfFault::Failed) => Err(NoReply::Unread(File::Job)),
        Err(ShelfFault::Mem) => Err(NoReply::Mem),
    }
}

/// The reply to `check` about the files of these names. With a job file that spells no jobs, no other file is loaded.
fn check_of_files<F: Shelf>(
    alloc: Global,
    job: &str,
    cert: &str,
    shelf: &mut F,
) -> Result<Reply, NoReply>
    ensures reply { IfOk result (λ r. IsCheckOfFiles
        (shelved F.files F.loads shelf.old shelf.new) job.now cert.now r.answer r.output.items) }
    ensures job_unread { IsErrOf result (NoReply.Unread File.Job)
        → LoadsJob (shelved F.files F.loads shelf.old shelf.new) job.now (Err Failed)
        × Rose (F.faults shelf.old) (F.faults shelf.new) }
    ensures cert_unread { IsErrOf result (NoReply.Unread File.Certificate)
        → LoadsBoth (shelved F.files F.loads shelf.old shelf.new) job.now cert.now (Err Failed)
        × Rose (F.faults shelf.old) (F.faults shelf.new) }
    ensures wanting { IsErrOf result NoReply.Mem → (answer : Result Loaded ShelfFault)
        × (LoadsJob (shelved F.files F.loads shelf.old shelf.new) job.now answer
        ⊎ LoadsBoth (shelved F.files F.loads shelf.old shelf.new) job.now cert.now answer) }
    ensures job_sure { IsTrue (F.sure shelf.old job.now)
        → ¬ IsErrOf result (NoReply.Unread File.Job) }
    ensures cert_sure { IsTrue (F.sure shelf.old cert.now)
        → ¬ IsErrOf result (NoReply.Unread File.Certificate) }
    ensures unlooked { IsTrue (F.sure shelf.old job.now) → IfOk result (λ r.
        r.answer ≡ Answer.JobRefused → F.faults shelf.new ≡ F.faults shelf.old) }
{
    match load_jobs(alloc, job, shelf) {
        Ok(JobsRead::Read(jobs)) => {
            let reply = reply_by_file(alloc, jobs.as_slice(), cert, shelf);
            drop(jobs);
            match reply {
                Ok(reply) => Ok(reply),
                Err(ShelfFault::Failed) => Err(NoReply::Unread(File::Certificate)),
                Err(ShelfFault::Mem) => Err(NoReply::Mem),
            }
        }
        Ok(JobsRead::Refused(refusal)) => Ok(refusal),
        Err(ShelfFault::Failed) => Err(NoReply::Unread(File::Job)),
        Err(ShelfFault::Mem) => Err(NoReply::Mem),
    }
}

/// The reply to a command. About a generated job no file is loaded.
pub fn reply_over<F: Shelf>(
    alloc: Global,
    command: Command,
    shelf: &mut F,
) -> Result<Reply, NoReply>
    ensures reply { IfOk result (λ r. IsReplied
        (shelved F.files F.loads shelf.old shelf.new) command.entry r.answer r.output.items) }
    ensures job_unread { IsErrOf result (NoReply.Unread File.Job)
        → IsUnread (shelved F.files F.loads shelf.old shelf.new) command.entry File.Job
        × Rose (F.faults shelf.old) (F.faults shelf.new) }
    ensures cert_unread { IsErrOf result (NoReply.Unread File.Certificate)
        → IsUnread (shelved F.files F.loads shelf.old shelf.new) command.entry File.Certificate
        × Rose (F.faults shelf.old) (F.faults shelf.new) }
    ensures wanting { IsErrOf result NoReply.Mem
        → IsLoaded (shelved F.files F.loads shelf.old shelf.new) command.entry }
    ensures job_sure { IsSureJob (F.sure shelf.old) command.entry
        → ¬ IsErrOf result (NoReply.Unread File.Job) }
    ensures cert_sure { IsSureCert (F.sure shelf.old) command.entry
        → ¬ IsErrOf result (NoReply.Unread File.Certificate) }
    ensures unloaded { IsFileless command.entry → shelf.new ≡ shelf.old }
    ensures unlooked { IsSureJob (F.sure shelf.old) command.entry → IfOk result (λ r.
        r.answer ≡ Answer.JobRefused → F.faults shelf.new ≡ F.faults shelf.old) }
{
    match command {
        Command::Lay { job, screen } => reply_of_file(alloc, job, &Question::Lay(screen), shelf),
        Command::Prove { job, turns } => reply_of_file(alloc, job, &Question::Prove(turns), shelf),
        Command::Check { job, cert } => check_of_files(alloc, job, cert, shelf),
        Command::Gen { seed, sections } => Ok(reply_to_gen(alloc, seed, sections)?),
        Command::Trial {
            seed,
            sections,
            turns,
        } => Ok(reply_to_trial(alloc, seed, sections, turns)?),
    }
}
