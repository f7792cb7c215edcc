ghost use Rattle.std.specs.Prelude.{◌≡◌, ◌≢◌, codes, IsTrue, map, string_bytes};
ghost use Rattle.viz_base.specs.Numbers.{Rose};
ghost use Rattle.viz_run.specs.Words.{AreOfGenerated, word_at};
ghost use Rattle.viz_run.specs.Files.{shelved};
ghost use Rattle.viz_run.specs.Run.{Delivers, Obeys, IsOutcome};
ghost use Rattle.viz_run.specs.steps.Loads.{IsFileless, IsSureCert, IsSureJob};
ghost use Rattle.viz_run.specs.Headline.{IsTrueOfFile, IsFalseOfFile, IsTrueOfGenerated, IsFalseOfGenerated};
ghost use Rattle.viz_run.specs.declared.status.File.{File};

use crate::files::{NoReply, reply_over};
use crate::status::Status;
use crate::words::{Command, command_of};
use std::alloc::Global;
use viz_outside::{Shelf, Sink, write_all};
use viz_replies::{Answer, parts_hold};

/// Writes the whole output, if the sink doesn't fail.
fn deliver<K: Sink>(sink: &mut K, status: Status, output: &[u8]) -> Status
    requires { status ≢ Status.WriteFault }
    ensures delivers { Delivers (record { written = K.written; faults = K.faults; old = sink.old; new = sink.new })
        result status output.now }
    ensures write_fault { result ≡ Status.WriteFault
        → Rose (K.faults sink.old) (K.faults sink.new) }
{
    match write_all(sink, output) {
        Ok(()) => status,
        Err(_) => Status::WriteFault,
    }
}

/// Replies to a command, if there is memory.
fn obey<F: Shelf, K: Sink>(alloc: Global, command: Command, shelf: &mut F, sink: &mut K) -> Status
    ensures outcome { Obeys (shelved F.files F.loads shelf.old shelf.new) command.entry
        (record { written = K.written; faults = K.faults; old = sink.old; new = sink.new }) result }
    ensures read_fault { (file : File) → result ≡ Status.ReadFault file
        → Rose (F.faults shelf.old) (F.faults shelf.new) }
    ensures sure_job { IsSureJob (F.sure shelf.old) command.entry
        → result ≢ Status.ReadFault File.Job }
    ensures sure_cert { IsSureCert (F.sure shelf.old) command.entry
        → result ≢ Status.ReadFault File.Certificate }
    ensures write_fault { result ≡ Status.WriteFault
        → Rose (K.faults sink.old) (K.faults sink.new) }
    ensures unloaded { IsFileless command.entry → shelf.new ≡ shelf.old }
    ensures unlooked { IsSureJob (F.sure shelf.old) command.entry
        → result ≡ Status.Replied Answer.JobRefused → F.faults shelf.new ≡ F.faults shelf.old }
{
    match reply_over(alloc, command, shelf) {
        Ok(reply) => deliver(sink, Status::Replied(reply.answer), reply.output.as_slice()),
        Err(NoReply::Unread(file)) => deliver(sink, Status::ReadFault(file), b"read-fault\n"),
        Err(NoReply::Mem) => Status::Memory,
    }
}

/// What `run` does, with its outcome alone.
fn answer<F: Shelf, K: Sink>(alloc: Global, words: &[String], shelf: &mut F, sink: &mut K) -> Status
    ensures outcome { IsOutcome (shelved F.files F.loads shelf.old shelf.new)
        (map string_bytes words.now)
        (record { written = K.written; faults = K.faults; old = sink.old; new = sink.new }) result }
    ensures read_fault { (file : File) → result ≡ Status.ReadFault file
        → Rose (F.faults shelf.old) (F.faults shelf.new) }
    ensures sure_job { IsTrue (F.sure shelf.old (word_at (map string_bytes words.now) 1))
        → result ≢ Status.ReadFault File.Job }
    ensures sure_cert { IsTrue (F.sure shelf.old (word_at (map string_bytes words.now) 2))
        → result ≢ Status.ReadFault File.Certificate }
    ensures write_fault { result ≡ Status.WriteFault
        → Rose (K.faults sink.old) (K.faults sink.new) }
    ensures unloaded { AreOfGenerated (map string_bytes words.now) → shelf.new ≡ shelf.old }
    ensures unlooked { IsTrue (F.sure shelf.old (word_at (map string_bytes words.now) 1))
        → result ≡ Status.Replied Answer.JobRefused → F.faults shelf.new ≡ F.faults shelf.old }
{
    match command_of(words) {
        Some(command) => obey(alloc, command, shelf, sink),
        None => deliver(sink, Status::Usage, b"usage\n"),
    }
}

/// Runs the program on its words, over a shelf of files and a sink for its output.
pub fn run<F: Shelf, K: Sink>(
    alloc: Global,
    words: &[String],
    shelf: &mut F,
    sink: &mut K,
) -> Status
    // Where `check` accepts, the assertion of the job file is true, as it is written, of the CSS 2.1 rendering at every
    // world of the range, the rendering being by the rules that are met there (Media Queries 3).
    ensures accepted { result ≡ Status.Replied Answer.Done
        → word_at (map string_bytes words.now) 0 ≡ codes "check"
        → IsTrueOfFile (shelved F.files F.loads shelf.old shelf.new)
        (word_at (map string_bytes words.now) 1) }
    // So it is where `prove` says that it is proved,
    ensures proved { result ≡ Status.Replied Answer.Done
        → word_at (map string_bytes words.now) 0 ≡ codes "prove"
        → IsTrueOfFile (shelved F.files F.loads shelf.old shelf.new)
        (word_at (map string_bytes words.now) 1) }
    // and where `prove` says that it is violated, it is false at the world of the range that is written.
    ensures violated { result ≡ Status.Replied Answer.Violated
        → word_at (map string_bytes words.now) 0 ≡ codes "prove"
        → IsFalseOfFile (shelved F.files F.loads shelf.old shelf.new)
        (word_at (map string_bytes words.now) 1) (K.written sink.old) (K.written sink.new) }
    // What `trial` says is so of the job that is generated.
    ensures trial_proved { result ≡ Status.Replied Answer.Done
        → word_at (map string_bytes words.now) 0 ≡ codes "trial"
        → IsTrueOfGenerated (map string_bytes words.now) }
    ensures trial_violated { result ≡ Status.Replied Answer.Violated
        → word_at (map string_bytes words.now) 0 ≡ codes "trial"
        → IsFalseOfGenerated (map string_bytes words.now) (K.written sink.old)
        (K.written sink.new) }
    // The words are of no form, or the reply to the command that they ask for is written.
    ensures outcome { IsOutcome (shelved F.files F.loads shelf.old shelf.new)
        (map string_bytes words.now)
        (record { written = K.written; faults = K.faults; old = sink.old; new = sink.new }) result }
    ensures read_fault { (file : File) → result ≡ Status.ReadFault file
        → Rose (F.faults shelf.old) (F.faults shelf.new) }
    ensures sure_job { IsTrue (F.sure shelf.old (word_at (map string_bytes words.now) 1))
        → result ≢ Status.ReadFault File.Job }
    ensures sure_cert { IsTrue (F.sure shelf.old (word_at (map string_bytes words.now) 2))
        → result ≢ Status.ReadFault File.Certificate }
    ensures write_fault { result ≡ Status.WriteFault
        → Rose (K.faults sink.old) (K.faults sink.new) }
    // About a generated job no file is loaded.
    ensures unloaded { AreOfGenerated (map string_bytes words.now) → shelf.new ≡ shelf.old }
    // Where the job is refused and its file is sure to load, the shelf's faults stay as they were: no certificate was
    // looked for that might have failed.
    ensures unlooked { IsTrue (F.sure shelf.old (word_at (map string_bytes words.now) 1))
        → result ≡ Status.Replied Answer.JobRefused → F.faults shelf.new ≡ F.faults shelf.old }
{
    parts_hold();
    answer(alloc, words, shelf, sink)
}
