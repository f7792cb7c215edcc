ghost use Rattle.std.specs.Prelude.{◌≡◌, ◌≢◌, IsTrue, codes, map, string_bytes};
ghost use Rattle.viz_base.specs.Numbers.{Rose};
ghost use Rattle.viz_run.specs.Files.{shelved};
ghost use Rattle.viz_run.specs.Headline.{IsTrueOfFile};
ghost use Rattle.viz_run.specs.Words.{word_at};
ghost use Rattle.viz_survey_run.specs.Headline.{IsFalseOfFirst};
ghost use Rattle.viz_survey_run.specs.Runs.{Delivers, IsOutcome, Obeys};

use crate::files::reply_over;
use crate::status::{SurveyAnswer, SurveyStatus};
use crate::words::{Command, command_of};
use std::alloc::Global;
use viz_outside::{Shelf, Sink, write_all};
use viz_replies::parts_hold;

/// Writes the whole output, if the sink doesn't fail.
fn deliver<K: Sink>(sink: &mut K, status: SurveyStatus, output: &[u8]) -> SurveyStatus
    requires { status ≢ SurveyStatus.WriteFault }
    ensures delivers { Delivers (record { written = K.written; faults = K.faults; old = sink.old; new = sink.new })
        result status output.now }
    ensures write_fault { result ≡ SurveyStatus.WriteFault
        → Rose (K.faults sink.old) (K.faults sink.new) }
{
    match write_all(sink, output) {
        Ok(()) => status,
        Err(_) => SurveyStatus::WriteFault,
    }
}

/// Replies to a command, if there is memory.
fn obey<F: Shelf, K: Sink>(
    alloc: Global,
    command: Command,
    shelf: &mut F,
    sink: &mut K,
) -> SurveyStatus
    ensures outcome { Obeys (shelved F.files F.loads shelf.old shelf.new) command.entry
        (record { written = K.written; faults = K.faults; old = sink.old; new = sink.new }) result }
    ensures read_fault { result ≡ SurveyStatus.ReadFault
        → Rose (F.faults shelf.old) (F.faults shelf.new) }
    ensures sure { IsTrue (F.sure shelf.old command.entry.job.now)
        → IsTrue (F.sure shelf.old command.entry.other.now) → result ≢ SurveyStatus.ReadFault }
    ensures write_fault { result ≡ SurveyStatus.WriteFault
        → Rose (K.faults sink.old) (K.faults sink.new) }
{
    match reply_over(alloc, command, shelf) {
        Ok(Some(report)) => deliver(
            sink,
            SurveyStatus::Replied(report.answer),
            report.output.as_slice(),
        ),
        Ok(None) => deliver(sink, SurveyStatus::ReadFault, b"read-fault\n"),
        Err(_) => SurveyStatus::Memory,
    }
}

/// What `survey` does, with its outcome alone.
fn answer<F: Shelf, K: Sink>(
    alloc: Global,
    words: &[String],
    shelf: &mut F,
    sink: &mut K,
) -> SurveyStatus
    ensures outcome { IsOutcome (shelved F.files F.loads shelf.old shelf.new)
        (map string_bytes words.now)
        (record { written = K.written; faults = K.faults; old = sink.old; new = sink.new }) result }
    ensures read_fault { result ≡ SurveyStatus.ReadFault
        → Rose (F.faults shelf.old) (F.faults shelf.new) }
    ensures sure { IsTrue (F.sure shelf.old (word_at (map string_bytes words.now) 1))
        → IsTrue (F.sure shelf.old (word_at (map string_bytes words.now) 2))
        → result ≢ SurveyStatus.ReadFault }
    ensures write_fault { result ≡ SurveyStatus.WriteFault
        → Rose (K.faults sink.old) (K.faults sink.new) }
{
    match command_of(words) {
        Some(command) => obey(alloc, command, shelf, sink),
        None => deliver(sink, SurveyStatus::Usage, b"usage\n"),
    }
}

/// Runs the survey's program on its words, over a shelf of files and a sink for its output.
///
/// `table JOB LIST TURNS` tells at which widths each rule of a list holds, `kept JOB CERT` how much of a file of
/// certificates still stands, and `renew JOB CERT TURNS` makes certificates of what stands. Where an answer is given,
/// it is about exactly the bytes that the loads of both files gave.
pub fn survey<F: Shelf, K: Sink>(
    alloc: Global,
    words: &[String],
    shelf: &mut F,
    sink: &mut K,
) -> SurveyStatus
    // Where `renew` writes certificates, the assertion of the job file is true, as it is written, of the CSS 2.1
    // rendering at every world of the range, the rendering being by the rules that are met there (Media Queries 3).
    ensures renewed { result ≡ SurveyStatus.Replied SurveyAnswer.Done
        → word_at (map string_bytes words.now) 0 ≡ codes "renew"
        → IsTrueOfFile (shelved F.files F.loads shelf.old shelf.new)
        (word_at (map string_bytes words.now) 1) }
    // Where it says that it is violated, it is false at the world of the range that is written.
    ensures violated { result ≡ SurveyStatus.Replied SurveyAnswer.Violated
        → word_at (map string_bytes words.now) 0 ≡ codes "renew"
        → IsFalseOfFirst (shelved F.files F.loads shelf.old shelf.new)
        (word_at (map string_bytes words.now) 1) (K.written sink.old) (K.written sink.new) }
    // The words are of no form, or the reply to the command that they ask for is written.
    ensures outcome { IsOutcome (shelved F.files F.loads shelf.old shelf.new)
        (map string_bytes words.now)
        (record { written = K.written; faults = K.faults; old = sink.old; new = sink.new }) result }
    ensures read_fault { result ≡ SurveyStatus.ReadFault
        → Rose (F.faults shelf.old) (F.faults shelf.new) }
    ensures sure { IsTrue (F.sure shelf.old (word_at (map string_bytes words.now) 1))
        → IsTrue (F.sure shelf.old (word_at (map string_bytes words.now) 2))
        → result ≢ SurveyStatus.ReadFault }
    ensures write_fault { result ≡ SurveyStatus.WriteFault
        → Rose (K.faults sink.old) (K.faults sink.new) }
{
    parts_hold();
    answer(alloc, words, shelf, sink)
}
