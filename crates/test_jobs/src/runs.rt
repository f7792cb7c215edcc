//! Runs of both programs over files and an output in memory, of which chosen loads and writes fail.
use serde_json::Value;
use std::alloc::Global;
use test_scribe::{Fault, Scribe};
use viz_base::{List, Text, Text8};
use viz_outside::{MemShelf, MemSink};
use viz_run::run::run;
use viz_survey_run::survey;

/// The words of a run.
fn words(scribe: &mut Scribe, case: &Value) -> Vec<String> {
    let mut words = Vec::new(scribe.alloc());
    for word in scribe.list_at(case, 1) {
        let text = String::from_str(scribe.alloc(), scribe.text(word));
        if let Some(word) = scribe.kept(text) {
            scribe.push(&mut words, word);
        }
    }
    words
}

/// The numbers of the calls that fail, from 0, at a place of an array.
fn fails(scribe: &mut Scribe, array: &Value, place: usize) -> List<u32> {
    let mut numbers = List::new(scribe.alloc());
    for number in scribe.list_at(array, place) {
        let number = scribe.natural(number);
        scribe.put(&mut numbers, number);
    }
    numbers
}

/// Puts a file on a shelf: its name and its text.
fn put_file(scribe: &mut Scribe, file: &Value, files: &mut List<(Text, Text8)>) {
    let name = Text::from_text(scribe.alloc(), scribe.text_at(file, 0));
    let bytes = List::from_slice(scribe.alloc(), scribe.text_at(file, 1).as_bytes());
    if let (Some(name), Some(bytes)) = (scribe.kept(name), scribe.kept(bytes)) {
        scribe.put(files, (name, bytes));
    }
}

/// The files of a run.
fn shelf(scribe: &mut Scribe, case: &Value) -> MemShelf {
    let mut files = List::new(scribe.alloc());
    for file in scribe.list_at(case, 2) {
        put_file(scribe, file, &mut files);
    }
    let fails = fails(scribe, case, 3);
    MemShelf::new(files, fails)
}

/// The output of a run: how much a call takes at most, how much all do, and which calls fail.
fn sink(scribe: &mut Scribe, case: &Value) -> Option<MemSink> {
    let told = scribe.at(case, 4);
    let most = scribe.number_at(told, 0).max(1);
    let room = scribe.number_at(told, 1);
    let fails = fails(scribe, told, 2);
    let sink = MemSink::new(scribe.alloc(), most as usize, room as usize, fails);
    scribe.kept(sink)
}

/// Writes what a run wrote.
fn tell_written(scribe: &mut Scribe, written: &[u8]) {
    match str::from_utf8(written) {
        Ok(text) => scribe.quoted(text),
        Err(_) => scribe.fail(Fault::NoCase),
    }
}

/// The number with which a run ends: `run` is a run of `vizlog`, all else of `vizsurvey`.
fn ended(
    alloc: Global,
    name: &str,
    words: &[String],
    shelf: &mut MemShelf,
    sink: &mut MemSink,
) -> u8 {
    match name {
        "run" => run(alloc, words, shelf, sink).code(),
        _ => survey(alloc, words, shelf, sink).code(),
    }
}

/// The status with which a run ends and what it wrote, given the words, the files, the loads that fail, and the output.
/// With `ending` the status alone.
pub fn answer(alloc: Global, name: &str, case: &Value) -> Result<String, Fault> {
    let mut scribe = Scribe::new(alloc);
    let words = words(&mut scribe, case);
    let mut shelf = shelf(&mut scribe, case);
    if let Some(mut sink) = sink(&mut scribe, case) {
        let code = ended(alloc, name, words.as_slice(), &mut shelf, &mut sink);
        scribe.open();
        scribe.number(code);
        if name != "ending" {
            tell_written(&mut scribe, sink.written());
        }
        scribe.close();
    }
    scribe.finished()
}
