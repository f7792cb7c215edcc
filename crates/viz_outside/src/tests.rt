ghost use Rattle.std.specs.Prelude.{◌≤◌, IfOk};

use crate::file_shelf::read_within;
use crate::out_sink::put;
use crate::{FileShelf, Loaded, MemShelf, MemSink, OutSink, Shelf, ShelfFault, Sink, write_all};
use std::alloc::{AllocError, Global};
use std::cell::Cell;
use std::fmt::Display;
use std::fs;
use std::io::{self, ErrorKind, Print, Read, Write};
use viz_base::{List, Text, Text8};

// What stands for the bytes of a file that has more than were asked for, and of one that can't be read.
const LONGER: &[u8] = b"longer";

const FAILED: &[u8] = b"failed";

const NO_MEMORY: &[u8] = b"no memory";

// The bytes of a file, or what stands for them.
fn told(answer: &Result<Loaded, ShelfFault>) -> &[u8] {
    match answer {
        Ok(Loaded::Whole(bytes)) => bytes.as_slice(),
        Ok(Loaded::Longer) => LONGER,
        Err(ShelfFault::Failed) => FAILED,
        Err(ShelfFault::Mem) => NO_MEMORY,
    }
}

// Whether a load gives this. It loads through the trait alone, as callers do.
fn gives<F: Shelf>(shelf: &mut F, name: &str, cap: usize, want: &[u8]) -> bool {
    told(&shelf.load(name, cap)) == want
}

// Whether reading at most so many bytes gives this.
fn reads<F: Read + Drop>(alloc: Global, file: F, cap: usize, want: &[u8]) -> bool {
    told(&read_within(alloc, file, cap)) == want
}

fn put_file(files: &mut List<(Text, Text8)>, name: &str, bytes: &[u8]) -> Result<(), AllocError> {
    let alloc = files.allocator();
    let name = Text::from_text(alloc, name)?;
    files.push((name, List::from_slice(alloc, bytes)?))
}

// Two files, of which a load fails whose number is 1.
fn two_files(alloc: Global) -> Result<MemShelf, AllocError> {
    let mut files = List::new(alloc);
    put_file(&mut files, "a", b"one")?;
    put_file(&mut files, "b", b"")?;
    Ok(MemShelf::new(files, List::from_slice(alloc, &[1])?))
}

#[test]
fn files_in_memory(rt: HostRuntime) -> Result<(), AllocError> {
    let mut shelf = two_files(rt.alloc())?;
    for (name, cap, want) in [
        ("a", 3, b"one".as_slice()),
        ("a", 3, FAILED),
        ("a", 2, LONGER),
        ("b", 0, b""),
        ("c", 9, FAILED),
    ] {
        assert!(rt; gives(&mut shelf, name, cap, want), "{name} within {cap}");
    }
    Ok(())
}

// Seven bytes at most, two a call, of which the fifth fails.
fn small_sink(alloc: Global) -> Result<MemSink, AllocError> {
    match MemSink::new(alloc, 2, 7, List::from_slice(alloc, &[4])?) {
        Ok(sink) => Ok(sink),
        Err(_) => Err(AllocError),
    }
}

#[test]
fn bytes_in_memory(rt: HostRuntime) -> Result<(), AllocError> {
    let mut sink = small_sink(rt.alloc())?;
    assert!(rt; write_all(&mut sink, b"").is_ok());
    assert!(rt; write_all(&mut sink, b"abcde").is_ok());
    assert!(rt; write_all(&mut sink, b"fgh").is_err());
    assert!(rt; sink.written() == b"abcdefg".as_slice());
    Ok(())
}

// A reader and an output that are cut short and interrupted, and then fail: one answer a call.
#[derive(Drop)]
struct Fitful {
    calls: Cell<u32>,
}

impl Fitful {
    fn new() -> Fitful {
        Fitful {
            calls: Cell::new(0),
        }
    }

    fn answer(&self, len: usize) -> io::Result<usize>
        ensures { IfOk result (λ n. n ≤ len) }
    {
        let call = self.calls.get();
        self.calls.set(call.saturating_add(1));
        match call {
            0 | 2 => Err(ErrorKind::Interrupted.into()),
            1 | 3 => Ok(len.min(2)),
            _ => Err(ErrorKind::BrokenPipe.into()),
        }
    }
}

impl Read for Fitful {
    fn read(&mut self, buf: &mut [u8]) -> io::Result<usize> {
        self.answer(buf.len())
    }
}

impl Print for Fitful {
    fn print<D: Display + Drop>(&self, _value: D) -> io::Result<()> {
        Ok(())
    }

    fn println<D: Display + Drop>(&self, _value: D) -> io::Result<()> {
        Ok(())
    }

    fn write_all(&self, _bytes: &[u8]) -> io::Result<()> {
        Ok(())
    }

    fn write_some(&self, bytes: &[u8]) -> io::Result<usize> {
        self.answer(bytes.len())
    }
}

// Whether a load of the system's files gives this.
fn system_gives(shelf: &mut FileShelf<HostRuntime>, name: &str, cap: usize, want: &[u8]) -> bool {
    let answer = shelf.load(name, cap);
    told(&answer) == want
}

#[test]
fn files_of_the_system(rt: HostRuntime) -> Result<(), AllocError> {
    let name = "viz_outside_test_file";
    assert!(rt; fs::write(&rt, name, "five!").is_ok());
    let mut shelf = FileShelf::new(rt.clone()?);
    assert!(rt; system_gives(&mut shelf, name, 5, b"five!"));
    assert!(rt; system_gives(&mut shelf, name, 4, LONGER));
    assert!(rt; fs::remove_file(&rt, name).is_ok());
    assert!(rt; system_gives(&mut shelf, name, 5, FAILED));
    Ok(())
}

#[test]
fn a_reader_that_fails(rt: HostRuntime) {
    assert!(rt; reads(rt.alloc(), &mut Fitful::new(), 3, LONGER));
    assert!(rt; reads(rt.alloc(), &mut Fitful::new(), 4, FAILED));
}

#[test]
fn standard_output(rt: HostRuntime) -> Result<(), AllocError> {
    let mut sink = OutSink::new(rt.clone()?);
    assert!(rt; write_all(&mut sink, b"written to the standard output\n").is_ok());
    Ok(())
}

#[test]
fn an_output_that_fails(rt: HostRuntime) {
    let mut sink = OutSink::new(Fitful::new());
    for (bytes, taken) in [(b"".as_slice(), Some(0)), (b"abcde", Some(4)), (b"e", None)] {
        assert!(rt; sink.write(bytes).ok() == taken);
    }
}

// A reader that gives two bytes a call.
#[derive(Drop)]
struct Drip {
    left: &'static [u8],
}

impl Read for Drip {
    fn read(&mut self, buf: &mut [u8]) -> io::Result<usize> {
        let some = self.left.len().min(buf.len()).min(2);
        buf[..some].copy_from_slice(&self.left[..some]);
        self.left = &self.left[some..];
        Ok(some)
    }
}

// A writer that takes two bytes a call.
#[derive(Drop)]
struct Slow {
    taken: Vec<u8>,
}

impl Write for Slow {
    fn write(&mut self, buf: &[u8]) -> io::Result<usize> {
        let some = buf.len().min(2);
        self.taken.extend_from_slice(&buf[..some])?;
        Ok(some)
    }

    fn flush(&mut self) -> io::Result<()> {
        Ok(())
    }
}

#[test]
fn piece_by_piece(rt: HostRuntime) {
    let alloc = rt.alloc();
    assert!(rt; reads(alloc, Drip { left: b"seventh" }, 7, b"seventh"));
    assert!(rt; reads(alloc, Drip { left: b"seventh" }, 6, LONGER));
    let mut slow = Slow {
        taken: Vec::new(alloc),
    };
    assert!(rt; put(&mut slow, b"seventh") == 7);
    assert!(rt; slow.taken.as_slice() == b"seventh".as_slice());
}
