ghost use Rattle.std.specs.Prelude.{◌≡◌, ◌≤◌, IfSome, None, length, take, unwrap_or};
ghost use Rattle.std.specs.Io.KnownBytes.{Appends};

use crate::{Sink, SinkFailed};
use std::io::{self, ErrorKind, Print, Write};
use std::marker::Model;

/// Standard output. What it has taken is told by no contract. Contracts see the count of its faults.
#[derive(Drop)]
pub struct OutSink<R> {
    rt: R,
    faults: u64,
}

impl<R> Model for OutSink<R> {
    ghost use Rattle.std.specs.Prelude.{ℕ};

    ghost Value = { ℕ };

    ghost view = { λ s. s.faults };
}

impl<R> OutSink<R> {
    /// The standard output of the runtime, with no fault so far.
    pub fn new(rt: R) -> Self
        ensures { result ≡ 0 }
    {
        OutSink { rt, faults: 0 }
    }
}

// How many bytes one call takes, 0 where it is interrupted. There is none where it takes nothing or fails.
#[tactic(auto, using(crate::proofs::ByteLemmas::appends_nothing))]
fn write_some<W: Write>(to: &mut W, bytes: &[u8]) -> Option<usize>
    ensures within { IfSome result (λ taken. taken ≤ length bytes.now) }
    ensures written { Appends (W.contents to.old) (W.contents to.new)
        (take (unwrap_or result 0) bytes.now) }
{
    match to.write(bytes) {
        Ok(0) => None,
        Ok(taken) => Some(taken),
        Err(error) if error.kind() == ErrorKind::Interrupted => Some(0),
        Err(_) => None,
    }
}

// Writes all the bytes, or as many as can be written before the first failure that is no interruption.
pub(crate) fn put<W: Write>(to: &mut W, bytes: &[u8]) -> usize
    ensures within { result ≤ length bytes.now }
    ensures written { Appends (W.contents to.old) (W.contents to.new) (take result bytes.now) }
{
    let mut done = 0;
    for _ in 0..u64::MAX {
        if done == bytes.len() {
            return done;
        }
        match write_some(to, &bytes[done..]) {
            Some(taken) => done += taken,
            None => return done,
        }
    }
    done
}

impl<R: Print> Sink for OutSink<R> {
    ghost written = { λ _. None };

    ghost faults = { λ s. s };

    fn write(&mut self, bytes: &[u8]) -> Result<usize, SinkFailed> {
        let taken = put(&mut io::writer(&self.rt), bytes);
        if taken == 0 && !bytes.is_empty() {
            self.faults = self.faults.saturating_add(1);
            return Err(SinkFailed);
        }
        Ok(taken)
    }
}
