ghost use Rattle.std.specs.Prelude.{◌≡◌, ◌≤◌, ◌<◌, [], IfOk, Some, Ok, length};
ghost use Rattle.viz_base.specs.Numbers.{Rose};
ghost use Rattle.viz_outside.specs.MemorySink.{answer_of, after_write};

use crate::calls::lists_call;
use crate::{Sink, SinkFailed};
use std::alloc::Global;
use std::marker::Model;
use viz_base::{List, Mem};

/// Bytes in memory, with room for a fixed number. Calls of chosen numbers, counted from 0, fail.
#[derive(Drop)]
pub struct MemSink {
    bytes: Vec<u8>,
    most: usize,
    room: usize,
    fails: List<u32>,
    calls: u64,
    faults: u64,
}

impl Model for MemSink {
    ghost use Rattle.std.specs.Prelude.{◌≤◌, vec_len, vec_capacity};
    ghost use Rattle.viz_outside.specs.MemorySink.{SinkState};

    ghost Value = { SinkState };

    ghost view = { λ s. record {
      bytes = s.bytes.items;
      most = s.most;
      room = s.room;
      fails = s.fails;
      calls = s.calls;
      faults = s.faults;
    } };

    ghost invariant = { λ s. (1 ≤ s.most) × (vec_len s.bytes ≤ s.room) × (s.room ≤ vec_capacity s.bytes) };
}

impl MemSink {
    /// An empty sink with room for `room` bytes, for which it takes memory at once. A call takes at most
    /// `most` bytes, and call number n fails where n is in `fails`.
    pub fn new(alloc: Global, most: usize, room: usize, fails: List<u32>) -> Result<MemSink, Mem>
        requires { 1 ≤ most }
        ensures { IfOk result (λ sink.
            sink ≡ record { bytes = []; most = most; room = room; fails = fails; calls = 0; faults = 0 }) }
    {
        Ok(MemSink {
            bytes: Vec::with_capacity(alloc, room)?,
            most,
            room,
            fails,
            calls: 0,
            faults: 0,
        })
    }

    /// The bytes taken so far.
    pub fn written(&self) -> &[u8]
        ensures { result.now ≡ self.now.bytes }
    {
        &self.bytes
    }
}

impl Sink for MemSink {
    ghost written = { λ s. Some s.bytes };

    ghost faults = { λ s. s.faults };

    fn write(&mut self, bytes: &[u8]) -> Result<usize, SinkFailed>
        ensures answer { result ≡ answer_of self.old bytes.now }
        ensures after { self.new ≡ after_write self.old bytes.now }
        ensures counts { self.old.faults ≤ self.new.faults }
        ensures stuck { result ≡ Ok 0 → 0 < length bytes.now
            → Rose self.old.faults self.new.faults }
    {
        let number = self.calls;
        self.calls = number.saturating_add(1);
        let left = self.room - self.bytes.len();
        let full = left == 0 && !bytes.is_empty();
        if full || lists_call(self.fails.as_slice(), number) {
            self.faults = self.faults.saturating_add(1);
            return Err(SinkFailed);
        }
        let taken = self.most.min(left).min(bytes.len());
        match self.bytes.extend_from_slice(&bytes[..taken]) {
            Ok(()) => Ok(taken),
            Err(_) => unreachable!(),
        }
    }
}
