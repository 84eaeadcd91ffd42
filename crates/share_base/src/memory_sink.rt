//! A sink in memory.

ghost use Rattle.std.specs.Prelude.{◌≡◌, ◌<◌, ◌≤◌, ◌↔◌, ◌⊎◌, IfOk, Contains, length};
ghost use Rattle.share_base.specs.Counts.{one_more};
ghost use Rattle.share_base.specs.Writing.{FitsWrite, Writes};
ghost use Rattle.share_base.specs.Memory.{MemoryOutput, output_of, output_state, SameOutput};

use crate::out_of_memory::OutOfMemory;
use crate::sink::{Sink, SinkAnswer};
use std::alloc::Global;
use std::marker::Model;

/// Room in memory for bytes that are written, with a list of the calls that fail, which are
/// numbered from 1. The room is reserved when it is made, so a write takes no memory. Contracts see
/// it as a `MemoryOutput`.
#[derive(Debug, Drop)]
pub struct MemorySink {
    bytes: Vec<u8>,
    room: usize,
    failing: Vec<u64>,
    calls: u64,
    faults: u64,
}

impl Model for MemorySink {
    ghost use Rattle.std.specs.Prelude.{◌≤◌, vec_len, vec_capacity};
    ghost use Rattle.share_base.specs.Memory.{MemoryOutput};

    ghost Value = { MemoryOutput };

    ghost view = { λ s. record {
      taken = s.bytes.items;
      room = s.room;
      failing = s.failing.items;
      calls = s.calls;
      faults = s.faults;
    } };

    ghost invariant = { λ s. (vec_len s.bytes ≤ s.room) × (s.room ≤ vec_capacity s.bytes) };
}

impl MemorySink {
    /// A sink with room for `room` bytes in all, whose writes of the listed numbers fail.
    pub fn new(alloc: Global, room: usize, failing: &[u64]) -> Result<MemorySink, OutOfMemory>
        ensures { IfOk result (λ s. s ≡ output_of room failing.now) }
    {
        let bytes = Vec::with_capacity(alloc, room)?;
        Ok(MemorySink {
            bytes,
            room,
            failing: Vec::from_slice(alloc, failing)?,
            calls: 0,
            faults: 0,
        })
    }

    /// What it has taken, first to last.
    pub fn bytes(&self) -> &[u8]
        ensures { result.now ≡ self.now.taken }
    {
        self.bytes.as_slice()
    }
}

impl Sink for MemorySink {
    ghost state = { output_state };

    /// Fails exactly at the listed calls and where no room is left.
    fn write(&mut self, bytes: &[u8]) -> SinkAnswer
        requires { 0 < length bytes.now }
        ensures fits { FitsWrite result (length bytes.now) }
        ensures writes { Writes result bytes.now (output_state self.old) (output_state self.new) }
        ensures fails { (result ≡ SinkAnswer.Failed)
            ↔ (Contains self.old.failing (one_more self.old.calls)
            ⊎ (self.old.room ≤ length self.old.taken)) }
        ensures kept { SameOutput self.old self.new }
    {
        self.calls = self.calls.saturating_add(1);
        if self.failing.contains(&self.calls) || self.bytes.len() >= self.room {
            self.faults = self.faults.saturating_add(1);
            return SinkAnswer::Failed;
        }
        let n = bytes.len().min(self.room - self.bytes.len());
        match self.bytes.extend_from_slice(&bytes[..n]) {
            Ok(()) => SinkAnswer::Took(n),
            Err(_) => unreachable!(),
        }
    }
}
