//! A source in memory.

ghost use Rattle.std.specs.Prelude.{◌≡◌, ◌<◌, ◌↔◌, IfOk, Contains, length};
ghost use Rattle.share_base.specs.Counts.{one_more};
ghost use Rattle.share_base.specs.Reading.{FitsRead, Reads};
ghost use Rattle.share_base.specs.Memory.{MemoryInput, input_of, input_state, SameInput};

use crate::out_of_memory::OutOfMemory;
use crate::source::{Source, SourceAnswer};
use std::alloc::Global;
use std::marker::Model;

/// Bytes in memory that are read, with a list of the calls that fail, which are numbered from 1.
/// Contracts see it as a `MemoryInput`.
#[derive(Debug, Drop)]
pub struct MemorySource {
    bytes: Vec<u8>,
    at: usize,
    at_before: usize,
    ended: bool,
    ended_before: bool,
    failing: Vec<u64>,
    calls: u64,
    faults: u64,
}

impl Model for MemorySource {
    ghost use Rattle.std.specs.Prelude.{drop};
    ghost use Rattle.share_base.specs.Memory.{MemoryInput};

    ghost Value = { MemoryInput };

    ghost view = { λ s. record {
      left = drop s.at s.bytes.items;
      ended = s.ended;
      left_before = drop s.at_before s.bytes.items;
      ended_before = s.ended_before;
      failing = s.failing.items;
      calls = s.calls;
      faults = s.faults;
    } };
}

impl MemorySource {
    /// A source of these bytes, whose reads of the listed numbers fail.
    pub fn new(alloc: Global, bytes: &[u8], failing: &[u64]) -> Result<MemorySource, OutOfMemory>
        ensures { IfOk result (λ s. s ≡ input_of bytes.now failing.now) }
    {
        Ok(MemorySource {
            bytes: Vec::from_slice(alloc, bytes)?,
            at: 0,
            at_before: 0,
            ended: false,
            ended_before: false,
            failing: Vec::from_slice(alloc, failing)?,
            calls: 0,
            faults: 0,
        })
    }
}

impl Source for MemorySource {
    ghost state = { input_state };

    /// Fails exactly at the listed calls.
    fn read(&mut self, buf: &mut [u8]) -> SourceAnswer
        requires { 0 < length buf.old }
        ensures fits { FitsRead result (length buf.old) }
        ensures reads { Reads result buf.new (input_state self.old) (input_state self.new) }
        ensures fails { (result ≡ SourceAnswer.Failed)
            ↔ Contains self.old.failing (one_more self.old.calls) }
        ensures kept { SameInput self.old self.new }
    {
        self.at_before = self.at;
        self.ended_before = self.ended;
        self.calls = self.calls.saturating_add(1);
        if self.failing.contains(&self.calls) {
            self.faults = self.faults.saturating_add(1);
            return SourceAnswer::Failed;
        }
        if self.at >= self.bytes.len() {
            self.ended = true;
            return SourceAnswer::End;
        }
        let n = buf.len().min(self.bytes.len() - self.at);
        let end = self.at + n;
        let part = &mut buf[..n];
        part.copy_from_slice(&self.bytes[self.at..end]);
        self.at = end;
        SourceAnswer::Got(n)
    }
}
