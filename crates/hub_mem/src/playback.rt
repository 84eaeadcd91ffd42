//! A trace as it is played.

ghost use Rattle.std.specs.Prelude.{
  ◌≡◌,
  ◌==◌,
  ◌<◌,
  ◌≤◌,
  [],
  drop,
  length,
  filter,
  Some,
  slice_get,
  IfOk,
  IfSome,
};
ghost use Rattle.script_screen.specs.Traces.{is_join};
ghost use Rattle.hub_mem.specs.Stories.{next_turn, story_of};
ghost use Rattle.hub_mem.specs.Streams.{with_read, with_taken};
ghost use Rattle.hub_mem.specs.Standing.{Advances, Changes, StandsFor};

use crate::cursor::Cursor;
use crate::stream::Stream;
use crate::streams::Streams;
use script_screen::{Trace, TraceLine};
use share_base::OutOfMemory;
use std::alloc::Global;
use std::marker::Model;

/// A trace, how many of its lines have come, and its streams. Contracts see a `Stage`.
#[derive(Drop)]
pub(crate) struct Playback {
    cursor: Cursor,
    streams: Streams,
}

impl Model for Playback {
    ghost use Rattle.hub_mem.specs.Standing.{Stage};

    ghost Value = { Stage };

    ghost view = { λ p. record {
      lines = p.cursor.lines;
      at = p.cursor.at;
      table = p.streams;
    } };
}

/// The number of connections that join.
fn joins(lines: &[TraceLine]) -> usize
    ensures count { result ≡ length (filter is_join lines.now) }
    ensures within { result ≤ length lines.now }
{
    lines.iter().filter(|line| joins_one(line)).count()
}

/// Whether a connection joins at that line.
pub fn joins_one(line: &TraceLine) -> bool
    ensures { result ≡ is_join line.now }
{
    matches!(line, TraceLine::Join(_))
}

impl Playback {
    /// A trace of which no line has come.
    pub(crate) fn of_trace(alloc: Global, trace: Trace) -> Result<Playback, OutOfMemory>
        ensures lines { IfOk result (λ p. p.lines ≡ trace) }
        ensures stands { IfOk result (λ p. StandsFor p (story_of trace [])) }
    {
        let count = joins(trace.lines());
        let mut streams = Streams::new(alloc, count + 1)?;
        for line in trace.lines() {
            streams.add_coming(line)?;
        }
        Ok(Playback {
            cursor: Cursor::new(trace),
            streams,
        })
    }

    /// The lines of the next turn, none if no line is ahead.
    pub(crate) fn next_turn(&self) -> &[TraceLine]
        ensures { result.now ≡ next_turn (drop self.now.at self.now.lines) }
    {
        self.cursor.next_turn()
    }

    /// Whether all lines have come.
    pub(crate) fn is_over(&self) -> bool
        ensures { result ≡ (length (drop self.now.at self.now.lines) == 0) }
    {
        self.cursor.is_over()
    }

    /// Lets the next turn come.
    pub(crate) fn advance(&mut self)
        ensures { Advances self.old self.new }
    {
        self.streams.hear_all(self.cursor.next_turn());
        self.cursor.pass();
    }

    /// How many connections have joined.
    pub(crate) fn joined(&self) -> u64
        ensures { result ≡ self.now.table.joined }
    {
        self.streams.joined()
    }

    /// The moment of the latest turn, 0 before the first.
    pub(crate) fn clock(&self) -> u64
        ensures { result ≡ self.now.table.clock }
    {
        self.streams.clock()
    }

    /// The stream of that serial.
    pub(crate) fn stream(&self, serial: u64) -> &Stream
        requires { serial < length self.now.table.feeds }
        ensures { slice_get self.now.table.feeds serial ≡ Some result.now }
    {
        self.streams.at(serial)
    }

    /// Counts that many bytes of a stream as read.
    pub(crate) fn skip(&mut self, serial: u64, count: usize)
        requires { IfSome (slice_get self.old.table.feeds serial)
            (λ f. count ≤ length f.stream.unread) }
        ensures table { Changes serial (with_read count) self.old.table self.new.table }
        ensures same { self.new ≡ record self.old { table = self.new.table } }
    {
        self.streams.skip(serial, count);
    }

    /// Counts that many bytes as taken by a stream.
    pub(crate) fn take(&mut self, serial: u64, count: usize)
        ensures table { Changes serial (with_taken count) self.old.table self.new.table }
        ensures same { self.new ≡ record self.old { table = self.new.table } }
    {
        self.streams.take(serial, count);
    }
}
