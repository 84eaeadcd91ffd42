//! The streams of a hub in memory.

ghost use Rattle.std.specs.Prelude.{
  ◌≡◌,
  ◌<◌,
  ◌≤◌,
  ◌∷◌,
  [],
  ℕ,
  length,
  replicate,
  Some,
  slice_get,
  IfSome,
  IfOk,
  OnOk,
};
ghost use Rattle.hub_mem.specs.Stories.{Came, clock_after, joined_after};
ghost use Rattle.hub_mem.specs.Streams.{names, is_at, with_read, with_taken};
ghost use Rattle.hub_mem.specs.Feeds.{bytes_of, new_feed};
ghost use Rattle.hub_mem.specs.Standing.{AddsAt, AddsComing, Changes, Hears, HearsAt};

use crate::stream::Stream;
use script_screen::TraceLine;
use share_base::OutOfMemory;
use std::alloc::Global;
use std::marker::Model;

/// The streams, each at the index of its serial, none at 0; how many have joined, and the clock.
#[derive(Drop)]
pub(crate) struct Streams {
    streams: Vec<Stream>,
    joined: u64,
    clock: u64,
}

/// The connection that a line names, `None` for a turn.
pub fn connection_of(line: &TraceLine) -> Option<u64>
    ensures { (c : ℕ) → names c line.now ≡ is_at result c }
{
    match line {
        TraceLine::Turn(_) => None,
        TraceLine::Join(connection) | TraceLine::End(connection) | TraceLine::Fail(connection) => {
            Some(*connection)
        }
        TraceLine::Got { connection, .. } | TraceLine::Room { connection, .. } => Some(*connection),
    }
}

/// The bytes that a line gives, none but for `Got`.
pub fn bytes_of(line: &TraceLine) -> &[u8]
    ensures { result.now ≡ bytes_of line.now }
{
    match line {
        TraceLine::Got { bytes, .. } => bytes.as_slice(),
        _ => &[],
    }
}

impl Model for Streams {
    ghost use Rattle.hub_mem.specs.Standing.{Table};

    ghost Value = { Table };

    ghost view = { λ s. record {
      feeds = s.streams.items;
      joined = s.joined;
      clock = s.clock;
    } };
}

impl Streams {
    /// New streams with the indexes below `count`, for which no bytes come.
    pub(crate) fn new(alloc: Global, count: usize) -> Result<Streams, OutOfMemory>
        ensures { IfOk result
            (λ s. s ≡ record { feeds = replicate count new_feed; joined = 0; clock = 0 }) }
    {
        let mut streams = Vec::with_capacity(alloc, count)?;
        for _index in 0..count {
            streams.push(Stream::new(alloc))?;
        }
        Ok(Streams {
            streams,
            joined: 0,
            clock: 0,
        })
    }

    /// Adds the bytes that a line has for its stream, which come later. On `OutOfMemory` some
    /// stream may have them.
    pub(crate) fn add_coming(&mut self, line: &TraceLine) -> Result<(), OutOfMemory>
        ensures { OnOk result (AddsComing (line.now ∷ []) self.old self.new) }
    {
        let Some(connection) = connection_of(line) else {
            return Ok(());
        };
        self.add_at(connection, bytes_of(line))?;
        Ok(())
    }

    /// Adds bytes that come later to one stream, if it is there.
    fn add_at(&mut self, connection: u64, bytes: &[u8]) -> Result<(), OutOfMemory>
        ensures { OnOk result (AddsAt connection bytes.now self.old self.new) }
    {
        if let Some(stream) = self.streams.get_mut(connection as usize) {
            stream.add_coming(bytes)?;
        }
        Ok(())
    }

    /// Hears lines.
    pub(crate) fn hear_all(&mut self, lines: &[TraceLine])
        ensures { Hears lines.now self.old self.new }
    {
        for line in lines {
            self.hear(line);
        }
    }

    fn hear(&mut self, line: &TraceLine)
        ensures { Hears (line.now ∷ []) self.old self.new }
    {
        self.count(line);
        let Some(connection) = connection_of(line) else {
            return;
        };
        self.hear_at(connection, line);
    }

    /// Lets one stream hear a line, if it is there.
    fn hear_at(&mut self, connection: u64, line: &TraceLine)
        ensures { HearsAt connection line.now self.old self.new }
    {
        if let Some(stream) = self.streams.get_mut(connection as usize) {
            stream.hear(line);
        }
    }

    /// Counts a connection that joins, and sets the clock at a turn.
    fn count(&mut self, line: &TraceLine)
        ensures { self.new
            ≡ record self.old {
              joined = joined_after self.old.joined (Came line.now);
              clock = clock_after self.old.clock (Came line.now);
            } }
    {
        match line {
            TraceLine::Turn(moment) => self.clock = *moment,
            TraceLine::Join(_) => self.joined = self.joined.saturating_add(1),
            _ => {}
        }
    }

    /// How many connections have joined.
    pub(crate) fn joined(&self) -> u64
        ensures { result ≡ self.now.joined }
    {
        self.joined
    }

    /// The moment of the latest turn, 0 before the first.
    pub(crate) fn clock(&self) -> u64
        ensures { result ≡ self.now.clock }
    {
        self.clock
    }

    /// The stream of that serial.
    pub(crate) fn at(&self, serial: u64) -> &Stream
        requires { serial < length self.now.feeds }
        ensures { slice_get self.now.feeds serial ≡ Some result.now }
    {
        &self.streams[serial as usize]
    }

    /// Counts that many bytes of a stream as read.
    pub(crate) fn skip(&mut self, serial: u64, count: usize)
        requires there { IfSome (slice_get self.old.feeds serial)
            (λ f. count ≤ length f.stream.unread) }
        ensures { Changes serial (with_read count) self.old self.new }
    {
        if let Some(stream) = self.streams.get_mut(serial as usize) {
            stream.skip(count);
        }
    }

    /// Counts that many bytes as taken by a stream.
    pub(crate) fn take(&mut self, serial: u64, count: usize)
        ensures { Changes serial (with_taken count) self.old self.new }
    {
        if let Some(stream) = self.streams.get_mut(serial as usize) {
            stream.take(count);
        }
    }
}
