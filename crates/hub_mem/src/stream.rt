//! One stream of a trace.

ghost use Rattle.std.specs.Prelude.{◌≡◌, ◌≤◌, ◌++◌, [], length, take, IfOk, OnOk, OnErr};
ghost use Rattle.hub_mem.specs.Streams.{new_stream, with_read, with_taken};
ghost use Rattle.hub_mem.specs.Feeds.{IsFront, with_arrived, feed_heard};
ghost use Rattle.hub_mem.specs.Answers.{end_answer, write_answer};

use hub_acts::{ReadAnswer, WriteAnswer};
use script_screen::TraceLine;
use share_base::{Octets, OutOfMemory};
use std::alloc::Global;
use std::marker::Model;

/// A stream: all bytes that its trace has for it, and how far they came and were read. Contracts
/// see a `Feed`.
#[derive(Drop)]
pub struct Stream {
    bytes: Vec<u8>,
    read: usize,
    arrived: usize,
    has_ended: bool,
    has_failed: bool,
    room: Option<u64>,
}

impl Model for Stream {
    ghost use Rattle.std.specs.Prelude.{◌≤◌, take, drop, length};
    ghost use Rattle.hub_mem.specs.Feeds.{Feed};

    ghost Value = { Feed };

    ghost view = { λ s. record {
      stream = record {
        unread = drop s.read (take s.arrived s.bytes.items);
        has_ended = s.has_ended;
        has_failed = s.has_failed;
        room = s.room;
      };
      coming = drop s.arrived s.bytes.items;
    } };

    ghost invariant = { λ s. (s.read ≤ s.arrived) × (s.arrived ≤ length s.bytes.items) };
}

impl Stream {
    /// A new stream, for which no bytes come. Later calls allocate from `alloc`.
    pub fn new(alloc: Global) -> Stream
        ensures { result ≡ record { stream = new_stream; coming = [] } }
    {
        Stream {
            bytes: Vec::new(alloc),
            read: 0,
            arrived: 0,
            has_ended: false,
            has_failed: false,
            room: None,
        }
    }

    /// Adds bytes that come later. On `OutOfMemory` nothing changed.
    pub fn add_coming(&mut self, bytes: &[u8]) -> Result<(), OutOfMemory>
        ensures ok { OnOk result
            (self.new ≡ record self.old { coming = self.old.coming ++ bytes.now }) }
        ensures err { OnErr result (self.new ≡ self.old) }
    {
        self.bytes.extend_from_slice(bytes)?;
        Ok(())
    }

    /// Hears a line that is for this stream.
    pub fn hear(&mut self, line: &TraceLine)
        ensures { self.new ≡ feed_heard line.now self.old }
    {
        match line {
            TraceLine::Turn(_) => {}
            TraceLine::Join(_) => self.begin(),
            TraceLine::Got { bytes, .. } => self.arrive(bytes.len()),
            TraceLine::End(_) => self.has_ended = true,
            TraceLine::Fail(_) => self.has_failed = true,
            TraceLine::Room { room, .. } => self.room = Some(*room),
        }
    }

    /// Begins anew: what came before is gone.
    fn begin(&mut self)
        ensures { self.new ≡ record self.old { stream = new_stream } }
    {
        self.read = self.arrived;
        self.has_ended = false;
        self.has_failed = false;
        self.room = None;
    }

    /// Lets that many bytes more come, or all if there are fewer.
    fn arrive(&mut self, count: usize)
        ensures { self.new ≡ with_arrived count self.old }
    {
        self.arrived += count.min(self.bytes.len() - self.arrived);
    }

    /// The bytes that came and were not read.
    pub fn unread(&self) -> &[u8]
        ensures { result.now ≡ self.now.stream.unread }
    {
        &self.bytes.as_slice()[self.read..self.arrived]
    }

    /// Copies the bytes that a read gives into the front of `buf`, and returns them.
    pub fn copy_front(&self, alloc: Global, buf: &mut [u8]) -> Result<Octets, OutOfMemory>
        ensures { IfOk result (λ bytes. IsFront self.now.stream bytes buf.old buf.new) }
    {
        let unread = self.unread();
        let count = buf.len().min(unread.len());
        let mut bytes = Octets::new(alloc);
        bytes.extend(&unread[..count])?;
        buf[..count].copy_from_slice(bytes.as_slice());
        Ok(bytes)
    }

    /// What a read answers where no byte is there.
    pub fn end_answer(&self) -> ReadAnswer
        ensures { result ≡ end_answer self.now.stream }
    {
        if self.has_failed {
            ReadAnswer::Failed
        } else if self.has_ended {
            ReadAnswer::End
        } else {
            ReadAnswer::NotNow
        }
    }

    /// What a write of that many bytes answers.
    pub fn write_answer(&self, offered: usize) -> WriteAnswer
        ensures { result ≡ write_answer offered self.now.stream }
    {
        if self.has_failed {
            return WriteAnswer::Failed;
        }
        match self.room {
            None => WriteAnswer::Took(offered),
            Some(0) => WriteAnswer::NotNow,
            Some(room) => WriteAnswer::Took((offered as u64).min(room) as usize),
        }
    }

    /// Counts that many bytes as read.
    pub fn skip(&mut self, count: usize)
        requires { count ≤ length self.old.stream.unread }
        ensures { self.new ≡ record self.old { stream = with_read count self.old.stream } }
    {
        self.read += count;
    }

    /// Counts that many bytes as taken.
    pub fn take(&mut self, count: usize)
        ensures { self.new ≡ record self.old { stream = with_taken count self.old.stream } }
    {
        if let Some(room) = self.room {
            self.room = Some(room.saturating_sub(count as u64));
        }
    }
}
