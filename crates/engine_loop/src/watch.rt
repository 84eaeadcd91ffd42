//! What may still be read, written or accepted without a new mark.

ghost use Rattle.std.specs.Prelude.{◌≡◌, [], true, length, fold, OnOk, OnErr};
ghost use Rattle.std.specs.List.{list_any};
ghost use Rattle.attentive_acts.specs.Flags.{with_mark};
ghost use Rattle.engine_loop.specs.Watches.{changed_one, changed_all, reads_as, writes_as};
ghost use Rattle.engine_loop.specs.Watches.{Sets, Opens, without};

use hub_acts::Mark;
use share_base::OutOfMemory;
use std::alloc::Global;

/// What is known of one open connection.
#[derive(Clone, Copy, Debug, PartialEq, Eq)]
pub(crate) struct Stream {
    /// Its serial.
    pub(crate) serial: u64,
    /// It is undrained for reading.
    pub(crate) reads: bool,
    /// It was undrained for writing when `seen` bytes were queued for it.
    pub(crate) writes: bool,
    /// How many bytes were queued for it by then. More that are queued since are as good as a mark.
    pub(crate) seen: u64,
}

/// What becomes known of one connection.
#[derive(Clone, Copy, Debug, PartialEq, Eq)]
pub(crate) enum Change {
    /// It is ready.
    Marked {
        /// There may be something to read.
        readable: bool,
        /// There may be room to write.
        writable: bool,
    },
    /// Nothing more can be read now.
    ReadsDrained,
    /// Nothing more can be written now.
    WritesDrained {
        /// How many bytes were queued for it by then.
        seen: u64,
    },
}

/// What the loop watches: the listener, and the open connections in the order of their acceptance.
#[derive(Drop)]
pub(crate) struct Watch {
    /// The listener is undrained.
    pub(crate) listens: bool,
    /// The open connections.
    pub(crate) streams: Vec<Stream>,
}

/// Changes what is known of a connection, if it has that serial.
fn change_one(stream: &mut Stream, serial: u64, change: Change)
    ensures { stream.new ≡ changed_one serial change stream.old }
{
    if stream.serial == serial {
        match change {
            Change::Marked { readable, writable } => {
                stream.reads = stream.reads || readable;
                stream.writes = stream.writes || writable;
            }
            Change::ReadsDrained => stream.reads = false,
            Change::WritesDrained { seen } => {
                stream.writes = false;
                stream.seen = seen;
            }
        }
    }
}

impl Watch {
    /// No connection is open yet, and one may wait.
    pub(crate) fn new(alloc: Global) -> Watch
        ensures listens { result.listens ≡ true }
        ensures streams { result.streams.items ≡ [] }
    {
        Watch {
            listens: true,
            streams: Vec::new(alloc),
        }
    }

    /// The open connections.
    pub(crate) fn len(&self) -> usize
        ensures { result ≡ length self.now.streams.items }
    {
        self.streams.len()
    }

    /// Adds a connection that was just accepted. On `OutOfMemory` the same ones are watched.
    pub(crate) fn open(&mut self, serial: u64) -> Result<(), OutOfMemory>
        ensures ok { OnOk result (Opens self.old self.new serial) }
        ensures err { OnErr result (self.new.streams.items ≡ self.old.streams.items) }
    {
        self.streams.push(Stream {
            serial,
            reads: true,
            writes: false,
            seen: 0,
        })?;
        Ok(())
    }

    /// Removes a connection.
    pub(crate) fn close(&mut self, serial: u64)
        ensures streams { self.new.streams.items ≡ without serial self.old.streams.items }
        ensures listens { self.new.listens ≡ self.old.listens }
    {
        self.streams.retain(|stream| stream.serial != serial);
    }

    /// Changes what is known of the connection with that serial, if it is open.
    pub(crate) fn change(&mut self, serial: u64, change: Change)
        ensures streams { self.new.streams.items
            ≡ changed_all serial change self.old.streams.items }
        ensures listens { self.new.listens ≡ self.old.listens }
    {
        for stream in self.streams.iter_mut() {
            change_one(stream, serial, change);
        }
    }

    /// Heeds one mark of a wait.
    fn heed(&mut self, mark: Mark)
        ensures { Sets self.old self.new (λ fs. with_mark fs mark) }
    {
        match mark {
            Mark::Accept => self.listens = true,
            Mark::Stream {
                serial,
                readable,
                writable,
            } => self.change(serial, Change::Marked { readable, writable }),
        }
    }

    /// Heeds all marks of a wait, first to last.
    pub(crate) fn heed_all(&mut self, marks: &[Mark])
        ensures { Sets self.old self.new (λ fs. fold with_mark fs marks.now) }
    {
        for mark in marks {
            self.heed(*mark);
        }
    }

    /// Whether the connection with that serial is undrained for reading.
    pub(crate) fn may_read(&self, serial: u64) -> bool
        ensures { result ≡ list_any (reads_as serial) self.now.streams.items }
    {
        self.streams
            .iter()
            .any(|stream| stream.serial == serial && stream.reads)
    }

    /// Whether the connection with that serial is undrained for writing, where so many bytes were
    /// queued for it in all.
    pub(crate) fn may_write(&self, serial: u64, total: u64) -> bool
        ensures { result ≡ list_any (writes_as serial total) self.now.streams.items }
    {
        self.streams.iter().any(|stream| stream.serial == serial
            && (stream.writes || stream.seen < total))
    }
}
