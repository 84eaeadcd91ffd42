//! A trace as it is played to a link.

ghost use Rattle.std.specs.Prelude.{◌≡◌, ◌==◌, ◌≤◌, ◌∷◌, [], drop, false, length, IfOk, OnOk};
ghost use Rattle.std.specs.List.{fold};
ghost use Rattle.hub_mem.specs.Stories.{came_all, clock_after, next_turn, story_of};
ghost use Rattle.hub_mem.specs.Streams.{is_at, is_for_link, with_read, with_taken};
ghost use Rattle.hub_mem.specs.Feeds.{coming_in, feed_seen, with_coming};
ghost use Rattle.hub_mem.specs.Standing.{feed_after_all};
ghost use Rattle.link_mem.specs.LinkAnswers.{ready_by};
ghost use Rattle.link_mem.specs.LinkStanding.{LinkStandsFor, heard_if, link_advanced, with_stream};

use hub_acts::LinkWaited;
use hub_mem::{Cursor, Stream, bytes_of, connection_of, is_readable, is_writable, joins_one};
use script_screen::{Trace, TraceLine};
use share_base::OutOfMemory;
use std::alloc::Global;
use std::marker::Model;

/// The connection of a trace whose lines are the link's.
const LINK_CONNECTION: u64 = 1;

/// A trace, the stream of its connection 1, the clock, and whether the link is open. Contracts see
/// a `LinkStage`.
#[derive(Drop)]
pub(crate) struct LinkPlayback {
    cursor: Cursor,
    stream: Stream,
    clock: u64,
    is_open: bool,
}

impl Model for LinkPlayback {
    ghost use Rattle.link_mem.specs.LinkStanding.{LinkStage};

    ghost Value = { LinkStage };

    ghost view = { λ p. record {
      lines = p.cursor.lines;
      at = p.cursor.at;
      feed = p.stream;
      clock = p.clock;
      is_open = p.is_open;
    } };
}

/// Whether the line is for the link: it names connection 1 and does not join.
fn is_for_link(line: &TraceLine) -> bool
    ensures { result ≡ is_for_link line.now }
{
    names_link(connection_of(line)) && !joins_one(line)
}

/// Whether it is connection 1.
fn names_link(connection: Option<u64>) -> bool
    ensures { result ≡ is_at connection 1 }
{
    match connection {
        Some(connection) => connection == LINK_CONNECTION,
        None => false,
    }
}

/// Adds the bytes that a line has for the link, which come later. On `OutOfMemory` nothing changed.
fn add_coming(stream: &mut Stream, line: &TraceLine) -> Result<(), OutOfMemory>
    ensures { OnOk result (stream.new ≡ with_coming (coming_in is_for_link (line.now ∷ []))
        stream.old) }
{
    if is_for_link(line) {
        stream.add_coming(bytes_of(line))?;
    }
    Ok(())
}

/// Lets the stream hear a line, if it is for the link.
fn hear(stream: &mut Stream, line: &TraceLine)
    ensures { stream.new ≡ feed_seen is_for_link line.now stream.old }
{
    if is_for_link(line) {
        stream.hear(line);
    }
}

/// Lets the stream hear lines.
fn hear_all(stream: &mut Stream, lines: &[TraceLine])
    ensures { stream.new ≡ feed_after_all is_for_link lines.now stream.old }
{
    for line in lines {
        hear(stream, line);
    }
}

/// Lets the stream hear lines, if the link is open.
fn hear_if_open(stream: &mut Stream, is_open: bool, lines: &[TraceLine])
    ensures { stream.new ≡ heard_if is_open lines.now stream.old }
{
    if is_open {
        hear_all(stream, lines);
    }
}

/// The moment after a line.
fn clock_after(clock: u64, line: &TraceLine) -> u64
    ensures { result ≡ fold clock_after clock (came_all (line.now ∷ [])) }
{
    match line {
        TraceLine::Turn(moment) => *moment,
        _ => clock,
    }
}

/// The moment after lines.
fn clock_after_all(clock: u64, lines: &[TraceLine]) -> u64
    ensures { result ≡ fold clock_after clock (came_all lines.now) }
{
    let mut moment = clock;
    for line in lines {
        moment = clock_after(moment, line);
    }
    moment
}

impl LinkPlayback {
    /// A trace of which no line has come.
    pub(crate) fn of_trace(alloc: Global, trace: Trace) -> Result<LinkPlayback, OutOfMemory>
        ensures lines { IfOk result (λ p. p.lines ≡ trace) }
        ensures stands { IfOk result (λ p. LinkStandsFor p (story_of trace [])) }
    {
        let mut stream = Stream::new(alloc);
        for line in trace.lines() {
            add_coming(&mut stream, line)?;
        }
        Ok(LinkPlayback {
            cursor: Cursor::new(trace),
            stream,
            clock: 0,
            is_open: true,
        })
    }

    /// Whether all lines have come.
    pub(crate) fn is_over(&self) -> bool
        ensures { result ≡ (length (drop self.now.at self.now.lines) == 0) }
    {
        self.cursor.is_over()
    }

    /// What the next turn makes the link ready for.
    pub(crate) fn next_ready(&self) -> LinkWaited
        ensures { result ≡ ready_by self.now.is_open (next_turn (drop self.now.at self.now.lines)) }
    {
        let turn = self.cursor.next_turn();
        LinkWaited::Ready {
            readable: self.is_open && is_readable(turn, LINK_CONNECTION),
            writable: self.is_open && is_writable(turn, LINK_CONNECTION),
        }
    }

    /// Lets the next turn come.
    pub(crate) fn advance(&mut self)
        ensures { self.new ≡ link_advanced self.old }
    {
        let turn = self.cursor.next_turn();
        hear_if_open(&mut self.stream, self.is_open, turn);
        self.clock = clock_after_all(self.clock, turn);
        self.cursor.pass();
    }

    /// The moment of the latest turn, 0 before the first.
    pub(crate) fn clock(&self) -> u64
        ensures { result ≡ self.now.clock }
    {
        self.clock
    }

    /// The stream.
    pub(crate) fn stream(&self) -> &Stream
        ensures { result.now ≡ self.now.feed }
    {
        &self.stream
    }

    /// Counts that many bytes as read.
    pub(crate) fn skip(&mut self, count: usize)
        requires { count ≤ length self.old.feed.stream.unread }
        ensures { self.new ≡ with_stream (with_read count) self.old }
    {
        self.stream.skip(count);
    }

    /// Counts that many bytes as taken.
    pub(crate) fn take(&mut self, count: usize)
        ensures { self.new ≡ with_stream (with_taken count) self.old }
    {
        self.stream.take(count);
    }

    /// Closes the link: lines do nothing from here on.
    pub(crate) fn close(&mut self)
        ensures { self.new ≡ record self.old { is_open = false } }
    {
        self.is_open = false;
    }
}
