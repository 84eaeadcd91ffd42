//! One connection.

ghost use Rattle.std.specs.Prelude.{
  ◌≡◌,
  ◌≤◌,
  ◌<◌,
  ◌+◌,
  ◌^◌,
  [],
  None,
  length,
  not,
  IfOk,
  OnOk,
  OnErr,
};
ghost use Rattle.message_codec.specs.Spelling.{body_of};
ghost use Rattle.wire_frames.specs.declared.limits.TheConstants.{BODY_LIMIT};
ghost use Rattle.share_base.specs.Shapes.{IsScreenShape};
ghost use Rattle.share_base.specs.declared.screen_set.TheConstants.{MOST_SCREENS};
ghost use Rattle.hello_states.specs.Phases.{is_parting, after_beat_in, after_hearing_in};
ghost use Rattle.hello_states.specs.Advancing.{admitted_as, joined_with, reshaped_to};
ghost use Rattle.clip_chunks.specs.Assemblies.{whole_in};
ghost use Rattle.connection_table.specs.PhaseOf.{phase_of};
ghost use Rattle.connection_table.specs.Tables.{is_joined_as, is_too_slow};
ghost use Rattle.connection_table.specs.Calls.{Begins, Reads, Sends, Parts, Drops, Takes, Advances};
ghost use Rattle.connection_table.specs.PartsTaken.{TakesPart};

use crate::phase::Phase;
use crate::reading::{Reading, read_piece};
use clip_chunks::{Assembly, Took};
use hello_states::{Greeting, PartCause, Parting};
use message_codec::{ClipMark, Msg};
use message_reader::{MessageReader, Role};
use send_queue::SendQueue;
use share_base::{ClipId, Octets, OutOfMemory, ScreenNo, Shape};
use std::alloc::Global;
use std::mem;

/// What a server keeps of one connection: how far it has come, the reader of its bytes, what it has
/// sent of each clipboard, and what is queued for it.
#[derive(Drop)]
pub struct Connection {
    pub(crate) serial: u64,
    pub(crate) phase: Phase,
    pub(crate) reader: MessageReader,
    pub(crate) clipboard: Assembly,
    pub(crate) selection: Assembly,
    pub(crate) queue: SendQueue,
}

impl Connection {
    /// Begins the connection of that serial, which was accepted at that moment, in milliseconds. A
    /// clipboard that it sends may have at most `clip_limit` bytes. It takes no memory yet.
    pub fn begin(alloc: Global, serial: u64, now: u64, clip_limit: u32) -> Connection
        ensures { Begins result serial now clip_limit }
    {
        Connection {
            serial,
            phase: Phase::Greeting(Greeting::begin(serial, now)),
            reader: MessageReader::new(alloc, Role::Server),
            clipboard: Assembly::new(alloc, clip_limit),
            selection: Assembly::new(alloc, clip_limit),
            queue: SendQueue::new(alloc),
        }
    }

    /// Returns the serial of the connection.
    pub fn serial(&self) -> u64
        ensures { result ≡ self.now.serial }
    {
        self.serial
    }

    /// Returns how far the connection has come.
    pub fn phase(&self) -> &Phase
        ensures { result.now ≡ self.now.phase }
    {
        &self.phase
    }

    /// Returns what is queued for the connection.
    pub fn queue(&self) -> &SendQueue
        ensures { result.now ≡ self.now.queue }
    {
        &self.queue
    }

    /// Returns how many bytes the reader of the connection was given.
    pub fn given(&self) -> u64
        ensures { result ≡ self.now.reader.total }
    {
        self.reader.total()
    }

    /// Tells whether the connection isn't parting.
    pub fn is_live(&self) -> bool
        ensures { result ≡ not (is_parting (phase_of self.now.phase)) }
    {
        self.phase.is_live()
    }

    // Tells whether the connection is joined as that screen.
    pub(crate) fn is_joined_as(&self, screen: ScreenNo) -> bool
        ensures { result ≡ is_joined_as screen.0 self.now }
    {
        match self.phase.joined_screen() {
            Some(joined) => joined == screen,
            None => false,
        }
    }

    // Tells whether the connection isn't parting though a frame was left out of its queue.
    pub(crate) fn is_too_slow(&self) -> bool
        ensures { result ≡ is_too_slow self.now }
    {
        self.phase.is_live() && self.queue.is_slow()
    }

    // Reads the next piece of the connection's bytes, which are fewer than 2^63 in all.
    pub(crate) fn read(&mut self, alloc: Global, piece: &[u8]) -> Result<Reading, OutOfMemory>
        requires { self.old.reader.total + length piece.now < 2 ^ 63 }
        ensures { IfOk result (λ reading. Reads piece.now reading self.old self.new) }
    {
        read_piece(alloc, &mut self.reader, piece)
    }

    // Queues a message. On `OutOfMemory` nothing changes.
    pub(crate) fn send(&mut self, message: &Msg) -> Result<(), OutOfMemory>
        requires { length (body_of message.now) ≤ BODY_LIMIT }
        ensures ok { OnOk result (Sends message.now self.old self.new) }
        ensures err { OnErr result (self.new ≡ self.old) }
    {
        self.queue.push(message)?;
        Ok(())
    }

    // Parts the connection for that cause at that moment; where the cause says so, what is queued
    // is dropped. One that is parting already keeps its cause and its moment.
    pub(crate) fn part(&mut self, cause: PartCause, now: u64)
        ensures { Parts cause now self.old self.new }
    {
        self.phase = self.take_phase().part(cause, now);
        if cause.drops_queue() {
            self.queue.discard();
        }
    }

    // Counts a beat as sent at that moment, if the connection is joined and a beat is due.
    pub(crate) fn beat(&mut self, now: u64)
        ensures { Advances (λ p. after_beat_in p now) self.old self.new }
    {
        self.phase = self.take_phase().beaten(now);
    }

    // Counts a whole message as heard at that moment, if the connection is joined.
    pub(crate) fn hear(&mut self, now: u64)
        ensures { Advances (λ p. after_hearing_in p now) self.old self.new }
    {
        self.phase = self.take_phase().heard(now);
    }

    // Admits the connection as that screen, if it is to answer. Its keep-alive will have that rate.
    pub(crate) fn admit(&mut self, screen: ScreenNo, rate: u32)
        requires { screen.0 < MOST_SCREENS }
        ensures { Advances (admitted_as screen.0 rate) self.old self.new }
    {
        self.phase = self.take_phase().admitted(screen, rate);
    }

    // Joins the connection with that shape at that moment, if its shape was asked.
    pub(crate) fn join(&mut self, shape: Shape, now: u64)
        requires { IsScreenShape shape }
        ensures { Advances (joined_with shape now) self.old self.new }
    {
        self.phase = self.take_phase().joined(shape, now);
    }

    // Gives the screen another shape at that moment, if the connection is joined.
    pub(crate) fn reshape(&mut self, shape: Shape, now: u64)
        requires { IsScreenShape shape }
        ensures { Advances (reshaped_to shape now) self.old self.new }
    {
        self.phase = self.take_phase().reshaped(shape, now);
    }

    // Takes the phase out, for another one to be put in.
    fn take_phase(&mut self) -> Phase
        ensures phase { result ≡ self.old.phase }
        ensures rest { self.new ≡ record self.old { phase = self.new.phase } }
    {
        let passing = Phase::Greeting(Greeting::begin(self.serial, 0));
        mem::replace(&mut self.phase, passing)
    }

    // Takes a part of a clipboard, and returns the bytes of the whole clipboard that it ends, if it
    // does. On `OutOfMemory` nothing changes.
    pub(crate) fn take_part(
        &mut self,
        clip: ClipId,
        seq: u32,
        mark: ClipMark,
        bytes: &[u8],
    ) -> Result<Option<Octets>, OutOfMemory>
        ensures ok { IfOk result
            (λ whole. TakesPart clip seq mark bytes.now whole self.old self.new) }
        ensures err { OnErr result (self.new ≡ self.old) }
    {
        match clip {
            ClipId::Clipboard => {
                let took = self.clipboard.take(seq, mark, bytes)?;
                Ok(whole_in(took))
            }
            ClipId::Selection => {
                let took = self.selection.take(seq, mark, bytes)?;
                Ok(whole_in(took))
            }
        }
    }

    // Drops what is queued and not taken.
    pub(crate) fn drop_bytes(&mut self)
        ensures { Drops self.old self.new }
    {
        self.queue.discard();
    }

    // Notes that the first `count` of the untaken bytes were taken. Fewer than 2^63 are taken in
    // all.
    pub(crate) fn take(&mut self, count: usize)
        requires there { count ≤ length self.old.queue.untaken }
        requires fits { self.old.queue.taken + count < 2 ^ 63 }
        ensures { Takes count self.old self.new }
    {
        self.queue.take(count);
    }
}

// The bytes of the whole clipboard that a part ended, if it did.
fn whole_in(took: Took) -> Option<Octets>
    ensures { result ≡ whole_in took }
{
    match took {
        Took::Whole(bytes) => Some(bytes),
        Took::Started | Took::Going | Took::Dropped(_) => None,
    }
}
