//! The queue of one connection.

ghost use Rattle.std.specs.Prelude.{◌≡◌, ◌≤◌, ◌<◌, ◌+◌, ◌^◌, false, length, IfOk, OnErr};
ghost use Rattle.message_codec.specs.Spelling.{body_of};
ghost use Rattle.wire_frames.specs.declared.limits.TheConstants.{BODY_LIMIT};
ghost use Rattle.send_queue.specs.QueueParts.{AreSound};
ghost use Rattle.send_queue.specs.Standing.{Begins, IsLeft};
ghost use Rattle.send_queue.specs.Calls.{has_room, Pushes, Takes, Discards};

use crate::frames::{LENGTH_BYTES, append_frame};
use crate::pushed::Pushed;
use bytes::BytesMut;
use message_codec::{Msg, body_len};
use share_base::{Octets, OutOfMemory};
use std::alloc::Global;
use std::marker::Model;

/// How many bytes of a queue may be untaken.
pub const MOST_UNTAKEN: u64 = 16_777_216;

/// Fewer bytes than these, 2^63, are queued for a connection in all.
const TOTAL_LIMIT: u64 = 9_223_372_036_854_775_808;

/// The frames that are queued for one connection, as bytes. A frame that would bring the untaken
/// bytes above `MOST_UNTAKEN` is left out, and so is every later one.
#[derive(Drop)]
pub struct SendQueue {
    untaken: BytesMut,
    body: Octets,
    total: u64,
    taken: u64,
    is_slow: bool,
    is_discarded: bool,
}

impl Model for SendQueue {
    ghost use Rattle.std.specs.Prelude.{length};
    ghost use Rattle.send_queue.specs.QueueParts.{QueueParts, AreSound};

    ghost Value = { QueueParts };

    ghost view = { λ q. record {
      untaken = q.untaken.items;
      total = q.total;
      taken = q.taken;
      is_slow = q.is_slow;
      is_discarded = q.is_discarded;
    } };

    ghost invariant = { λ q. AreSound (length q.untaken.items) q.taken q.total };
}

impl SendQueue {
    /// Creates the queue of a connection that was sent nothing. It allocates nothing yet.
    pub fn new(alloc: Global) -> SendQueue
        ensures begins { Begins result }
        ensures taken { result.taken ≡ 0 }
        ensures holds { result.is_discarded ≡ false }
    {
        SendQueue {
            untaken: BytesMut::new(alloc),
            body: Octets::new(alloc),
            total: 0,
            taken: 0,
            is_slow: false,
            is_discarded: false,
        }
    }

    /// Queues a message, whose body has at most `BODY_LIMIT` bytes, or leaves its frame out where
    /// it has no room or an earlier one had none. On `OutOfMemory`, which also comes where 2^63
    /// bytes would have been queued in all, the queue is unchanged.
    pub fn push(&mut self, msg: &Msg) -> Result<Pushed, OutOfMemory>
        requires { length (body_of msg.now) ≤ BODY_LIMIT }
        ensures ok { IfOk result (λ pushed. Pushes self.old self.new msg.now pushed) }
        ensures err { OnErr result (self.new ≡ self.old) }
    {
        let size = LENGTH_BYTES + body_len(msg);
        if !self.has_room(size) {
            self.is_slow = true;
            return Ok(Pushed::LeftOut);
        }
        if self.total + size >= TOTAL_LIMIT {
            return Err(OutOfMemory);
        }
        if !self.is_discarded {
            append_frame(&mut self.untaken, &mut self.body, msg)?;
        }
        self.total += size;
        Ok(Pushed::Queued)
    }

    // Whether a frame of that many bytes is queued.
    fn has_room(&self, size: u64) -> bool
        requires { size ≤ LENGTH_BYTES + BODY_LIMIT }
        ensures is { result ≡ has_room self.now size }
        ensures short { self.now.total + size < 2 ^ 64 }
    {
        !self.is_slow && self.total + size - self.taken <= MOST_UNTAKEN
    }

    /// Notes that the connection took the first `count` of the untaken bytes. It has then taken
    /// fewer than 2^63 bytes in all.
    pub fn take(&mut self, count: usize)
        requires there { count ≤ length self.old.untaken }
        requires fits { self.old.taken + count < 2 ^ 63 }
        ensures { Takes self.old self.new count }
    {
        self.untaken.advance(count);
        self.taken += count as u64;
    }

    /// Drops the untaken bytes, and those of every later frame.
    pub fn discard(&mut self)
        ensures { Discards self.old self.new }
    {
        self.untaken.clear();
        self.is_discarded = true;
    }

    /// Returns the bytes that are to be taken, from the front.
    pub fn as_slice(&self) -> &[u8]
        ensures { result.now ≡ self.now.untaken }
    {
        self.untaken.as_slice()
    }

    /// Whether bytes are to be taken.
    pub fn is_left(&self) -> bool
        ensures { IsLeft self.now result }
    {
        !self.untaken.is_empty()
    }

    /// Assures what holds of the numbers of every queue. It does nothing.
    pub fn assure_sound(&self)
        ensures { AreSound (length self.now.untaken) self.now.taken self.now.total }
    {
        let _total = self.total;
    }

    /// Returns how many bytes were ever queued.
    pub fn total(&self) -> u64
        ensures { result ≡ self.now.total }
    {
        self.total
    }

    /// Returns how many bytes were taken.
    pub fn taken(&self) -> u64
        ensures { result ≡ self.now.taken }
    {
        self.taken
    }

    /// Whether a frame was left out.
    pub fn is_slow(&self) -> bool
        ensures { result ≡ self.now.is_slow }
    {
        self.is_slow
    }

    /// Whether the untaken bytes were dropped.
    pub fn is_discarded(&self) -> bool
        ensures { result ≡ self.now.is_discarded }
    {
        self.is_discarded
    }
}
