//! What is queued for the server.

ghost use Rattle.std.specs.Prelude.{◌≡◌, ◌≤◌, ◌++◌, length, OnOk, OnErr};
ghost use Rattle.wire_frames.specs.declared.limits.TheConstants.{BODY_LIMIT};
ghost use Rattle.message_codec.specs.Spelling.{body_of};
ghost use Rattle.message_codec.specs.Streams.{frame_of};
ghost use Rattle.client_talk.specs.Outboxes.{nothing, queued, without, cut_back};

use bytes::BytesMut;
use message_codec::{Msg, body_len, encode};
use share_base::{Octets, OutOfMemory};
use std::alloc::Global;
use std::marker::Model;

/// How many bytes may be queued and not taken.
pub const MOST_UNTAKEN: u64 = 16_777_216;

/// The frames that are queued for the server, up to the first one with which more than
/// `MOST_UNTAKEN` bytes would be untaken. That one and all later ones are left out.
#[derive(Drop)]
pub struct Outbox {
    alloc: Global,
    bytes: BytesMut,
    is_slow: bool,
}

impl Model for Outbox {
    ghost use Rattle.client_talk.specs.Outboxes.{Untaken};

    ghost Value = { Untaken };

    ghost view = { λ o. record { bytes = o.bytes.items; is_slow = o.is_slow } };
}

// Appends the frame of a message. On `OutOfMemory` a front of it may stand there.
fn put_message(msg: &Msg, out: &mut Octets) -> Result<(), OutOfMemory>
    requires { length (body_of msg.now) ≤ BODY_LIMIT }
    ensures { OnOk result (out.new ≡ out.old ++ frame_of msg.now) }
{
    out.extend_u32(body_len(msg) as u32)?;
    encode(msg, out)
}

impl Outbox {
    /// Creates an empty queue, which allocates nothing yet.
    pub fn new(alloc: Global) -> Outbox
        ensures { result ≡ nothing }
    {
        Outbox {
            alloc,
            bytes: BytesMut::new(alloc),
            is_slow: false,
        }
    }

    /// Queues the frame of a message. If there is no room for it, the queue is slow from then on.
    /// On `OutOfMemory` the queue is unchanged.
    pub fn queue(&mut self, msg: &Msg) -> Result<(), OutOfMemory>
        requires { length (body_of msg.now) ≤ BODY_LIMIT }
        ensures ok { OnOk result (self.new ≡ queued msg.now self.old) }
        ensures err { OnErr result (self.new ≡ self.old) }
    {
        if self.is_slow {
            return Ok(());
        }
        if self.bytes.len() as u64 + 4 + body_len(msg) > MOST_UNTAKEN {
            self.is_slow = true;
            return Ok(());
        }
        let mut frame = Octets::new(self.alloc);
        put_message(msg, &mut frame)?;
        self.bytes.extend_from_slice(frame.as_slice())?;
        Ok(())
    }

    /// Whether a frame was left out.
    pub fn is_slow(&self) -> bool
        ensures { result ≡ self.now.is_slow }
    {
        self.is_slow
    }

    /// Returns the allocator that it allocates from.
    pub fn alloc(&self) -> Global {
        self.alloc
    }

    /// Cuts the queue back to its first `len` bytes, and to whether it was slow then.
    pub fn cut_back(&mut self, len: usize, was_slow: bool)
        ensures { self.new ≡ cut_back len was_slow self.old }
    {
        self.bytes.truncate(len);
        self.is_slow = was_slow;
    }

    /// The bytes that are queued and not taken, first to last.
    pub fn as_slice(&self) -> &[u8]
        ensures { result.now ≡ self.now.bytes }
    {
        self.bytes.as_slice()
    }

    /// Counts the first `count` bytes as taken.
    pub fn take(&mut self, count: usize)
        requires { count ≤ length self.old.bytes }
        ensures { self.new ≡ without count self.old }
    {
        self.bytes.advance(count);
    }
}
