//! The reader.

ghost use Rattle.std.specs.Prelude.{◌≡◌, ◌+◌, ◌^◌, ◌<◌, [], None, IfOk, OnOk, OnErr, length};
ghost use Rattle.message_reader.specs.ReaderParts.{with_bad};
ghost use Rattle.message_reader.specs.Representation.{Represents, IsPending};
ghost use Rattle.message_reader.specs.Steps.{Extends, Gives};

use crate::role::Role;
use message_codec::{DecodeFault, Msg, decode};
use share_base::{OutOfMemory, Reason};
use std::alloc::Global;
use std::marker::Model;
use wire_frames::{BODY_LIMIT, FrameStep, Framer};

/// A frame that ends the reading of its stream.
#[derive(Clone, Copy, Debug, PartialEq, Eq)]
pub struct BadFrame {
    /// Offset of its length field in the stream, in bytes.
    pub place: u64,
    /// What is wrong with it.
    pub reason: Reason,
}

/// What a reader finds next in its stream.
#[derive(Debug, Drop)]
pub enum ReadStep {
    /// A message that may stand there.
    Message {
        /// Offset of its frame in the stream, in bytes.
        place: u64,
        /// The message.
        msg: Msg,
    },
    /// Less than a whole frame: the next piece is needed.
    More,
    /// The first bad frame. It is answered from then on.
    Bad(BadFrame),
}

/// Reads the messages of one stream, which comes in pieces. Pieces are fed, and then asked for
/// until no message is left. Where they were cut makes no difference.
///
/// It holds what its framer holds: where each piece is asked until no message is left, at most the
/// limit, 3 bytes and the latest piece. After a bad frame it holds nothing more.
#[derive(Drop)]
pub struct MessageReader {
    alloc: Global,
    role: Role,
    framer: Framer,
    total: u64,
    begun: bool,
    bad: Option<BadFrame>,
}

impl Model for MessageReader {
    ghost use Rattle.message_reader.specs.ReaderParts.{ReaderParts};

    ghost Value = { ReaderParts };

    ghost use Rattle.message_reader.specs.Soundness.{IsSound};

    ghost view = { λ r. record {
      role = r.role;
      total = r.total;
      begun = r.begun;
      framer = r.framer;
      bad = r.bad;
    } };

    ghost invariant = { λ r. IsSound r.role r.begun r.total r.framer };
}

impl MessageReader {
    /// Creates the reader of a stream of which no byte has come. It takes no memory yet.
    pub fn new(alloc: Global, role: Role) -> MessageReader
        ensures represents { Represents result [] [] }
        ensures role { result.role ≡ role }
        ensures fine { result.bad ≡ None }
    {
        MessageReader {
            alloc,
            role,
            framer: Framer::new(alloc, role.limit(false)),
            total: 0,
            begun: false,
            bad: None,
        }
    }

    /// Puts the next piece at the end of the stream, which has fewer than 2^63 bytes in all. After
    /// a bad frame the piece is counted and not kept. On `OutOfMemory` nothing changes.
    pub fn feed(&mut self, piece: &[u8]) -> Result<(), OutOfMemory>
        requires { self.old.total + length piece.now < 2 ^ 63 }
        ensures ok { OnOk result (Extends self.old self.new piece.now) }
        ensures err { OnErr result (self.new ≡ self.old) }
    {
        if let None = self.bad {
            self.framer.feed(piece)?;
        }
        self.total += piece.len() as u64;
        Ok(())
    }

    /// Gives the next message of the stream, or says that a piece or the stream ends there.
    ///
    /// On `OutOfMemory`, which comes of decoding a message alone, nothing changes: the next call
    /// finds the same frame.
    pub fn next(&mut self) -> Result<ReadStep, OutOfMemory>
        ensures gives { IfOk result (Gives self.old self.new) }
        ensures err { OnErr result (self.new ≡ self.old) }
        ensures total { self.new.total ≡ self.old.total }
    {
        if let Some(bad) = self.bad {
            return Ok(ReadStep::Bad(bad));
        }
        match self.framer.peek() {
            FrameStep::More => Ok(ReadStep::More),
            FrameStep::TooLong { place, len: _ } => Ok(self.refuse(place, Reason::TooLong)),
            FrameStep::Frame { place, body } => match decode(self.alloc, self.role.sender(), body) {
                Err(DecodeFault::OutOfMemory) => Err(OutOfMemory),
                Err(DecodeFault::Bad(bad)) => Ok(self.refuse(place, bad.reason())),
                Ok(msg) => {
                    if !self.role.takes(self.begun, &msg) {
                        return Ok(self.refuse(place, Reason::State));
                    }
                    let _ = self.framer.next();
                    self.framer.raise_limit(BODY_LIMIT);
                    self.begun = true;
                    Ok(ReadStep::Message { place, msg })
                }
            },
        }
    }

    /// Returns how many bytes were fed.
    pub fn total(&self) -> u64
        ensures { result ≡ self.now.total }
    {
        self.total
    }

    /// Returns the offset of the first byte that is part of no message given: after `More`, that of
    /// a partly received frame. `None` if there is no such byte, and after a bad frame.
    pub fn pending(&self) -> Option<u64>
        ensures { IsPending self.now result }
    {
        if let Some(_) = self.bad {
            return None;
        }
        let place = self.framer.place();
        if place == self.total {
            return None;
        }
        Some(place)
    }

    // Keeps the bad frame, and gives it.
    fn refuse(&mut self, place: u64, reason: Reason) -> ReadStep
        ensures bad { self.new ≡ with_bad self.old place reason }
        ensures step { result ≡ ReadStep.Bad (record { place = place; reason = reason }) }
    {
        let bad = BadFrame { place, reason };
        self.bad = Some(bad);
        ReadStep::Bad(bad)
    }
}
