//! Cutting a stream into frames.

ghost use Rattle.std.specs.Prelude.{◌≡◌, ◌+◌, ◌^◌, ◌<◌, ◌≤◌, [], false, drop, length, take};
ghost use Rattle.std.specs.Prelude.{vec_capacity, OnOk, OnErr};
ghost use Rattle.std.specs.Borrow.{sem};
ghost use Rattle.std.specs.Int.{w32, to_be_bytes};
ghost use Rattle.wire_frames.specs.Framing.{length_field};
ghost use Rattle.wire_frames.specs.Framers.{FramerParts, begun, fed, raised};
ghost use Rattle.wire_frames.specs.Calls.{Fed, Raised, StandsFor, Extends};
ghost use Rattle.wire_frames.specs.Steps.{Answers, RestsAfter, after_next, told};

use crate::limits::BODY_LIMIT;
use share_base::{Buffer, OutOfMemory};
use std::alloc::Global;
use std::marker::Model;

/// Cuts a stream into frames.
///
/// It holds the rest of the stream, and the frames given since the latest piece until the next one
/// is fed. Contracts see it as `FramerParts`, the length of its buffer among them, and each call
/// says that these are the result of the calls so far.
#[derive(Drop)]
pub struct Framer {
    bytes: Vec<u8>,
    gone: u64,
    given: usize,
    limit: u32,
    over: bool,
}

impl Model for Framer {
    ghost use Rattle.std.specs.Prelude.{◌≡◌, ◌+◌, ◌≤◌, ◌<◌, ◌^◌, List, true, length, drop};
    ghost use Rattle.wire_frames.specs.declared.limits.TheConstants.{BODY_LIMIT};
    ghost use Rattle.wire_frames.specs.Framing.{IsTooLong};
    ghost use Rattle.wire_frames.specs.Framers.{FramerParts};

    ghost Value = { FramerParts };

    ghost view = { λ f. record {
      given = f.gone + f.given;
      rest = drop f.given f.bytes.items;
      limit = f.limit;
      over = f.over;
      held = length f.bytes.items;
    } };

    ghost invariant = { λ f. (f.given ≤ length f.bytes.items)
        × (f.gone + length f.bytes.items < 2 ^ 63)
        × (f.limit ≤ BODY_LIMIT)
        × (f.over ≡ true → IsTooLong f.limit (drop f.given f.bytes.items)) };
}

/// What stands at the front of the rest of a stream. A place is the offset of a frame in its
/// stream, in bytes.
#[derive(Clone, Copy, Debug, PartialEq, Eq)]
pub enum FrameStep<'a> {
    /// A whole frame within the limit, which counts as given from now on.
    Frame {
        /// The offset of its length field.
        place: u64,
        /// The bytes after its length field.
        body: &'a [u8],
    },
    /// Fewer than four bytes, or a length within the limit and fewer bytes than it names.
    More,
    /// A length above the limit. The same is answered from then on, and no later piece is kept.
    TooLong {
        /// The offset of the length field.
        place: u64,
        /// The length that it names, in bytes.
        len: u32,
    },
}

fn first_length(bytes: &[u8]) -> u32
    requires { 4 ≤ length bytes.now }
    ensures value { result ≡ length_field bytes.now }
    ensures spelled { to_be_bytes w32 result ≡ take 4 bytes.now }
{
    u32::from_be_bytes([bytes[0], bytes[1], bytes[2], bytes[3]])
}

// Drops the frames that were given from the front.
fn drop_given(bytes: &mut Vec<u8>, gone: &mut u64, given: &mut usize)
    requires within { given.old ≤ length bytes.old.items }
    requires fits { gone.old + given.old < 2 ^ 63 }
    ensures bytes { bytes.new.items ≡ drop given.old bytes.old.items }
    ensures capacity { vec_capacity bytes.new ≡ vec_capacity bytes.old }
    ensures gone { gone.new ≡ gone.old + given.old }
    ensures given { given.new ≡ 0 }
{
    let kept = bytes.len() - *given;
    bytes.rotate_left(*given);
    bytes.truncate(kept);
    *gone += *given as u64;
    *given = 0;
}

impl Framer {
    /// A framer at the beginning of a stream whose frames have bodies of at most `limit` bytes.
    /// Later calls of `feed` take their memory from `alloc`; no other call takes any.
    pub fn new(alloc: Global, limit: u32) -> Framer
        requires { limit ≤ BODY_LIMIT }
        ensures begun { result ≡ begun limit }
        ensures stands { StandsFor limit result [] }
    {
        Framer {
            bytes: Vec::new(alloc),
            gone: 0,
            given: 0,
            limit,
            over: false,
        }
    }

    /// Appends the next piece of the stream, which has fewer than 2^63 bytes in all. After a
    /// `TooLong` it changes nothing and answers `Ok`. On `OutOfMemory` the framer is unchanged.
    pub fn feed(&mut self, piece: &[u8]) -> Result<(), OutOfMemory>
        requires { self.old.given + length self.old.rest + length piece.now < 2 ^ 63 }
        ensures ok { OnOk result (self.new ≡ fed self.old piece.now) }
        ensures err { OnErr result (self.new ≡ self.old) }
        ensures extends { OnOk result (Extends self.old self.new (Fed piece.now)) }
    {
        if self.over {
            return Ok(());
        }
        self.bytes.reserve(piece.len())?;
        drop_given(&mut self.bytes, &mut self.gone, &mut self.given);
        Buffer::extend(&mut self.bytes, piece);
        Ok(())
    }

    /// Returns the offset of the next frame in the stream, in bytes.
    pub fn place(&self) -> u64
        ensures { result ≡ self.now.given }
    {
        self.gone + self.given as u64
    }

    /// Returns what `next` would answer, and leaves the frame where it is.
    pub fn peek(&self) -> FrameStep<'_>
        ensures answers { Answers self.now result }
        ensures bound { self.now.given + length self.now.rest < 2 ^ 63 }
    {
        let rest = &self.bytes[self.given..];
        let place = self.gone + self.given as u64;
        if rest.len() < 4 {
            return FrameStep::More;
        }
        let len = first_length(rest);
        if self.limit < len {
            return FrameStep::TooLong { place, len };
        }
        let end = 4 + len as usize;
        if end > rest.len() {
            return FrameStep::More;
        }
        let body = &rest[4..end];
        FrameStep::Frame { place, body }
    }

    /// What stands at the front of the rest.
    #[tactic(auto, using(crate::proofs::First::bounded, crate::proofs::Histories::stands_refused))]
    pub fn next(&mut self) -> FrameStep<'_>
        ensures answers { Answers self.old result }
        ensures bound { self.old.given + length self.old.rest < 2 ^ 63 }
        ensures extends { Extends self.old (after_next self.old result) (told result) }
        ensures* after_borrow { sem 𝓛 (RestsAfter self.entry result) }
    {
        let rest = &self.bytes[self.given..];
        let place = self.gone + self.given as u64;
        if rest.len() < 4 {
            return FrameStep::More;
        }
        let len = first_length(rest);
        if len > self.limit {
            self.over = true;
            return FrameStep::TooLong { place, len };
        }
        let end = 4 + len as usize;
        if rest.len() < end {
            return FrameStep::More;
        }
        self.given += end;
        FrameStep::Frame {
            place,
            body: &rest[4..end],
        }
    }

    /// Lets later frames have bodies of at most `limit` bytes, which is no less than the limit so
    /// far.
    pub fn raise_limit(&mut self, limit: u32)
        requires rises { self.old.limit ≤ limit }
        requires within { limit ≤ BODY_LIMIT }
        requires not_over { self.old.over ≡ false }
        ensures raised { self.new ≡ raised self.old limit }
        ensures extends { Extends self.old self.new (Raised limit) }
    {
        self.limit = limit;
    }
}
