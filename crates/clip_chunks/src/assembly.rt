//! Putting the parts of a clipboard together.

ghost use Rattle.std.specs.Prelude.{◌≡◌, ◌≤◌, ◌<◌, ◌^◌, [], None, IfOk, OnOk, OnErr, length};
ghost use Rattle.share_base.specs.declared.clip_id.ClipId.{ClipId as Clip};
ghost use Rattle.message_codec.specs.declared.clip_mark.ClipMark.TheVariants as mark;
ghost use Rattle.clip_chunks.specs.Assemblies.{AssemblyParts, HoldsLittle, IsAnswer, Keeps};
ghost use Rattle.clip_chunks.specs.Assemblies.{StandsFor, Takes, Answers, bytes_so_far};

use crate::run::Run;
use crate::size::size_of as read_size;
use crate::took::{Cause, Took};
use message_codec::ClipMark;
use share_base::{Octets, OutOfMemory};
use std::alloc::Global;
use std::marker::Model;

/// Puts the parts of one clipboard together, as they come on one connection. It holds at most as
/// many bytes as the latest start said, and allocates for them only as they come. Contracts see it
/// as `AssemblyParts`, and as the result of the parts that it was given.
#[derive(Drop)]
pub struct Assembly {
    alloc: Global,
    limit: u32,
    run: Option<Run>,
}

impl Model for Assembly {
    ghost use Rattle.std.specs.Prelude.{◌≤◌, IfSome, length};
    ghost use Rattle.clip_chunks.specs.Assemblies.{AssemblyParts};

    ghost Value = { AssemblyParts };

    ghost view = { λ a. record { limit = a.limit; run = a.run } };

    ghost invariant = { λ a. IfSome a.run (λ r. (length r.bytes ≤ r.size) × (r.size ≤ a.limit)) };
}

impl Assembly {
    /// Makes an assembly for clipboards of at most `limit` bytes. It doesn't allocate.
    pub fn new(alloc: Global, limit: u32) -> Assembly
        ensures empty { result ≡ record { limit = limit; run = None } }
        ensures stands { (clip : Clip) → StandsFor limit clip result [] }
    {
        Assembly {
            alloc,
            limit,
            run: None,
        }
    }

    /// Takes the next part of the clipboard. A start replaces what was on its way, and after a
    /// `Dropped` nothing is. The bytes of an end are ignored. On `OutOfMemory` nothing changes, as
    /// if the part had not been given.
    pub fn take(&mut self, seq: u32, mark: ClipMark, bytes: &[u8]) -> Result<Took, OutOfMemory>
        ensures answer { IfOk result (λ took. IsAnswer self.old mark seq bytes.now took) }
        ensures kept { OnOk result (Keeps self.old self.new mark seq bytes.now) }
        ensures wholes { IfOk result (λ took. Answers self.old mark seq bytes.now took) }
        ensures stands { OnOk result (Takes self.old self.new mark seq bytes.now) }
        ensures err { OnErr result (self.new ≡ self.old) }
        ensures bound { HoldsLittle self.new }
    {
        match mark {
            ClipMark::Start => Ok(self.start(seq, bytes)),
            ClipMark::Chunk => self.add(seq, bytes),
            ClipMark::End => Ok(self.end(seq)),
        }
    }

    /// Returns how many bytes have come of the clipboard that is on its way; 0 if none is.
    pub fn len(&self) -> usize
        ensures value { result ≡ length (bytes_so_far self.now.run) }
        ensures bound { result ≤ self.now.limit }
        ensures fits { result < 2 ^ 32 }
    {
        match &self.run {
            // There are never more than the limit, which says that they fit 32 bits.
            Some(run) => run.bytes.len().min(self.limit as usize),
            None => 0,
        }
    }

    fn start(&mut self, seq: u32, text: &[u8]) -> Took
        ensures answer { IsAnswer self.old mark.Start seq text.now result }
        ensures kept { Keeps self.old self.new mark.Start seq text.now }
        ensures bound { HoldsLittle self.new }
    {
        self.run = None;
        let Some(size) = read_size(text) else {
            return Took::Dropped(Cause::BadSize);
        };
        if size > self.limit as u64 {
            return Took::Dropped(Cause::TooLarge { size });
        }
        self.run = Some(Run {
            seq,
            size: size as u32,
            bytes: Octets::new(self.alloc),
        });
        Took::Started
    }

    fn add(&mut self, seq: u32, bytes: &[u8]) -> Result<Took, OutOfMemory>
        ensures answer { IfOk result (λ took. IsAnswer self.old mark.Chunk seq bytes.now took) }
        ensures kept { OnOk result (Keeps self.old self.new mark.Chunk seq bytes.now) }
        ensures err { OnErr result (self.new ≡ self.old) }
        ensures bound { HoldsLittle self.new }
    {
        let Some(mut run) = self.run.take() else {
            return Ok(Took::Dropped(Cause::NoStart));
        };
        let Run {
            seq: kept,
            size,
            ..
        } = run;
        if kept != seq {
            return Ok(Took::Dropped(Cause::SeqChanged { kept, given: seq }));
        }
        let size = size as u64;
        let got = run.bytes.len() as u64 + bytes.len() as u64;
        if got > size {
            return Ok(Took::Dropped(Cause::Over { size, got }));
        }
        let added = run.bytes.extend(bytes);
        self.run = Some(run);
        added?;
        Ok(Took::Going)
    }

    fn end(&mut self, seq: u32) -> Took
        ensures answer { IsAnswer self.old mark.End seq [] result }
        ensures kept { Keeps self.old self.new mark.End seq [] }
        ensures bound { HoldsLittle self.new }
    {
        let Some(run) = self.run.take() else {
            return Took::Dropped(Cause::NoStart);
        };
        if run.seq != seq {
            return Took::Dropped(Cause::SeqChanged {
                kept: run.seq,
                given: seq,
            });
        }
        let size = run.size as u64;
        let got = run.bytes.len() as u64;
        if got != size {
            return Took::Dropped(Cause::Mismatch { size, got });
        }
        Took::Whole(run.bytes)
    }
}
