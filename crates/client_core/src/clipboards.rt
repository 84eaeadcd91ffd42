//! What has come of the clipboards that are on their way to a client.

ghost use Rattle.std.specs.Prelude.{◌≡◌, ◌≤◌, [], IfOk, IfSome, OnErr};
ghost use Rattle.clip_chunks.specs.Parts.{part};
ghost use Rattle.clip_chunks.specs.Assemblies as assemblies;
ghost use Rattle.held_inputs.specs.declared.line.Line.TheVariants as line;
ghost use Rattle.held_inputs.specs.Line.{room_of};

use clip_chunks::{Assembly, Took};
use message_codec::ClipMark;
use share_base::{ClipId, Octets, OutOfMemory};
use std::alloc::Global;

/// The most bytes of a clipboard that a client takes.
pub const CLIP_LIMIT: u32 = 4_194_304;

/// The parts of each clipboard, put together as they come.
#[derive(Drop)]
pub struct Clipboards {
    clipboard: Assembly,
    selection: Assembly,
}

/// The bytes of the whole clipboard in an answer, if it is one.
fn whole_in(took: Took) -> Option<Octets>
    ensures { result ≡ assemblies.whole_in took }
{
    match took {
        Took::Whole(bytes) => Some(bytes),
        Took::Started | Took::Going | Took::Dropped(_) => None,
    }
}

impl Clipboards {
    ghost use Rattle.client_core.specs.Clipboards.{AreFor, Brings, assembly_of, room_for};

    /// Nothing is on its way. It takes no memory.
    pub fn new(alloc: Global) -> Clipboards
        ensures { AreFor result [] }
    {
        Clipboards {
            clipboard: Assembly::new(alloc, CLIP_LIMIT),
            selection: Assembly::new(alloc, CLIP_LIMIT),
        }
    }

    /// Returns how many bytes the line may have that a part of that mark brings: an end brings that
    /// of all bytes that came before it.
    pub fn room(&self, clip: ClipId, mark: ClipMark) -> usize
        ensures { result ≡ room_for clip mark self.now }
    {
        match mark {
            ClipMark::Start | ClipMark::Chunk => 0,
            ClipMark::End => 2 * self.assembly(clip).len() + 13,
        }
    }

    fn assembly(&self, clip: ClipId) -> &Assembly
        ensures { result.now ≡ assembly_of clip self.now }
    {
        match clip {
            ClipId::Clipboard => &self.clipboard,
            ClipId::Selection => &self.selection,
        }
    }

    /// Takes the next part, and returns the bytes of the whole clipboard that it ends, if it ends
    /// one. On `OutOfMemory` nothing changes.
    pub fn take(
        &mut self,
        clip: ClipId,
        seq: u32,
        mark: ClipMark,
        bytes: &[u8],
    ) -> Result<Option<Octets>, OutOfMemory>
        ensures brings { IfOk result (Brings self.old self.new (part mark clip seq bytes.now)) }
        ensures room { IfOk result
            (λ whole. IfSome whole
            (λ all. room_of (line.Clip clip all) ≤ room_for clip mark self.old)) }
        ensures err { OnErr result (self.new ≡ self.old) }
    {
        match clip {
            ClipId::Clipboard => Ok(whole_in(self.clipboard.take(seq, mark, bytes)?)),
            ClipId::Selection => Ok(whole_in(self.selection.take(seq, mark, bytes)?)),
        }
    }
}
