//! Queueing clipboards in parts.

ghost use Rattle.std.specs.Prelude.{◌≡◌, ◌≤◌, length, IfOk, OnOk, OnErr};
ghost use Rattle.clip_chunks.specs.Parts.{part, message_of};
ghost use Rattle.client_talk.specs.Copies.{chunk_messages, clip_messages, copy_messages, copies_messages, copy_of};
ghost use Rattle.client_talk.specs.Outboxes.{queued, queued_all, Begins};

use crate::copies::Copies;
use crate::outbox::Outbox;
use clip_chunks::CHUNK_LEN;
use itoa::Buffer;
use message_codec::{ClipMark, Msg};
use share_base::{ClipId, Octets, OutOfMemory};
use std::alloc::Global;

// The message of one part.
fn part_message(
    alloc: Global,
    clip: ClipId,
    seq: u32,
    mark: ClipMark,
    bytes: &[u8],
) -> Result<Msg, OutOfMemory>
    ensures { IfOk result (λ m. m ≡ message_of (part mark clip seq bytes.now)) }
{
    let mut data = Octets::new(alloc);
    data.extend(bytes)?;
    Ok(Msg::ClipPart {
        clip,
        seq,
        mark,
        bytes: data,
    })
}

// Queues one part. On `OutOfMemory` the queue is unchanged.
fn queue_part(
    outbox: &mut Outbox,
    clip: ClipId,
    seq: u32,
    mark: ClipMark,
    bytes: &[u8],
) -> Result<(), OutOfMemory>
    requires { length bytes.now ≤ 32768 }
    ensures ok { OnOk result
        (outbox.new ≡ queued (message_of (part mark clip seq bytes.now)) outbox.old) }
    ensures begins { Begins outbox.old outbox.new }
{
    let msg = part_message(outbox.alloc(), clip, seq, mark, bytes)?;
    outbox.queue(&msg)
}

// Queues the bytes in chunks, of which the last may be shorter. On `OutOfMemory` some are queued.
fn queue_chunks(
    outbox: &mut Outbox,
    clip: ClipId,
    seq: u32,
    bytes: &[u8],
) -> Result<(), OutOfMemory>
    ensures ok { OnOk result
        (outbox.new ≡ queued_all (chunk_messages clip seq bytes.now) outbox.old) }
    ensures begins { Begins outbox.old outbox.new }
{
    for chunk in bytes.chunks(CHUNK_LEN) {
        queue_part(outbox, clip, seq, ClipMark::Chunk, chunk)?;
    }
    Ok(())
}

// Queues the messages of a clipboard: a start that says how many bytes there are, the bytes in
// chunks, and an end. On `OutOfMemory` some are queued.
fn queue_clip(outbox: &mut Outbox, clip: ClipId, seq: u32, bytes: &[u8]) -> Result<(), OutOfMemory>
    ensures ok { OnOk result
        (outbox.new ≡ queued_all (clip_messages clip seq bytes.now) outbox.old) }
    ensures begins { Begins outbox.old outbox.new }
{
    let mut buffer = Buffer::new();
    let size = buffer.format(bytes.len());
    queue_part(outbox, clip, seq, ClipMark::Start, size.as_bytes())?;
    queue_chunks(outbox, clip, seq, bytes)?;
    queue_part(outbox, clip, seq, ClipMark::End, &[])
}

// Queues the copy of a clipboard, if there is one. On `OutOfMemory` some of its messages are
// queued.
fn queue_copy(
    outbox: &mut Outbox,
    clip: ClipId,
    seq: u32,
    copies: &Copies,
) -> Result<(), OutOfMemory>
    ensures ok { OnOk result
        (outbox.new ≡ queued_all (copy_messages clip seq (copy_of clip copies.now)) outbox.old) }
    ensures begins { Begins outbox.old outbox.new }
{
    match copies.get(clip) {
        Some(bytes) => queue_clip(outbox, clip, seq, bytes),
        None => Ok(()),
    }
}

// Queues all copies, the clipboard first. On `OutOfMemory` some of their messages are queued.
fn queue_some(outbox: &mut Outbox, seq: u32, copies: &Copies) -> Result<(), OutOfMemory>
    ensures ok { OnOk result (outbox.new ≡ queued_all (copies_messages seq copies.now) outbox.old) }
    ensures begins { Begins outbox.old outbox.new }
{
    queue_copy(outbox, ClipId::Clipboard, seq, copies)?;
    queue_copy(outbox, ClipId::Selection, seq, copies)
}

/// Queues the messages of all copies, the clipboard first, with that sequence. On `OutOfMemory` the
/// queue is unchanged.
pub fn queue_copies(outbox: &mut Outbox, seq: u32, copies: &Copies) -> Result<(), OutOfMemory>
    ensures ok { OnOk result (outbox.new ≡ queued_all (copies_messages seq copies.now) outbox.old) }
    ensures err { OnErr result (outbox.new ≡ outbox.old) }
{
    let len = outbox.as_slice().len();
    let was_slow = outbox.is_slow();
    match queue_some(outbox, seq, copies) {
        Ok(()) => Ok(()),
        Err(OutOfMemory) => {
            outbox.cut_back(len, was_slow);
            Err(OutOfMemory)
        }
    }
}
