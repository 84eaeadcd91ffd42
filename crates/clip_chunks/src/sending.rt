//! Cutting a clipboard into frames.

ghost use Rattle.std.specs.Prelude.{◌≡◌, ◌+◌, ◌≤◌, ◌++◌, length, take, OnOk, OnErr};
ghost use Rattle.clip_chunks.specs.Sending.{before_bytes, part_frame, clip_frames, HoldsOne};

use itoa::Buffer;
use message_codec::ClipMark;
use share_base::{ClipId, Octets, OutOfMemory};

/// How many bytes a full chunk has.
pub const CHUNK_LEN: usize = 32_768;

/// How many bytes the body of a part has besides the part's own: the code, the clipboard, the
/// sequence, the mark, and how many bytes follow.
const PART_LEN: u32 = 14;

/// Appends the frames of a clipboard of at most 4,194,304 bytes: a start that says how many bytes
/// there are, the bytes in chunks of 32,768 of which the last may be shorter, and an end. Their
/// messages hold one whole, of these bytes. On `OutOfMemory` `out` is unchanged.
#[tactic(auto, using(crate::proofs::OneWhole::holds_one))]
pub fn frames_of(clip: ClipId, seq: u32, bytes: &[u8], out: &mut Octets) -> Result<(), OutOfMemory>
    requires { length bytes.now ≤ 4194304 }
    ensures ok { OnOk result (out.new ≡ out.old ++ clip_frames clip seq bytes.now) }
    ensures one_whole { HoldsOne clip seq bytes.now }
    ensures err { OnErr result (out.new ≡ out.old) }
{
    let start = out.len();
    if let Err(error) = put_all(clip, seq, bytes, out) {
        out.truncate(start);
        return Err(error);
    }
    Ok(())
}

fn put_all(clip: ClipId, seq: u32, bytes: &[u8], out: &mut Octets) -> Result<(), OutOfMemory>
    requires { length bytes.now ≤ 4194304 }
    ensures ok { OnOk result (out.new ≡ out.old ++ clip_frames clip seq bytes.now) }
    ensures err { OnErr result (take (length out.old) out.new ≡ out.old) }
{
    let mut buffer = Buffer::new();
    let size = buffer.format(bytes.len());
    put_part(clip, seq, ClipMark::Start, size.as_bytes(), out)?;
    for chunk in bytes.chunks(CHUNK_LEN) {
        put_part(clip, seq, ClipMark::Chunk, chunk, out)?;
    }
    put_part(clip, seq, ClipMark::End, &[], out)
}

fn put_part(
    clip: ClipId,
    seq: u32,
    mark: ClipMark,
    bytes: &[u8],
    out: &mut Octets,
) -> Result<(), OutOfMemory>
    requires { length bytes.now ≤ 32768 }
    ensures ok { OnOk result (out.new ≡ out.old ++ part_frame mark clip seq bytes.now) }
    ensures err { OnErr result (take (length out.old) out.new ≡ out.old) }
{
    out.extend(&header(clip, seq, mark, bytes.len() as u32))?;
    out.extend(bytes)
}

/// The frame of a part before the part's own `len` bytes.
fn header(clip: ClipId, seq: u32, mark: ClipMark, len: u32) -> [u8; 18]
    requires { len ≤ 32768 }
    ensures { result ≡ before_bytes clip seq mark len }
{
    let [a, b, c, d] = (PART_LEN + len).to_be_bytes();
    let [e, f, g, h] = seq.to_be_bytes();
    let [i, j, k, l] = len.to_be_bytes();
    let clip = clip.number();
    let mark = mark.number();
    [
        a, b, c, d, b'D', b'C', b'L', b'P', clip, e, f, g, h, mark, i, j, k, l,
    ]
}
