//! Appending a message's frame to a buffer.

ghost use Rattle.std.specs.Prelude.{◌≡◌, ◌≤◌, ◌++◌, length, OnOk, OnErr};
ghost use Rattle.message_codec.specs.Spelling.{body_of};
ghost use Rattle.message_codec.specs.Streams.{frame_of};
ghost use Rattle.wire_frames.specs.declared.limits.TheConstants.{BODY_LIMIT};

use bytes::BytesMut;
use message_codec::{Msg, encode};
use share_base::{Octets, OutOfMemory};

/// How many bytes the length before a body has.
pub const LENGTH_BYTES: u64 = 4;

/// Appends the frame of a message, whose body has at most `BODY_LIMIT` bytes. `body` is scratch
/// space: what it holds is lost. On `OutOfMemory` the bytes are unchanged.
pub fn append_frame(bytes: &mut BytesMut, body: &mut Octets, msg: &Msg) -> Result<(), OutOfMemory>
    requires { length (body_of msg.now) ≤ BODY_LIMIT }
    ensures ok { OnOk result (bytes.new.items ≡ bytes.old.items ++ frame_of msg.now) }
    ensures err { OnErr result (bytes.new.items ≡ bytes.old.items) }
{
    body.clear();
    encode(msg, body)?;
    bytes.reserve(LENGTH_BYTES as usize + body.len())?;
    bytes.extend_reserved(&(body.len() as u32).to_be_bytes());
    bytes.extend_reserved(body.as_slice());
    Ok(())
}
