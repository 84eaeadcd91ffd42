//! Writing a frame.

ghost use Rattle.std.specs.Prelude.{◌≡◌, ◌≤◌, ◌++◌, length, OnOk, OnErr};
ghost use Rattle.wire_frames.specs.Framing.{frame};

use crate::limits::BODY_LIMIT;
use share_base::{Octets, OutOfMemory};

/// Appends the frame of a body of at most `BODY_LIMIT` bytes. On `OutOfMemory` `out` is unchanged.
pub fn put_frame(body: &[u8], out: &mut Octets) -> Result<(), OutOfMemory>
    requires { length body.now ≤ BODY_LIMIT }
    ensures ok { OnOk result (out.new ≡ out.old ++ frame body.now) }
    ensures err { OnErr result (out.new ≡ out.old) }
{
    let start = out.len();
    out.extend_u32(body.len() as u32)?;
    if let Err(error) = out.extend(body) {
        out.truncate(start);
        return Err(error);
    }
    Ok(())
}
