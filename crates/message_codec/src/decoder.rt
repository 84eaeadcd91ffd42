//! From a body to its message.

ghost use Rattle.std.specs.Prelude.{◌≤◌, IfOk, IfErr, length};
ghost use Rattle.message_codec.specs.Spelling.{Spells};
ghost use Rattle.message_codec.specs.Refusals.{RefusedFor};
ghost use Rattle.wire_frames.specs.declared.limits.TheConstants.{BODY_LIMIT};

use crate::coding::Code;
use crate::drafts::finish;
use crate::faults::{BadBody, DecodeFault};
use crate::messages::{End, Msg};
use crate::reading::ReadError;
use crate::rows::draft_at;
use std::alloc::Global;

/// Decodes the body of a message sent by `from`, of at most `BODY_LIMIT` bytes. A string or a list
/// is copied into memory from `alloc`.
///
/// Answers `Bad` if and only if the body spells no message of that end, with the first fault in the
/// order of `BadBody`. Answers `OutOfMemory` only for a message with a string or a list: every key,
/// button, motion, enter and leave message is decoded without memory.
pub fn decode(alloc: Global, from: End, body: &[u8]) -> Result<Msg, DecodeFault>
    requires { length body.now ≤ BODY_LIMIT }
    ensures found { IfOk result (λ m. Spells from m body.now) }
    ensures bad { IfErr result (λ fault. RefusedFor fault from body.now) }
{
    let Some(code) = Code::of(from, body) else {
        return Err(DecodeFault::Bad(BadBody::UnknownCode));
    };
    if !code.is_sent_by(from) {
        return Err(DecodeFault::Bad(BadBody::WrongEnd));
    }
    let (_, fields) = body.split_at(code.text().len());
    let (draft, rest) = match draft_at(alloc, code, fields) {
        Ok(found) => found,
        Err(ReadError::Memory) => return Err(DecodeFault::OutOfMemory),
        Err(ReadError::Short { left }) => {
            let at = (body.len() - left) as u32;
            return Err(DecodeFault::Bad(BadBody::Short { at }));
        }
    };
    if !rest.is_empty() {
        let at = (body.len() - rest.len()) as u32;
        return Err(DecodeFault::Bad(BadBody::Trailing { at }));
    }
    match finish(draft) {
        Ok(msg) => Ok(msg),
        Err(bad) => Err(DecodeFault::Bad(bad)),
    }
}
