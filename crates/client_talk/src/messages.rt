//! The messages that a client answers with.

ghost use Rattle.std.specs.Prelude.{◌≡◌, ◌≤◌, length, IfOk};
ghost use Rattle.wire_frames.specs.declared.limits.TheConstants.{BODY_LIMIT};
ghost use Rattle.message_codec.specs.Spelling.{body_of};
ghost use Rattle.message_codec.specs.declared.messages.Msg.TheVariants as message;
ghost use Rattle.client_talk.specs.Answers as answer_spec;

use crate::version::{MAJOR, MINOR};
use message_codec::Msg;
use share_base::{Octets, OutOfMemory, ScreenName};
use std::alloc::Global;

/// The information of a screen of that size.
pub(crate) fn information(w: u16, h: u16) -> Msg
    ensures { result ≡ answer_spec.information w h }
{
    Msg::Info {
        x: 0,
        y: 0,
        w,
        h,
        warp: 0,
        mx: (w / 2) as i16,
        my: (h / 2) as i16,
    }
}

/// The client's answer to a hello.
pub(crate) fn hello_back(alloc: Global, name: &ScreenName) -> Result<Msg, OutOfMemory>
    ensures value { IfOk result (λ m. m ≡ message.HelloBack MAJOR MINOR name.now) }
    ensures short { IfOk result (λ m. length (body_of m) ≤ BODY_LIMIT) }
{
    let mut bytes = Octets::new(alloc);
    bytes.extend(name.as_slice())?;
    Ok(Msg::HelloBack {
        major: MAJOR,
        minor: MINOR,
        name: bytes,
    })
}
