//! Messages whose clipboard and mark are still numbers.

ghost use Rattle.std.specs.Prelude.{◌≡◌, IfOk, IfErr};
ghost use Rattle.message_codec.specs.Drafts.{IsDraftOf, draft_code, draft_fields};
ghost use Rattle.message_codec.specs.Refusals.{Misfits};

use crate::clip_mark::ClipMark;
use crate::faults::BadBody;
use crate::messages::Msg;
use share_base::{ClipId, Octets};

/// A message that was read whole, before its clipboard and its mark are looked at.
#[derive(Debug, Drop)]
pub enum Draft {
    /// A grab of the clipboard of that number.
    Grab {
        clip: u8,
        seq: u32,
    },
    /// A part of that number, of the clipboard of that number.
    ClipPart {
        clip: u8,
        seq: u32,
        mark: u8,
        bytes: Octets,
    },
    /// Any other message.
    Ready(Msg),
}

/// The message of a draft. A clipboard above 1 is refused first, and then a mark other than 1, 2
/// and 3.
pub fn finish(draft: Draft) -> Result<Msg, BadBody>
    ensures ok { IfOk result (λ m. IsDraftOf m draft) }
    ensures err { IfErr result (λ bad. Misfits bad (draft_code draft) (draft_fields draft)) }
{
    match draft {
        Draft::Ready(msg) => Ok(msg),
        Draft::Grab { clip, seq } => match ClipId::of(clip) {
            Some(clip) => Ok(Msg::Grab { clip, seq }),
            None => Err(BadBody::BadClip { at: 4 }),
        },
        Draft::ClipPart {
            clip,
            seq,
            mark,
            bytes,
        } => {
            let Some(clip) = ClipId::of(clip) else {
                return Err(BadBody::BadClip { at: 4 });
            };
            let Some(mark) = ClipMark::of(mark) else {
                return Err(BadBody::BadMark { at: 9 });
            };
            Ok(Msg::ClipPart {
                clip,
                seq,
                mark,
                bytes,
            })
        }
    }
}
