//! Why a body is refused.

ghost use Rattle.std.specs.Prelude.{◌≡◌};
ghost use Rattle.message_codec.specs.Reasons.{reason_of};

use share_base::Reason;
use thiserror::Error;

/// What is wrong with a body. The first of these that is so is answered. A place is an offset in
/// the body, in bytes.
#[derive(Clone, Copy, Debug, PartialEq, Eq, Error)]
pub enum BadBody {
    /// It begins with neither `Synergy` nor a code of the table.
    #[error("it begins as no message does")]
    UnknownCode,
    /// The other end alone sends that message.
    #[error("the other end sends that message")]
    WrongEnd,
    /// A part of a field is longer than what is left. An integer is one part, a string is its
    /// length and its bytes, and a list is its count and each of its integers.
    #[error("a field ends too early at {at}")]
    Short {
        /// The offset of that part.
        at: u32,
    },
    /// Bytes stand after the last field.
    #[error("bytes stand after the last field at {at}")]
    Trailing {
        /// Their offset.
        at: u32,
    },
    /// A clipboard's number is above 1.
    #[error("a clipboard above 1 at {at}")]
    BadClip {
        /// The offset of the number.
        at: u32,
    },
    /// The number of a clipboard's part is other than 1, 2 and 3.
    #[error("no part of a clipboard at {at}")]
    BadMark {
        /// The offset of the number.
        at: u32,
    },
}

impl BadBody {
    /// The reason for which its frame is bad.
    pub fn reason(self) -> Reason
        ensures { result ≡ reason_of self }
    {
        match self {
            BadBody::UnknownCode => Reason::Code,
            BadBody::WrongEnd => Reason::End,
            BadBody::Short { .. } => Reason::Short,
            BadBody::Trailing { .. } => Reason::Trailing,
            BadBody::BadClip { .. } => Reason::Clip,
            BadBody::BadMark { .. } => Reason::Mark,
        }
    }
}

/// Why there is no message.
#[derive(Clone, Copy, Debug, PartialEq, Eq, Error)]
pub enum DecodeFault {
    /// The body spells no message of that end.
    #[error("{0}")]
    Bad(BadBody),
    /// Out of memory.
    #[error("out of memory")]
    OutOfMemory,
}
