//! What becomes of a part.

use share_base::Octets;

/// What an assembly answers to a part.
#[derive(Debug, Drop)]
pub enum Took {
    /// A start: a clipboard is on its way.
    Started,
    /// A chunk of the clipboard that is on its way.
    Going,
    /// An end: these are the bytes of the whole clipboard.
    Whole(Octets),
    /// A part that fits nowhere. It is dropped, and with it the clipboard that was on its way.
    Dropped(Cause),
}

/// Why a part was dropped. Where several causes apply, the first in this order is answered.
#[derive(Clone, Copy, Debug, PartialEq, Eq)]
pub enum Cause {
    /// The data of a start are not 1 to 10 decimal digits.
    BadSize,
    /// A start says a size above the limit.
    TooLarge {
        /// The size that it says, in bytes.
        size: u64,
    },
    /// A chunk or an end came with no clipboard on its way.
    NoStart,
    /// The sequence of a chunk or an end is not that of the start.
    SeqChanged {
        /// The sequence of the start.
        kept: u32,
        /// The sequence of the part.
        given: u32,
    },
    /// With this chunk there are more bytes than the start said.
    Over {
        /// The size that the start said, in bytes.
        size: u64,
        /// How many bytes came, with this chunk.
        got: u64,
    },
    /// At the end there are fewer bytes than the start said.
    Mismatch {
        /// The size that the start said, in bytes.
        size: u64,
        /// How many bytes came.
        got: u64,
    },
}
