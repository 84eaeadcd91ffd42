//! Why a connection parts.

ghost use Rattle.std.specs.Prelude.{◌≡◌, ◌+◌, ◌≤◌, ◌++◌, length};
ghost use Rattle.hello_states.specs.Causes as spec;

use crate::version::{PROTOCOL_MAJOR, PROTOCOL_MINOR};
use message_codec::Msg;
use share_base::{Buffer, Reason, put_u64};

/// The length of the longest text of a cause: `bad`, a number of 20 digits and `trailing`, between
/// blanks.
pub const CAUSE_LENGTH: usize = 33;

/// Why a connection parts. After the first six causes what is queued is still written, after the
/// others it is dropped.
#[derive(Clone, Copy, Debug, PartialEq, Eq)]
pub enum PartCause {
    /// The server says goodbye.
    Bye,
    /// The peer speaks a version that isn't admitted.
    Version,
    /// The peer names no known screen.
    Unknown,
    /// The peer names a screen that is used.
    Busy,
    /// The peer tells a shape that no screen has.
    Size,
    /// The peer sent a bad frame.
    Bad {
        /// How many bytes of its stream stand before that frame.
        place: u64,
        /// What is wrong with the frame.
        reason: Reason,
    },
    /// The peer, joined, was not heard for three rates of its keep-alive.
    Dead,
    /// The peer didn't come through the handshake in time.
    Silent,
    /// The peer takes its bytes so slowly that a frame had no room in its queue.
    Slow,
    /// Too many connections were open at its acceptance.
    Full,
    /// The peer's stream ended.
    Ended,
    /// A read or a write failed.
    Failed,
}

impl PartCause {
    /// Tells whether what is queued is dropped at the parting. Else it is still written.
    pub fn drops_queue(self) -> bool
        ensures { result ≡ spec.drops_queue self }
    {
        matches!(
            self,
            PartCause::Dead
                | PartCause::Silent
                | PartCause::Slow
                | PartCause::Full
                | PartCause::Ended
                | PartCause::Failed
        )
    }

    /// Appends the cause as the log prints it: its word, and for a bad frame the place and the
    /// reason of the frame. These are at most `CAUSE_LENGTH` bytes, which have to fit.
    pub fn put_text<B: Buffer>(self, out: &mut B)
        requires { length (B.content out.old) + CAUSE_LENGTH ≤ B.capacity out.old }
        ensures printed { B.content out.new ≡ B.content out.old ++ spec.cause_text self }
        ensures bound { length (B.content out.new) ≤ length (B.content out.old) + CAUSE_LENGTH }
        ensures capacity { B.capacity out.old ≤ B.capacity out.new }
    {
        out.extend(self.word());
        if let PartCause::Bad { place, reason } = self {
            out.extend(b" ");
            put_u64(out, place);
            out.extend(b" ");
            out.extend(reason.text());
        }
    }

    fn word(self) -> &'static [u8]
        ensures { result.now ≡ spec.cause_word self }
    {
        match self {
            PartCause::Bye => b"bye",
            PartCause::Version => b"version",
            PartCause::Unknown => b"unknown",
            PartCause::Busy => b"busy",
            PartCause::Size => b"size",
            PartCause::Bad { .. } => b"bad",
            PartCause::Dead => b"dead",
            PartCause::Silent => b"silent",
            PartCause::Slow => b"slow",
            PartCause::Full => b"full",
            PartCause::Ended => b"ended",
            PartCause::Failed => b"failed",
        }
    }

    /// Returns the message that is queued before the parting, if the cause has one.
    pub fn farewell(self) -> Option<Msg>
        ensures { result ≡ spec.farewell self }
    {
        match self {
            PartCause::Bye => Some(Msg::Bye),
            PartCause::Version => Some(Msg::BadVersion {
                major: PROTOCOL_MAJOR,
                minor: PROTOCOL_MINOR,
            }),
            PartCause::Unknown => Some(Msg::Unknown),
            PartCause::Busy => Some(Msg::Busy),
            PartCause::Size | PartCause::Bad { .. } => Some(Msg::Malformed),
            PartCause::Dead
            | PartCause::Silent
            | PartCause::Slow
            | PartCause::Full
            | PartCause::Ended
            | PartCause::Failed => None,
        }
    }
}
