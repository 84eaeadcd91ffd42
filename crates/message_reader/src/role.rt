//! What a reader expects of a stream.

ghost use Rattle.std.specs.Prelude.{◌≡◌, ◌≤◌};
ghost use Rattle.message_reader.specs.Roles.{reader_of, is_hello, is_answer, is_refusal, IsLimit};
ghost use Rattle.message_reader.specs.Roles.{MayStand};

use message_codec::{End, Msg};
use wire_frames::BODY_LIMIT;

/// The longest body of the first frame that a server reads, in bytes.
pub const HELLO_LIMIT: u32 = 1_024;

/// Who reads a stream, which decides which messages may stand where and how long a body may be.
#[derive(Clone, Copy, Debug, PartialEq, Eq)]
pub enum Role {
    /// A server reads the stream of a client. The first message must be a hello answer, in a body
    /// of at most 1,024 bytes; no later one may be one.
    Server,
    /// A client reads the stream of a server. The first message must be a hello or a refusal
    /// (`EICV`, `EBSY`, `EUNK` or `EBAD`); no later one may be a hello.
    Client,
    /// Somebody else reads the stream of that end. Every message of that end may stand anywhere.
    Observer(End),
}

fn is_hello(msg: &Msg) -> bool
    ensures { result ≡ is_hello msg.now }
{
    matches!(msg, Msg::Hello { .. })
}

fn is_hello_answer(msg: &Msg) -> bool
    ensures { result ≡ is_answer msg.now }
{
    matches!(msg, Msg::HelloBack { .. })
}

fn is_refusal(msg: &Msg) -> bool
    ensures { result ≡ is_refusal msg.now }
{
    matches!(
        msg,
        Msg::BadVersion { .. } | Msg::Busy | Msg::Unknown | Msg::Malformed
    )
}

impl Role {
    /// Returns the end that sends the stream.
    pub fn sender(self) -> End
        ensures { result ≡ (reader_of self).from }
    {
        match self {
            Role::Server => End::Client,
            Role::Client => End::Server,
            Role::Observer(end) => end,
        }
    }

    /// Returns how many bytes the next body may have, before the first message or after it.
    pub fn limit(self, begun: bool) -> u32
        ensures value { IsLimit self begun result }
        ensures bound { result ≤ BODY_LIMIT }
    {
        match self {
            Role::Server if !begun => HELLO_LIMIT,
            _ => BODY_LIMIT,
        }
    }

    /// Returns whether the message may stand next, before the first message or after it.
    pub fn takes(self, begun: bool, msg: &Msg) -> bool
        ensures { MayStand self begun msg.now result }
    {
        match self {
            Role::Server => is_hello_answer(msg) != begun,
            Role::Client if begun => !is_hello(msg),
            Role::Client => is_hello(msg) || is_refusal(msg),
            Role::Observer(_) => true,
        }
    }
}
