//! How a message ends a client.

ghost use Rattle.std.specs.Prelude.{◌≡◌, Some};
ghost use Rattle.client_core.specs.Ends.{stop_of, stop_joining, end_for, IsOfStream};

use crate::client_end::{ClientEnd, Which};
use client_talk::is_welcome;
use message_codec::Msg;

/// How a message ends a client.
#[derive(Clone, Copy, Debug, PartialEq, Eq)]
pub enum Stop {
    /// It says farewell.
    Bye,
    /// It refuses the client.
    Refused(Which),
}

impl Stop {
    /// How the message ends a client; `None` where it goes on.
    pub fn of(msg: &Msg) -> Option<Stop>
        ensures { result ≡ stop_of msg.now }
    {
        match msg {
            Msg::Bye => Some(Stop::Bye),
            Msg::BadVersion { .. } => Some(Stop::Refused(Which::Eicv)),
            Msg::Busy => Some(Stop::Refused(Which::Ebsy)),
            Msg::Unknown => Some(Stop::Refused(Which::Eunk)),
            Msg::Malformed => Some(Stop::Refused(Which::Ebad)),
            _ => None,
        }
    }

    /// How the message ends a client that joins: so does the hello of a server of another version.
    pub fn of_joining(msg: &Msg) -> Option<Stop>
        ensures { result ≡ stop_joining msg.now }
    {
        match msg {
            Msg::Hello { major, minor } => {
                if is_welcome(*major, *minor) {
                    None
                } else {
                    Some(Stop::Refused(Which::Version))
                }
            }
            _ => Stop::of(msg),
        }
    }

    /// The client's end.
    pub fn end(self) -> ClientEnd
        ensures value { result ≡ end_for self }
        ensures of_stream { IsOfStream (Some result) }
    {
        match self {
            Stop::Bye => ClientEnd::Bye,
            Stop::Refused(which) => ClientEnd::Refused(which),
        }
    }
}
