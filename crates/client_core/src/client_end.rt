//! How a client ends.

use share_base::Reason;

/// What a server refuses a client for.
#[derive(Clone, Copy, Debug, PartialEq, Eq)]
pub enum Which {
    /// The client's version: the server's hello has another.
    Version,
    /// `EICV`: the client's version, as the server sees it.
    Eicv,
    /// `EBSY`: a screen of that name is there already.
    Ebsy,
    /// `EUNK`: the server knows no screen of that name.
    Eunk,
    /// `EBAD`: a frame of the client was bad.
    Ebad,
}

/// How a connection was lost.
#[derive(Clone, Copy, Debug, PartialEq, Eq)]
pub enum LostCause {
    /// It ended.
    Ended,
    /// A read or a write failed.
    Failed,
    /// Nothing was heard for too long.
    Dead,
    /// It took too little of what was queued for it.
    Slow,
}

/// How a client ends. A place is the number of bytes of the stream before a frame.
#[derive(Clone, Copy, Debug, PartialEq, Eq)]
pub enum ClientEnd {
    /// The server said farewell.
    Bye,
    /// The server refused it.
    Refused(Which),
    /// A frame of the server was bad.
    BadPeer {
        /// Where its length field begins.
        place: u64,
        /// What is wrong with it.
        reason: Reason,
    },
    /// The connection was lost.
    Lost(LostCause),
    /// It had as many turns as it was given.
    TurnsSpent,
    /// The link failed.
    LinkFault,
    /// The output failed.
    WriteFault,
    /// Memory could not be had.
    OutOfMemory,
}
