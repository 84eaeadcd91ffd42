//! What happens to a server.

/// What the loop tells an engine.
#[derive(Clone, Copy, Debug, PartialEq, Eq)]
pub enum Happening<'a> {
    /// A connection with that new serial was accepted.
    Joined(u64),
    /// Bytes came from a connection.
    Got {
        /// The connection.
        serial: u64,
        /// The bytes.
        piece: &'a [u8],
    },
    /// The stream of the connection with that serial has ended.
    Ended(u64),
    /// A read or a write of the connection with that serial failed.
    Failed(u64),
    /// It is that moment, in milliseconds.
    Moment(u64),
}
