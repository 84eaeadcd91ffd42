//! How long a connection may take.

/// How long a connection has for its handshake, in milliseconds from its acceptance. After that it
/// parts as silent.
pub const HANDSHAKE_TIME: u64 = 30_000;

/// How long a connection that parts stays open for what is still to be written, in milliseconds.
pub const CLOSING_TIME: u64 = 5_000;
