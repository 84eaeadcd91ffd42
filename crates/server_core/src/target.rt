//! Whom the server tells something.

/// The primary screen, or a connection by its serial.
#[derive(Clone, Copy, Debug, PartialEq, Eq)]
pub enum Target {
    /// The primary screen, at which the script's keys and motions are made.
    Primary,
    /// The connection of that serial.
    Client(u64),
}
