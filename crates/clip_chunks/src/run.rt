//! A clipboard of which some parts have come.

use share_base::Octets;

/// A run of parts that may still become a whole.
#[derive(Debug, Drop)]
pub(crate) struct Run {
    /// The sequence of its start.
    pub(crate) seq: u32,
    /// The size that its start says, in bytes.
    pub(crate) size: u32,
    /// The bytes of its chunks.
    pub(crate) bytes: Octets,
}
