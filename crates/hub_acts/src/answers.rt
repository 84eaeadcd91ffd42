//! What the calls of a hub and of a link answer.
//!
//! A call that answers `OutOfMemory` is no act: it changed nothing and counted no fault.

/// Why `listen` or `connect` failed.
#[derive(Clone, Copy, Debug, PartialEq, Eq)]
pub enum CallFault {
    /// The call failed, and the count of faults rose.
    Failed,
    /// Out of memory. Nothing changed.
    OutOfMemory,
}

/// What a hub's wait answers.
#[derive(Clone, Copy, Debug, PartialEq, Eq)]
pub enum Waited {
    /// The list has the marks of this wait, which may be none.
    Ready,
    /// The trace of the hub is at its end. A hub over real sockets never answers it.
    Over,
    /// The wait failed, and the count of faults rose.
    Failed,
    /// Out of memory. Nothing changed.
    OutOfMemory,
}

/// What a link's wait answers.
#[derive(Clone, Copy, Debug, PartialEq, Eq)]
pub enum LinkWaited {
    /// What the stream is ready for since the wait before, which may be nothing.
    Ready {
        /// There may be something to read.
        readable: bool,
        /// There may be room to write.
        writable: bool,
    },
    /// The trace of the link is at its end. A link over a real socket never answers it.
    Over,
    /// The wait failed, and the count of faults rose.
    Failed,
    /// Out of memory. Nothing changed.
    OutOfMemory,
}

/// What an accept answers.
#[derive(Clone, Copy, Debug, PartialEq, Eq)]
pub enum AcceptAnswer {
    /// A connection with that serial is open: one more than the latest serial before.
    New(u64),
    /// No connection waits.
    NotNow,
    /// The accept failed, and the count of breaks rose.
    Failed,
    /// Out of memory. Nothing changed.
    OutOfMemory,
}

/// What a read answers.
#[derive(Clone, Copy, Debug, PartialEq, Eq)]
pub enum ReadAnswer {
    /// The number of bytes at the front of the buffer, at least one.
    Got(usize),
    /// The stream has ended.
    End,
    /// There is nothing to read now.
    NotNow,
    /// The read failed, and the count of breaks rose.
    Failed,
    /// Out of memory. Nothing changed.
    OutOfMemory,
}

/// What a write answers.
#[derive(Clone, Copy, Debug, PartialEq, Eq)]
pub enum WriteAnswer {
    /// The number of bytes taken, from the front of the piece, at least one.
    Took(usize),
    /// There is no room now.
    NotNow,
    /// The write failed, and the count of breaks rose.
    Failed,
    /// Out of memory. Nothing changed.
    OutOfMemory,
}
