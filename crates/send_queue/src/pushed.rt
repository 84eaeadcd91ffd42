//! What becomes of a message that is to be queued.

/// What became of the frame of a message.
#[derive(Clone, Copy, Debug, PartialEq, Eq)]
pub enum Pushed {
    /// It was queued.
    Queued,
    /// It was left out, since it had no room or an earlier frame had none.
    LeftOut,
}
