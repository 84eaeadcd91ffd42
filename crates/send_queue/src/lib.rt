//! What is queued for one connection and not taken yet: the frames of the messages that it was
//! sent, up to the first that would leave too many bytes untaken.
//!
//! It owns what a queue represents of the entries that a server routed (`specs/Standing.antt`) and
//! what its calls do to that (`specs/Calls.antt`). It may know messages, frames and the machine's
//! definitions of a queue, but not what a message leads to or where bytes go.
#![tactic(auto)]

mod frames;
mod laws;
mod pushed;
mod queue;

pub use laws::other_targets;
pub use pushed::Pushed;
pub use queue::{MOST_UNTAKEN, SendQueue};
