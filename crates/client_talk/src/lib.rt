//! A client's side of the conversation with its server: the answers to messages, the wait for a
//! server that is silent, and the script of the client's own screen.
//!
//! It owns what a client answers and notes (`specs/Answers.antt`), how its script runs and when
//! something is due (`specs/Scripts.antt`), and how much may be queued (`specs/Outboxes.antt`). It
//! may know messages, moments and client scripts, but not the stream that messages come from, nor
//! lines of the screen.
#![tactic(auto)]

mod clip_sending;
mod conversation;
mod copies;
mod messages;
mod options;
mod outbox;
#[cfg(test)]
mod tests;
mod version;

pub use conversation::{Conversation, DEFAULT_RATE};
pub use options::{HEARTBEAT, first_option};
pub use outbox::MOST_UNTAKEN;
pub use version::{MAJOR, MINOR, is_welcome};
