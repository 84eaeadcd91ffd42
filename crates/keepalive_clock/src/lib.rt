//! The keep-alive of one connection: when the next beat is due, and when the peer counts as dead.
//!
//! It owns the deadlines of a keep-alive (`specs/KeepAlive.antt`). It may know no connection, no
//! message and no clock: each call is given the moment. No call allocates.
#![tactic(auto)]

mod alive;

pub use alive::Alive;
