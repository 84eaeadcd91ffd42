//! The connections of a server, in the order of their serials: how far each has come, what is read
//! from it, what is queued for it, and the clipboards that it sends.
//!
//! It owns what the server keeps of a connection, and which one of the machine's connections that
//! is (`specs/Standing.antt`). It may know phases, messages and queues, but not what a message
//! leads to.
#![tactic(auto)]

mod connection;
mod deadlines;
mod phase;
mod reading;
mod table;

pub use connection::Connection;
pub use phase::Phase;
pub use reading::Reading;
pub use table::Table;
