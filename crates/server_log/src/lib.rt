//! The text of a server's log: a line for each connection that is opened, joined, parted and
//! closed, for each message that is queued, and for what the primary screen prints.
//!
//! It owns the log's text and the primary's injector, and what its calls append
//! (`specs/Telling.antt`). The lines themselves are the machine's. It may know messages, causes of
//! parting and lines of a screen, but not when a line is due or where the text goes.
#![tactic(auto)]

mod lines;
mod local_lines;
mod log;
mod primary;

pub use log::Log;
pub use primary::Primary;
