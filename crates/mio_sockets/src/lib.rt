//! A hub and a link over the system's sockets, by readiness: the edge of the program.
//!
//! It owns what the system's events mean as marks (`specs/Marks.antt`), and what a hub and a link over
//! sockets tell, which is all but their acts (`specs/Told.antt`). No clause can say what a socket gives
//! or takes, nor when one is ready. It may know no frame, no message and no machine.
#![tactic(auto)]

mod dialing;
mod events;
mod listening;
mod mio_hub;
mod mio_link;
mod outside_counts;
mod stopwatch;
mod streams;
#[cfg(test)]
mod tests;

pub use mio_hub::MioHub;
pub use mio_link::MioLink;
