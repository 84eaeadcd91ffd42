//! A link in memory, which a trace drives.
//!
//! It owns what the lines of a trace make of one connection that is there from the start
//! (`specs/LinkStreams.antt`), and what each call answers, as a function of the trace, of the calls
//! that are to fail and of the acts so far (`specs/LinkAnswers.antt`). Its parts are those of the
//! hub in memory. It may know no frame, no message and no client.
#![tactic(auto)]

mod link_calls;
mod link_playback;
mod memory_link;

pub use hub_acts::{Act, CallFault, Link, LinkWaited, ReadAnswer, WriteAnswer};
pub use memory_link::MemoryLink;
