//! A server that a trace drives.
//!
//! It owns the run of the server's loop over a hub in memory, and what such a run is
//! (`specs/Replaying.antt`) and comes to (`specs/Switches.antt`). It knows no files and no sockets.
#![tactic(auto)]

mod running;

pub use engine_loop::ServeEnd;
pub use running::{replay, replay_with_switches};
