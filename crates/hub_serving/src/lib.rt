//! A server on a port of a hub.
//!
//! It owns the run of a server over a hub that is handed in: the hub listens, the server begins at
//! moment 0, and the loop runs (`specs/Serving.antt`). It may know no file and no command.
#![tactic(auto)]

mod serving;

pub use engine_loop::ServeEnd;
pub use serving::serve_on;
