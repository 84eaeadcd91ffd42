//! The loop of the client: it waits on a link, tells a client what happens, writes to the link what
//! the client has queued, and writes the client's lines to a sink.
//!
//! It owns the loop, what it asks of a client (`specs/Attendants.antt`), how far a run has come
//! (`specs/Stages.antt`), how it ends (`specs/Ends.antt`), what it makes of its link and its sink
//! (`specs/Attending.antt`), and joining a server by such a run (`specs/Joining.antt`). It may know
//! links, sinks, clients and which act is due: no frame, no message, and not how a client works.
#![tactic(auto)]

mod attendant;
mod attending;
mod joined_client;
mod joining;
mod leaving;
mod reading;
mod turns;
mod waiting;
mod watch;
mod writing;

pub use attendant::Attendant;
pub use attending::attend;
pub use joining::join;
