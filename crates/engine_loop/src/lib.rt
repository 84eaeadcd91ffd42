//! The loop of the server: it waits on a hub, tells an engine what happens, writes to the
//! connections what the engine has queued for them, and writes the engine's log to a sink.
//!
//! It owns the loop, how far a run has come (`specs/Stages.antt`) and what a run makes of its
//! engine, its hub and its sink (`specs/Serving.antt`), with the law that its acts keep the headline
//! (`specs/Headline.antt`). It may know hubs, sinks, engines and which act is due, by the machine's
//! definitions: no frame, no message, and not how an engine works.
#![tactic(auto)]

mod accepting;
mod closing;
mod laws;
mod leaving;
mod reading;
mod running;
mod serve_end;
mod turns;
mod waiting;
mod watch;
mod writing;

pub use laws::keeps_the_headline;
pub use running::serve;
pub use serve_end::ServeEnd;
