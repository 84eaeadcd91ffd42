//! The run of the server over texts that a number makes, and what it comes to.
//!
//! It owns the run whose log is counted (`specs/CountedRuns.antt`) and the summary that is printed
//! of it (`specs/Summaries.antt`). It may know the server's run over a trace and a tally of its
//! log: no file and no socket.
#![tactic(auto)]

mod counting;
mod summary;

pub use counting::count_run;
pub use summary::{SUMMARY_CAPACITY, Summary};
