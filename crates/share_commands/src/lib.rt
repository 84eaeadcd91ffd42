//! The top call and its commands.
//!
//! It owns the statuses that a command ends with, and the statement of what a command does with the
//! bytes that it reads (`specs/`). What the bytes mean, the crates below know; of the system it
//! knows nothing.
#![tactic(auto)]

mod checking;
mod commands;
mod generating;
mod inject_core;
mod joining;
mod laws;
mod line_core;
mod reading;
mod replaying;
mod serving;
mod show_core;
mod status;
mod texts;
mod top;

pub use checking::run_check;
pub use command_words::{Command, form};
pub use commands::{run_inject, run_show};
pub use generating::run_generate;
pub use joining::run_join;
pub use laws::{both_ends, file_decides, one_end, refusals_name_lines};
pub use line_core::LineCore;
pub use replaying::run_replay;
pub use serving::run_serve;
pub use show_core::ShowCore;
pub use status::Status;
pub use top::run;
