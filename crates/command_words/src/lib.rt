//! The words that name a command of the program.
//!
//! It owns the commands with their words (`specs/Forms.antt`), and which words name which.
//! What a command does, the crates above know.
#![tactic(auto)]

mod command;
mod laws;
mod words;

pub use command::Command;
pub use laws::words_name_one_command;
pub use words::form;
