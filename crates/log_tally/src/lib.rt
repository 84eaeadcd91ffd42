//! What a server's log comes to, counted while it is written.
//!
//! It owns a sink that counts (`Tally`), and what the lines of a text come to
//! (`specs/Totals.antt`). It may know how a log spells the lines that it counts: nothing of what
//! leads to them.
#![tactic(auto)]

mod open_line;
mod seen;
mod tally;
mod totals;

pub use tally::Tally;
