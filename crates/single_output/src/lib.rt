//! The law that a replay of given files has one output.
//!
//! It owns what it means that no full chunk is queued, what the one output of a trace is, and the
//! law (`specs/OneOutput.antt`). It has no program code.
#![tactic(auto)]

mod laws;

pub use laws::one_output;
