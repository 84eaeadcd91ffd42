//! Tests of lists, numbers, names and the outside in memory, and of frames, messages, the one reader
//! and the parts of clipboards. They stand apart from those crates: a crate's proof is then made once,
//! and its tests stand on what it promises alone.
#![tactic(auto)]

#[cfg(test)]
mod basics;
#[cfg(test)]
mod bodies;
#[cfg(test)]
mod clipboards;
#[cfg(test)]
mod frames;
#[cfg(test)]
mod readers;
