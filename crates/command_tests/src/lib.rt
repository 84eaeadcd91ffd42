//! Tests of the words of commands, of the commands on streams and files in memory, and of the
//! adapters over a device that fails and over files of the system. They stand on what those crates promise alone.
#![tactic(auto)]

#[cfg(test)]
mod checks;
#[cfg(test)]
mod commands;
#[cfg(test)]
mod streams;
#[cfg(test)]
mod summaries;
#[cfg(test)]
mod words;
