//! Tests of parts of the server: links, edges and gates, keep-alive, queues, log lines, pressed keys,
//! the phases of a connection, crossings, the table of connections, and totals of a log. They stand on
//! what those crates promise alone.
#![tactic(auto)]

#[cfg(test)]
mod clocks;
#[cfg(test)]
mod connections;
#[cfg(test)]
mod crossings;
#[cfg(test)]
mod edges;
#[cfg(test)]
mod links;
#[cfg(test)]
mod logs;
#[cfg(test)]
mod phases;
#[cfg(test)]
mod presses;
#[cfg(test)]
mod queues;
#[cfg(test)]
mod screens;
#[cfg(test)]
mod tallies;
