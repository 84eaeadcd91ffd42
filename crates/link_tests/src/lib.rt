//! Tests of the hub and the link in memory, and of a client that joins over such a link. They stand on
//! what those crates promise alone.
#![tactic(auto)]

#[cfg(test)]
mod hubs;
#[cfg(test)]
mod joining;
#[cfg(test)]
mod links;
#[cfg(test)]
mod marks;
