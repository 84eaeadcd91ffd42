//! Tests of the hub and the link over sockets of this machine, with ample memory. They stand on what
//! those promise alone.
#![tactic(auto)]

#[cfg(test)]
mod crowds;
#[cfg(test)]
mod meeting;
#[cfg(test)]
mod partings;
#[cfg(test)]
mod refusals;
#[cfg(test)]
mod transfers;
