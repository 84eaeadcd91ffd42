//! Tests of the client: modifiers, what it prints of a server's stream, what it answers and how it
//! ends. They stand on what `modifier_map`, `held_inputs` and `client_core` promise alone.
#![tactic(auto)]

#[cfg(test)]
mod clipboards;
#[cfg(test)]
mod conversations;
#[cfg(test)]
mod injecting;
#[cfg(test)]
mod injection;
#[cfg(test)]
mod modifiers;
