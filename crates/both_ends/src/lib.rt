//! What a client makes of what a server queued for it.
//!
//! It owns what a server tells first and later (`specs/Greetings.antt`), which messages can be
//! written (`specs/Writing.antt`, `specs/Numbers.antt`), a client that is fed a queue
//! (`specs/Feeding.antt`, `specs/Inputs.antt`), and the law of both ends
//! (`specs/Understanding.antt`). It knows the server's machine and a client by their definitions. It
//! has no program code.
#![tactic(auto)]

mod laws;

pub use laws::{all_is_writable, both_ends, greeted_first};
