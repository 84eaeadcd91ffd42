//! Where the bytes of known clipboards come from.
//!
//! It owns the messages of clients as they arrive (`specs/Arrivals.antt`), and the law that known
//! bytes were copied by the script or sent by their owner (`specs/Sources.antt`). It knows the
//! server's machine by its definitions. It has no program code.
#![tactic(auto)]

mod laws;

pub use laws::{arrivals_came_with_pieces, known_have_sources};
