//! Whether a motion leaves the active screen, and where the cursor enters the next one.
//!
//! It owns what of the server decides that (`specs/Showing.antt`), what the switch gate remembers
//! (`specs/Remembering.antt`), and points of screens (`specs/Points.antt`). It may know the
//! configuration and the definitions of the machine, but no connection and no message. No call
//! allocates.
#![tactic(auto)]

mod point;
mod surroundings;
mod switch_gate;
mod way;

pub use point::{Point, clamped, edge_at, entry_point, middle};
pub use surroundings::Surroundings;
pub use switch_gate::SwitchGate;
pub use way::Way;
