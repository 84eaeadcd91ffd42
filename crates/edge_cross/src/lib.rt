//! What a motion meets at the edge of a screen: the side that it passes, corners that block it, and
//! the gate that it asks before the screens switch.
//!
//! The crate owns edges (`specs/Edges.antt`), corners (`specs/InCorners.antt`) and the gate's
//! answers (`specs/Gates.antt`). It must not know links or the machine. No call allocates.
#![tactic(auto)]

mod corner;
mod edge;
mod gate;
mod laws;

pub use corner::in_corner;
pub use edge::{Axis, Edge, leaves};
pub use gate::{Gate, GateAnswer, Waiting};
pub use laws::{corner_is_tested, edge_is_passed};
pub use share_base::Corners;
