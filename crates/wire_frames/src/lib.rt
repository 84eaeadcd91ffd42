//! Frames on a stream of bytes, in whatever pieces it comes: a length of four bytes, big-endian,
//! and then exactly that many bytes of body (protocol reference, framing).
//!
//! It owns framing (`specs/Framing.antt`), what a framer keeps (`specs/Framers.antt`) and what it
//! has done over all its calls (`specs/Calls.antt`, `specs/Holding.antt`, `specs/Cuts.antt`). It
//! may know no message, and nothing of where bytes come from.
#![tactic(auto)]

mod frame;
mod framer;
mod laws;
mod limits;

pub use frame::put_frame;
pub use framer::{FrameStep, Framer};
pub use laws::{holds_little, however_cut, one_framing};
pub use limits::BODY_LIMIT;
