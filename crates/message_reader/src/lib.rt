//! Reading messages from a stream of bytes, in whatever pieces it comes.
//!
//! It owns which messages may stand where for each role of a reader (`specs/Roles.antt`), what a
//! reader knows of its stream (`specs/Representation.antt`) and what one step of it gives
//! (`specs/Steps.antt`), in terms of the verdict on the stream. It may know frames and messages,
//! but not where the bytes come from or what becomes of a message.
#![tactic(auto)]

mod laws;
mod reader;
mod role;

pub use laws::one_reading;
pub use reader::{BadFrame, MessageReader, ReadStep};
pub use role::{HELLO_LIMIT, Role};
