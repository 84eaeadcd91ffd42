//! A hub in memory, which a trace drives.
//!
//! It owns what happens to it, in its order (`specs/Stories.antt`, `specs/Streams.antt`), and what
//! each call answers, as a function of the trace, of the calls that are to fail and of the acts so
//! far (`specs/Answers.antt`). A link in memory stands on the same parts: a `Cursor` over the
//! trace, the `Stream` of a connection and the `Ledger` of the acts. It may know no frame, no
//! message and no machine.
#![tactic(auto)]

mod counters;
mod cursor;
mod hub_calls;
mod hub_streams;
mod hub_turns;
mod ledger;
mod memory_hub;
mod playback;
mod stream;
mod streams;
mod turn_marks;

pub use cursor::Cursor;
pub use hub_acts::{
    AcceptAnswer, Act, CallFault, Hub, Link, LinkWaited, MOST_MARKS, Mark, Marks, ReadAnswer,
    ReadyList, Waited, WriteAnswer,
};
pub use ledger::Ledger;
pub use memory_hub::MemoryHub;
pub use playback::joins_one;
pub use stream::Stream;
pub use streams::{bytes_of, connection_of};
pub use turn_marks::{is_readable, is_writable};
