//! What every other crate stands on: lists of bytes and of words, buffers that text is printed
//! into, decimal numbers, the small types that name keys, buttons, screens, sides, shapes,
//! clipboards and reasons, names and sets of screens, and the outside as traits, `Source`, `Sink`
//! and `Files`, with forms of them in memory.
//!
//! It owns the words for what an outside tells and counts (`specs/Told.antt`, `specs/Counts.antt`).
//! It may know no frame, no message and no command.
#![tactic(auto)]

mod buffer;
mod clip_id;
mod corners;
mod decimal;
mod files;
mod fixed_buffer;
mod hex;
mod memory_files;
mod memory_sink;
mod memory_source;
mod moments;
mod numbers;
mod octets;
mod out_of_memory;
mod reason;
mod screen_name;
mod screen_set;
mod shape;
mod sides;
mod sink;
mod source;
mod words32;

pub use buffer::Buffer;
pub use clip_id::ClipId;
pub use corners::Corners;
pub use decimal::{put_i16, put_u16, put_u32, put_u64};
pub use files::{FileAnswer, Files};
pub use fixed_buffer::{FixedBuffer, LINES_CAPACITY, Lines, SHORT_LINE_CAPACITY, ShortLine};
pub use hex::hex_pair;
pub use memory_files::{MemoryFiles, NamedFile};
pub use memory_sink::MemorySink;
pub use memory_source::MemorySource;
pub use moments::{LAST_MOMENT, moment_of};
pub use numbers::{Button, KeyId, Mask, MouseButton, RuleNo, ScreenNo};
pub use octets::Octets;
pub use out_of_memory::OutOfMemory;
pub use reason::Reason;
pub use screen_name::{LONGEST_NAME, ScreenName};
pub use screen_set::{MOST_SCREENS, ScreenSet};
pub use shape::{Shape, Side};
pub use sink::{Sink, SinkAnswer, write_all};
pub use source::{Source, SourceAnswer};
pub use words32::Words32;
