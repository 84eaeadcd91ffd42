//! Messages, and the bodies of frames that spell them (protocol reference, message list).
//!
//! It owns the table of messages (`specs/Table.antt`), the rules of fields (`specs/Fields.antt`),
//! and what it is for a stream to be made of messages (`specs/Streams.antt`). It may know frames,
//! but not where bytes come from or what becomes of a message.
#![tactic(auto)]

mod clip_mark;
mod coding;
mod decoder;
mod drafts;
mod encoder;
mod faults;
mod fields;
mod laws;
mod messages;
mod reading;
mod rows;
mod show_line;

pub use clip_mark::ClipMark;
pub use decoder::decode;
pub use encoder::{body_len, encode};
pub use faults::{BadBody, DecodeFault};
pub use laws::{
    body_is_judged, each_has_a_verdict, inbox_has_the_verdict, one_message, one_refusal,
    one_verdict, refused_spells_none, spelled_is_decoded, spelled_or_refused,
};
pub use messages::{End, Msg};
pub use show_line::show;
