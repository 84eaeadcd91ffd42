//! The client over bytes and moments: what its screen prints of a server's stream, in whatever
//! pieces it comes, what it sends, how it ends, and what it releases then.
//!
//! It owns what a client is after a list of happenings (`specs/Clients.antt`,
//! `specs/Happenings.antt`), which screen it has after messages (`specs/Hearing.antt`), how a
//! message or a bad frame ends it (`specs/Ends.antt`), and what a core keeps of all that
//! (`specs/Kept.antt`). It may know messages, lines and conversations, but not where bytes come
//! from or where they and the lines go.
#![tactic(auto)]

mod client;
mod client_end;
mod clipboards;
mod hearer;
mod hearing;
mod laws;
mod options;
mod printer;
mod stop;

pub use client::ClientCore;
pub use client_end::{ClientEnd, LostCause, Which};
pub use clipboards::CLIP_LIMIT;
pub use laws::wholes_are_told;
