//! Clipboards in parts: cutting one into frames, putting its parts together again, and who owns
//! which clipboard.
//!
//! It owns what a whole clipboard is among the parts that came (`specs/Wholes.antt`), how one is
//! cut (`specs/Sending.antt`), the rules of owners, sequences and dirty screens
//! (`specs/Clips.antt`, `specs/Rules.antt`), and where known bytes come from
//! (`specs/Origins.antt`). It may know messages and their frames, but neither connections nor what
//! a screen does with a clipboard.
#![tactic(auto)]

mod assembly;
mod book;
mod kept;
mod laws;
mod run;
mod sending;
mod size;
mod took;

pub use assembly::Assembly;
pub use book::ClipBook;
pub use laws::{
    chunks_are_full, known_were_brought, other_parts_pass, whole_where_found, wholes_grow,
};
pub use sending::{CHUNK_LEN, frames_of};
pub use took::{Cause, Took};
