//! The law that the three texts that a number makes are accepted by their readers.
//!
//! It owns what these texts say (`specs/Spoken.antt`), and what it means that they are accepted
//! (`specs/Accepted.antt`). It has no program code.
#![tactic(auto)]

mod laws;

pub use laws::made_texts_are_accepted;
