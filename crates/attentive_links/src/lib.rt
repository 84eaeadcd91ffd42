//! Which acts the client's loop makes on its link that misses nothing: turns of one wait, the
//! moment, a read and a write, each due where it stands.
//!
//! It owns the happenings that acts tell (`specs/Telling.antt`), what may still be read or written
//! (`specs/Flags.antt`), which act is due (`specs/Places.antt`, `specs/Judging.antt`), how far a
//! client came where memory ran out (`specs/InPart.antt`), and laws over such acts
//! (`specs/Laws.antt`). It has no program code. `attentive_acts` has the same for the server's
//! loop, over a hub.
#![tactic(auto)]

mod laws;

pub use laws::{lead_by_happenings, none_after_its_end, taken_in_order};
