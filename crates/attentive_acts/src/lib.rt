//! Which acts a loop makes that misses nothing: turns of one wait, the moment, accepts, reads, writes and
//! closings, each due where it stands.
//!
//! It owns the happenings that acts tell (`specs/Telling.antt`), what may still be read, written or
//! accepted (`specs/Flags.antt`), which act is due (`specs/Places.antt`, `specs/Judging.antt`), and laws
//! over such acts (`specs/Laws.antt`, `specs/ReachedActs.antt`, `specs/OpenTogether.antt`,
//! `specs/Offered.antt`). It has no program code.
#![tactic(auto)]

mod laws;

pub use laws::{
    all_taken_at_closings, all_taken_at_waits, all_taken_on_quit, attentive_is_reached,
    closed_on_quit, open_together, reads_the_living, taken_in_order, writes_what_is_queued,
};
