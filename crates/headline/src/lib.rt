//! The headline: what every run of the server's loop keeps, as one record and its law.
//!
//! It owns what holds at each moment of a run (`specs/Moments.antt`), what connections take of what
//! is queued for them (`specs/Taking.antt`), where each input event goes (`specs/OneTarget.antt`),
//! and the record of all that with its law (`specs/Sharing.antt`). It may know the machine, its
//! reached states and attentive acts; it knows no loop, no hub and no text. It has no program code.
#![tactic(auto)]

mod laws;

pub use laws::shared_by_attention;
