//! The handshake of one connection as a server sees it, phase by phase, each a type of its own: a
//! `Greeting` that is to answer, an `Asked` screen that is to tell its shape, a `Joined` screen,
//! and a `Parting`, which takes no input. A call that leads on moves the value, so a call in the
//! wrong phase doesn't compile.
//!
//! It owns the phases (`specs/Phases.antt`), the causes of parting (`specs/Causes.antt`) and what
//! an answer to the greeting and a screen's information come to (`specs/Handshake.antt`). It may
//! know no stream, no queue and no other connection: the caller says which screens are used. No
//! call allocates.
#![tactic(auto)]

mod asked;
mod deadlines;
mod greeting;
mod info_fields;
mod joined;
mod part_cause;
mod parting;
mod version;

pub use asked::{Asked, Informed};
pub use deadlines::{CLOSING_TIME, HANDSHAKE_TIME};
pub use greeting::{Answered, Greeting, admitted_screen};
pub use info_fields::InfoFields;
pub use joined::Joined;
pub use part_cause::{CAUSE_LENGTH, PartCause};
pub use parting::Parting;
pub use version::{PROTOCOL_MAJOR, PROTOCOL_MINOR};
