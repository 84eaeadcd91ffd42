//! What the loop of the server asks of a server: an engine over happenings.
//!
//! It owns the trait and the happenings that it is told, and what its calls do to the states of the
//! machine that it serves (`specs/Engines.antt`). It knows no hub, no sink and no frame, and not
//! how an engine works.
#![tactic(auto)]

mod engine;
mod happening;

pub use engine::Engine;
pub use happening::Happening;
