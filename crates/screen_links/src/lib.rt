//! Links between the sides of screens, and the walk over them from a place on a side to the next
//! screen that is there.
//!
//! It owns links and what keeps them apart (`specs/Ranges.antt`, `specs/Adding.antt`,
//! `specs/Apart.antt`), walks (`specs/Walks.antt`) and places on a side (`specs/Places.antt`). It
//! may know no configuration text and no machine: screens are numbers here.
#![tactic(auto)]

mod laws;
mod link;
mod links;
mod places;
mod range;
mod walk;

pub use laws::{landing_is_across, one_landing, pixel_again};
pub use link::{Landing, Link};
pub use links::{LinkFault, Links, MOST_LINKS};
pub use places::{pixel, place};
pub use range::{Range, SIDE_END};
