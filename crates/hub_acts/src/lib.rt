//! What the loops are driven by: the hub, which holds many connections, and the link, which holds
//! one; and the acts that are made on them.
//!
//! It owns the acts (`specs/Acts.antt`, `specs/LinkActs.antt`) and what a call does to what a hub
//! or a link tells (`specs/Hubs.antt`, `specs/Links.antt`). It may know no frame, no message and no
//! machine.
#![tactic(auto)]

mod act;
mod answers;
mod hub;
mod link;
mod marks;

pub use act::Act;
pub use answers::{AcceptAnswer, CallFault, LinkWaited, ReadAnswer, Waited, WriteAnswer};
pub use hub::Hub;
pub use link::Link;
pub use marks::{MOST_MARKS, Mark, Marks, ReadyList};
