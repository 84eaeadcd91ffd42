//! What the script of a server holds down: the keys with their ids, the modifiers and toggles, the
//! buttons of the mouse, and which hotkey's rule took which of them.
//!
//! It owns the tables of what is down (`specs/Keeping.antt`) and what each event makes of it
//! (`specs/Inputs.antt`). It may know no screen and no connection: which rule takes a key or a
//! button is told to it. No call allocates.
#![tactic(auto)]

mod laws;
mod pressed;

pub use laws::events_are_kept;
pub use pressed::Pressed;
