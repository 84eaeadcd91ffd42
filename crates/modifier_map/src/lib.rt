//! Modifiers of keys: their translation for one screen, and which of them are held.
//!
//! It owns the table of modifiers (`specs/Table.antt`), what a map makes of a key and of a mask
//! (`specs/Map.antt`), and what presses and releases leave down (`specs/Presses.antt`). It may
//! know no message and no configuration. No call of it takes memory.
#![tactic(auto)]

mod class;
mod held_mods;
mod laws;
mod map;

pub use class::{CLASSES, ModClass, key_bit};
pub use held_mods::HeldMods;
pub use laws::mods_are_held;
pub use map::ModMap;
