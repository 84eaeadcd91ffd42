//! A configuration: screens with their own options, aliases and links, the options for all screens,
//! and the hotkeys.
//!
//! It owns what a configuration holds (`specs/Configurations.antt`), what every configuration keeps
//! (`specs/Sound.antt`), what it answers (`specs/Globals.antt`), its value (`specs/Values.antt`)
//! and the keys of actions (`specs/ActionKeys.antt`). It may know no text of a configuration, and
//! no machine that goes by it.
#![tactic(auto)]

mod action_keys;
mod by_name;
mod config;
mod globals;
mod hotkeys;
mod laws;
mod screens;

pub use action_keys::MOST_ACTION_KEYS;
pub use config::{Config, MOST_ALIASES};
pub use globals::{Globals, Protocol};
pub use hotkeys::{HotkeysFault, MOST_ACTIONS};
pub use laws::{action_keys_are_numbered, each_alias_is_in_the_value, each_link_is_in_the_value};
pub use screens::{Alias, Screen};
