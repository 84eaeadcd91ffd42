//! Hotkeys as a machine knows them: what sets one off, what it does, and the names of keys.
//!
//! It owns actions and lists of them, triggers and the rule that one of them finds
//! (`specs/Triggers.antt`), the list of rules (`specs/Rules.antt`) and the table of named keys
//! (`specs/KeyNames.antt`). It may know keys by their numbers and names, and screens and sides by
//! their numbers and words: no text of a configuration, and no machine that carries an action out.
#![tactic(auto)]

mod action;
mod actions;
mod key_names;
mod laws;
mod rule;
mod rules;
mod trigger;

pub use action::{Action, LockMode};
pub use actions::Actions;
pub use key_names::{key_of_name, name_of_key};
pub use laws::{first_rule, names_given_back, row_found, rows_apart};
pub use rule::Rule;
pub use rules::{MOST_RULES, Rules, RulesFault};
pub use trigger::Trigger;
