//! The texts of a run that a number makes: a configuration, a script of 2,000 events that are drawn
//! from the number, and a trace in which three clients join.
//!
//! It owns the draws (`specs/Draws.antt`), the events that they make (`specs/Events.antt`), the
//! lines of these (`specs/Lines.antt`), and the three texts (`specs/Texts.antt`). It may know how
//! lines are spelled: nothing of what reads them or runs them.
#![tactic(auto)]

mod down;
mod draws;
mod event;
mod lines;
mod texts;

pub use texts::{Texts, made};
