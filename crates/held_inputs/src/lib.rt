//! What a screen holds down, and the lines that say what is injected there.
//!
//! It owns the lines and their text (`specs/Line.antt`), what is down after lines
//! (`specs/Down.antt`), what it is for them to leave nothing down (`specs/Balanced.antt`), and
//! which lines a screen prints for a message (`specs/Screen.antt`). It may know messages and the
//! map of modifiers, but not where messages come from or where lines go.
#![tactic(auto)]

mod held;
mod injector;
mod keys;
mod laws;
mod line;
mod printing;

pub use held::LONGEST_RELEASE;
pub use injector::{Injector, LONGEST_ANSWER};
pub use laws::{one_call_more, one_text, plain_lines, released};
pub use line::Line;
pub use printing::{LONGEST_LINE, put_line};
