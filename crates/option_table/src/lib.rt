//! The options of a configuration: which there are, where each may stand, how its value is written,
//! which value stands where none is set, and its code on the wire.
//!
//! It owns the table (`specs/Table.antt`), the forms of values (`specs/Values.antt`), sets of
//! corners (`specs/Corners.antt`), options that are set (`specs/Settings.antt`) and what of them is
//! sent (`specs/Wire.antt`). It may know no section and no screen.
#![tactic(auto)]

mod corners;
mod laws;
mod printing;
mod rows;
mod settings;
mod values;
mod wire;

pub use corners::CornerWord;
pub use laws::{corners_go_by_the_last_word, printed_option_is_read};
pub use printing::{put_number, put_option_lines};
pub use rows::{OPTIONS, OptionName, Row, Scope, ValueForm};
pub use settings::Settings;
pub use wire::put_wire_words;
