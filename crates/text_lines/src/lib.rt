//! Texts by lines: what of a line counts, and how its words, signs and numbers are read.
//!
//! A reader goes over a line from left to right. Each part of a form takes its bytes and the blanks
//! after them, and gives what is left; where the line can't go on, it answers how many bytes were
//! left there. So the place of a fault is known without a count that is carried along.
//!
//! It owns lines and comments (`specs/Lines.antt`), kinds of bytes (`specs/Bytes.antt`), the
//! readers (`specs/Reading.antt`) and numbers (`specs/Numbers.antt`). It may know no section, no
//! option and no command of any text.
#![tactic(auto)]

mod bytes;
mod decimal_text;
mod laws;
mod lines;
mod word_reading;

pub use bytes::{WordKind, unblanked, word_len};
pub use decimal_text::{decimal, decimal_u64};
pub use laws::{lines_are_spelled, numbers_are_spelled};
pub use lines::{TextLine, cut_line, text_line};
pub use word_reading::{Word, begins, end, literal, maybe_sign, number, run, sign, whole_word};
