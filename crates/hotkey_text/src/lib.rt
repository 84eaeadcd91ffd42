//! The text of hotkeys: how a line of one is read, and how it is printed again.
//!
//! A line is read in two steps. Its form comes first, and where the form can't go on the whole line
//! is refused. Then the words of its arguments are judged from left to right. Each refusal says how
//! many bytes of the line were left where it stands.
//!
//! It owns the form of the line (`specs/Shapes.antt`), the words of actions (`specs/Names.antt`),
//! keys (`specs/Keys.antt`), modifiers and what stands after them (`specs/Chords.antt`), arguments
//! (`specs/Arguments.antt`), the printed form (`specs/Printed.antt`) and what is read of it again
//! (`specs/RoundTrip.antt`). The same lines and arguments in words, gaps and signs, without an
//! order of steps, are `specs/Spelling.antt` and `specs/SpellingWords.antt`; all faults of a line's
//! words are `specs/FaultLists.antt`. It may know no other line of a configuration, and no screen:
//! it hands a screen's word on.
#![tactic(auto)]

mod arguments;
mod chords;
mod fault_laws;
mod faults;
mod forms;
mod keys;
mod laws;
mod lists;
mod lock_modes;
mod meaning;
mod mod_reading;
mod names;
mod printing;
mod shapes;
mod spelling_laws;

pub use arguments::{ActionWords, ScreenWord};
pub use fault_laws::{words_are_refused_for_their_first_fault, words_faults_stand_from_the_left};
pub use faults::{HotkeyFault, HotkeyKind};
pub use forms::ActionForm;
pub use laws::printed_hotkeys_are_read;
pub use lists::ActionList;
pub use meaning::{action_words, trigger};
pub use names::{Deed, TriggerKind};
pub use printing::{between, put_action, put_trigger};
pub use shapes::{HotkeyForm, hotkey, is_hotkey};
pub use spelling_laws::{
    actions_are_spelled, hotkeys_are_spelled, hotkeys_begin_with_their_word,
    hotkeys_stop_where_they_cannot_go_on, triggers_are_spelled,
};
