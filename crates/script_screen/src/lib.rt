//! Scripts and traces: texts that say line by line what a user does, and what the outside does.
//!
//! It owns the grammar of their lines (`specs/Grammar.antt`), a row for each form
//! (`specs/Forms.antt`), and what the lines of a text say together (`specs/Scripts.antt`,
//! `specs/ClientScripts.antt`, `specs/Traces.antt`). It may know the names of screens: nothing else
//! of a configuration, and nothing of what runs a script or a trace.
#![tactic(auto)]

mod arguments;
mod client_reading;
mod client_script;
mod drafts;
mod forms;
mod held;
mod items;
mod kinds;
mod laws;
mod limits;
mod rows;
mod script;
mod script_reading;
mod trace;
mod trace_reading;
mod track;
mod words;

pub use client_reading::read_client_script;
pub use client_script::{ClientLine, ClientScript};
pub use generated_texts::{Texts, made};
pub use kinds::{TextFault, TextKind};
pub use laws::each_text_has_one_verdict;
pub use limits::{MAX_BUTTON, MAX_COPY, MAX_LINES, MAX_SIZE, MAX_SLEEP};
pub use script::{Primary, Script, ScriptLine};
pub use script_reading::read_script;
pub use trace::{Trace, TraceLine};
pub use trace_reading::read_trace;
