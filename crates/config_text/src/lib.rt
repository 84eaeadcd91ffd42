//! The text of a configuration: what it spells, or where and why it is refused; and what it spells,
//! printed again.
//!
//! It owns what a configuration holds (`specs/Configurations.antt`), the forms of lines
//! (`specs/Shapes.antt`), their faults by class (`specs/Judging.antt`), sections
//! (`specs/Sections.antt`) and which texts are accepted (`specs/Accepting.antt`). It may know
//! nothing of files, of connections and of what a server does with a configuration.
#![tactic(auto)]

mod drafts;
mod faults;
mod hotkey_judging;
mod hotkey_printing;
mod judging;
mod laws;
mod link_table;
mod parsing;
mod printing;
mod sections;
mod shapes;
mod verdict_laws;
mod words;

pub use faults::{ConfigFault, ConfigKind, ConfigRefusal};
pub use laws::{
    aliases_are_spelled, faults_stand_in_order, headers_are_spelled, hotkeys_mean_what_they_spell,
    lines_stop_where_they_cannot_go_on, links_are_spelled, links_stop_where_they_cannot_go_on,
    refused_for_the_first_fault, sections_are_spelled, settings_are_spelled,
};
pub use parsing::parse;
pub use printing::print;
pub use screen_config::{Config, Globals, Protocol};
pub use verdict_laws::{
    each_text_has_one_verdict, lines_need_a_header, normal_form_is_of_the_value,
};
