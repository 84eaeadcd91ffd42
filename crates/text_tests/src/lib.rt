//! Tests of the crates that read and print texts: lines, options, hotkeys, configurations, scripts and
//! traces, and the texts that a number makes. They stand on what those crates promise alone.
#![tactic(auto)]

#[cfg(test)]
mod configurations;
#[cfg(test)]
mod hotkeys;
#[cfg(test)]
mod lines;
#[cfg(test)]
mod made_texts;
#[cfg(test)]
mod options;
#[cfg(test)]
mod printed_configurations;
#[cfg(test)]
mod refused_configurations;
#[cfg(test)]
mod refused_hotkeys;
#[cfg(test)]
mod rules;
#[cfg(test)]
mod scripts;
