//! The server over happenings: connections, their bytes and the clock in, frames and the log out.
//!
//! It owns what the server keeps, and which state of the machine that is (`specs/Standing.antt`).
//! Each of its rules is the machine's rule of the same name. It may know everything below it, but
//! no socket, and no time but the moment that it is told.
#![tactic(auto)]

mod accepting;
mod actions;
mod clipboards;
mod clock;
mod closing;
mod copying;
mod cursor;
mod ends;
mod engine;
mod events;
mod gate;
mod grabs;
mod hearing;
mod hello;
mod information;
mod inputs;
mod joined;
mod log_lines;
mod motion;
mod partings;
mod primary;
mod reading;
mod readings;
mod routes;
mod routing;
mod running;
mod screens;
mod server;
mod slow;
mod start;
mod stepping;
mod switching;
mod taking;
mod target;
mod timers;
mod ways;

pub use clock::Clock;
pub use cursor::Cursor;
pub use primary::{PrimaryShape, ServedScript};
pub use server::ServerCore;
pub use target::Target;
