//! The system's streams and files as sources, sinks and files that the commands read and write.
//!
//! It owns what an adapter answers where the reader or writer below it says which bytes it holds
//! (`specs/Adapters.antt`). It knows no command and no message.
#![tactic(auto)]

mod real;

pub use real::{StdFiles, StdSink, StdSource};
