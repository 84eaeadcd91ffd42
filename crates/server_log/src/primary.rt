//! The primary screen.

ghost use Rattle.std.specs.Prelude.{◌≡◌, [], OnOk, OnErr};
ghost use Rattle.server_log.specs.Telling.{StandsFor, Tells};

use crate::local_lines::{LOCAL_GROWTH, put_local_lines};
use crate::log::Log;
use held_inputs::{Injector, LONGEST_ANSWER};
use message_codec::Msg;
use modifier_map::ModMap;
use share_base::OutOfMemory;
use std::alloc::Global;

/// The server's own screen: an injector that leaves modifiers as they are, and whose lines are
/// logged.
#[derive(Drop)]
pub struct Primary {
    injector: Injector,
    lines: Vec<u8>,
}

impl Primary {
    /// Creates a screen that was told nothing. It allocates nothing yet.
    pub fn new(alloc: Global) -> Primary
        ensures { StandsFor result [] }
    {
        Primary {
            injector: Injector::new(ModMap::new()),
            lines: Vec::new(alloc),
        }
    }

    /// Applies a message and logs the lines that it prints, or that a clipboard was grabbed. On
    /// `OutOfMemory` it is not applied, and the log is unchanged.
    pub fn told(&mut self, msg: &Msg, log: &mut Log) -> Result<(), OutOfMemory>
        ensures ok { OnOk result (Tells self.old self.new msg.now log.old log.new) }
        ensures err { OnErr result (self.new.injector ≡ self.old.injector) }
        ensures log_err { OnErr result (log.new ≡ log.old) }
    {
        if let Msg::Grab { clip, seq: _ } = msg {
            return log.local_grab(*clip);
        }
        self.lines.clear();
        self.lines.reserve(LONGEST_ANSWER)?;
        log.text.reserve(LOCAL_GROWTH * LONGEST_ANSWER)?;
        self.injector.apply_to(msg, &mut self.lines);
        put_local_lines(&mut log.text, self.lines.as_slice());
        Ok(())
    }
}
