//! Lines of the log that are no message.

ghost use Rattle.std.specs.Prelude.{[], ◌∷◌, OnOk};
ghost use Rattle.held_inputs.specs.declared.line.Line.TheVariants as line;
ghost use Rattle.machine.specs.States.{Open, Part, Local};
ghost use Rattle.machine.specs.Routing.{logs};
ghost use Rattle.server_core.specs.Leading.{Leads};

use crate::server::ServerCore;
use hello_states::PartCause;
use share_base::{ClipId, OutOfMemory};

impl ServerCore {
    /// Logs that a connection was accepted. On `OutOfMemory` the log is
    /// unchanged.
    pub(crate) fn log_open(&mut self, serial: u64) -> Result<(), OutOfMemory>
        ensures { OnOk result (Leads self.old self.new (logs (Open serial ∷ []))) }
    {
        self.log.opened(serial)?;
        Ok(())
    }

    /// Logs that a connection parted, and why. On `OutOfMemory` the log is
    /// unchanged.
    pub(crate) fn log_part(&mut self, serial: u64, cause: PartCause) -> Result<(), OutOfMemory>
        ensures { OnOk result (Leads self.old self.new (logs (Part serial cause ∷ []))) }
    {
        self.log.parted(serial, cause)?;
        Ok(())
    }

    /// Logs the contents that the primary is given for a clipboard. On `OutOfMemory` the log is
    /// unchanged.
    pub(crate) fn log_clip(&mut self, clip: ClipId, bytes: &[u8]) -> Result<(), OutOfMemory>
        ensures { OnOk result
            (Leads self.old self.new (logs (Local (line.Clip clip bytes.now) ∷ []))) }
    {
        self.log.local_clip(clip, bytes)?;
        Ok(())
    }
}
