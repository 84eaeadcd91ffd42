//! Telling a target a message.

ghost use Rattle.std.specs.Prelude.{◌≤◌, length, OnOk};
ghost use Rattle.message_codec.specs.Spelling.{body_of};
ghost use Rattle.wire_frames.specs.declared.limits.TheConstants.{BODY_LIMIT};
ghost use Rattle.machine.specs.Targets.{Origin, Primary, Client};
ghost use Rattle.machine.specs.Routing.{route};
ghost use Rattle.server_core.specs.Targets.{meant};
ghost use Rattle.server_core.specs.Leading.{LeadsAt};

use crate::server::ServerCore;
use crate::target::Target;
use message_codec::Msg;
use share_base::OutOfMemory;

impl ServerCore {
    /// Tells a target that is there a message, and logs what the primary prints or the frame that
    /// is queued.
    pub(crate) fn route(&mut self, target: Target, message: &Msg) -> Result<(), OutOfMemory>
        requires { length (body_of message.now) ≤ BODY_LIMIT }
        ensures { OnOk result
            ((origin : Origin) → LeadsAt (meant target) self.old self.new
            (route origin (meant target) message.now)) }
    {
        match target {
            Target::Primary => self.tell_primary(message),
            Target::Client(serial) => self.send(serial, message),
        }
    }

    fn tell_primary(&mut self, message: &Msg) -> Result<(), OutOfMemory>
        ensures { OnOk result
            ((origin : Origin) → LeadsAt Primary self.old self.new
            (route origin Primary message.now)) }
    {
        self.primary.told(message, &mut self.log)?;
        Ok(())
    }

    fn send(&mut self, serial: u64, message: &Msg) -> Result<(), OutOfMemory>
        requires { length (body_of message.now) ≤ BODY_LIMIT }
        ensures { OnOk result
            ((origin : Origin) → LeadsAt (Client serial) self.old self.new
            (route origin (Client serial) message.now)) }
    {
        self.table.send(serial, message)?;
        if self.table.is_slow(serial) {
            return Ok(());
        }
        self.log.sent(serial, message)?;
        Ok(())
    }
}
