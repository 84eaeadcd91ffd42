//! Partings, and the loss of a screen where its connection parts.

ghost use Rattle.std.specs.Prelude.{OnOk};
ghost use Rattle.machine.specs.Partings as partings;
ghost use Rattle.machine.specs.Targets.{Client, same_target};
ghost use Rattle.machine.specs.Combining.{when};
ghost use Rattle.machine.specs.Switching as switching;
ghost use Rattle.machine.specs.Clipboards as clipboards;
ghost use Rattle.server_core.specs.Leading.{Leads, LeadsLiving};

use crate::server::ServerCore;
use crate::target::Target;
use hello_states::PartCause;
use share_base::{OutOfMemory, ScreenNo};

impl ServerCore {
    /// Queues the message that the cause has for a connection that lives.
    pub(crate) fn say_farewell(&mut self, cause: PartCause, serial: u64) -> Result<(), OutOfMemory>
        ensures { OnOk result (LeadsLiving serial self.old self.new
            (partings.say_farewell cause serial)) }
    {
        let Some(message) = cause.farewell() else {
            return Ok(());
        };
        self.route(Target::Client(serial), &message)?;
        Ok(())
    }

    /// Parts a connection that lives, and logs it.
    pub(crate) fn mark(&mut self, cause: PartCause, serial: u64) -> Result<(), OutOfMemory>
        ensures { OnOk result (LeadsLiving serial self.old self.new
            (partings.marked cause serial)) }
    {
        let now = self.at.moment();
        self.table.part(serial, cause, now);
        self.log_part(serial, cause)?;
        Ok(())
    }

    /// Gives the primary the clipboards of a screen that left.
    pub(crate) fn inherit_clips(&mut self, screen: ScreenNo)
        ensures { Leads self.old self.new (clipboards.clips_left screen.0) }
    {
        self.clips.left(screen);
    }

    /// Parts a connection that isn't parting yet, for that cause: its farewell, if any, is queued,
    /// and what it was joined as is lost.
    pub(crate) fn part(&mut self, cause: PartCause, serial: u64) -> Result<(), OutOfMemory>
        ensures { OnOk result (LeadsLiving serial self.old self.new (partings.part cause serial)) }
    {
        let joined = self.screen_joined(serial);
        self.say_farewell(cause, serial)?;
        self.mark(cause, serial)?;
        let Some(screen) = joined else {
            return Ok(());
        };
        self.lose(serial, screen)?;
        Ok(())
    }

    /// Takes a screen from the connection of that serial: where it was active, the primary is, and
    /// the primary owns the screen's clipboards.
    pub(crate) fn lose(&mut self, serial: u64, screen: ScreenNo) -> Result<(), OutOfMemory>
        ensures { OnOk result (Leads self.old self.new (partings.lose serial screen.0)) }
    {
        self.leave_lost(serial)?;
        self.inherit_clips(screen);
        Ok(())
    }

    /// Falls back to the primary where the connection of that serial is active.
    pub(crate) fn leave_lost(&mut self, serial: u64) -> Result<(), OutOfMemory>
        ensures { OnOk result (Leads self.old self.new
            (λ s. when (same_target s.active (Client serial)) switching.fall_back s)) }
    {
        if self.is_active(serial) {
            self.fall_back()?;
            return Ok(());
        }
        Ok(())
    }
}
