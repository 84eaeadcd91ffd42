//! Connections that are too slow to take what is told them.

ghost use Rattle.std.specs.Prelude.{◌≡◌, false, OnOk, IfOk};
ghost use Rattle.machine.specs.Slow as slow;
ghost use Rattle.server_core.specs.Leading.{Leads};
ghost use Rattle.server_core.specs.SlowOnes.{NoneIsSlow};

use crate::server::ServerCore;
use hello_states::PartCause;
use share_base::OutOfMemory;

impl ServerCore {
    /// Parts the connections of which a frame was left out, one after another, until none is left.
    pub(crate) fn part_slow(&mut self) -> Result<(), OutOfMemory>
        ensures { OnOk result (Leads self.old self.new slow.part_slow) }
    {
        let most = self.table.as_slice().len();
        for turn in 0..most {
            let _ = turn;
            let more = self.part_first_slow()?;
            if !more {
                return Ok(());
            }
        }
        Ok(())
    }

    /// Parts the connection of least serial of which a frame was left out, and tells whether there
    /// was one.
    pub(crate) fn part_first_slow(&mut self) -> Result<bool, OutOfMemory>
        ensures leads { OnOk result (Leads self.old self.new slow.part_first_slow) }
        ensures none { IfOk result (λ more. more ≡ false → NoneIsSlow self.old) }
    {
        let Some(connection) = self.table.first_slow() else {
            return Ok(false);
        };
        let serial = connection.serial();
        self.part(PartCause::Slow, serial)?;
        Ok(true)
    }
}
