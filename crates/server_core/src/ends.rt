//! Ends of connections: the stream of a client ended, a read or a write failed, or a bad frame
//! came.

ghost use Rattle.std.specs.Prelude.{◌≡◌, OnOk};
ghost use Rattle.message_codec.specs.Inboxes.{Inbox};
ghost use Rattle.machine.specs.Combining.{choose};
ghost use Rattle.machine.specs.Screens.{lives, change};
ghost use Rattle.machine.specs.Partings as partings;
ghost use Rattle.machine.specs.Steps as steps;
ghost use Rattle.server_core.specs.Leading.{Leads};
ghost use Rattle.server_core.specs.Receiving.{bad_in};

use crate::server::ServerCore;
use hello_states::PartCause;
use message_reader::BadFrame;
use share_base::OutOfMemory;

impl ServerCore {
    /// Parts a connection for that cause, and then those that became too slow by it. One that is
    /// parting already only loses the bytes that it didn't take.
    pub(crate) fn breaks(&mut self, cause: PartCause, serial: u64) -> Result<(), OutOfMemory>
        ensures { OnOk result (Leads self.old self.new (steps.breaks cause serial)) }
    {
        self.part_or_drop(cause, serial)?;
        self.part_slow()?;
        Ok(())
    }

    /// Parts a connection for that cause; one that is parting already loses the bytes that it
    /// didn't take.
    pub(crate) fn part_or_drop(&mut self, cause: PartCause, serial: u64) -> Result<(), OutOfMemory>
        ensures { OnOk result (Leads self.old self.new (λ s. choose (lives s serial)
            (partings.part cause serial) (change serial steps.drops) s)) }
    {
        if self.lives(serial) {
            self.part(cause, serial)?;
            return Ok(());
        }
        self.table.drop_bytes(serial);
        Ok(())
    }

    /// Parts a connection of which a bad frame came, where it isn't parting by then.
    pub(crate) fn judge(&mut self, serial: u64, bad: Option<BadFrame>) -> Result<(), OutOfMemory>
        ensures { OnOk result ((box : Inbox) → bad_in box ≡ bad
            → Leads self.old self.new (steps.judge serial box)) }
    {
        let Some(frame) = bad else {
            return Ok(());
        };
        if !self.lives(serial) {
            return Ok(());
        }
        let cause = PartCause::Bad {
            place: frame.place,
            reason: frame.reason,
        };
        self.part(cause, serial)?;
        self.part_slow()?;
        Ok(())
    }
}
