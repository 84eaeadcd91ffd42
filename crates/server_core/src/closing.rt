//! The closing of connections.

ghost use Rattle.std.specs.Prelude.{◌≡◌, OnOk};
ghost use Rattle.server_core.specs.Serving.{ClosesDeparting, ClosesServing};

use crate::server::ServerCore;
use share_base::OutOfMemory;

impl ServerCore {
    /// Removes an open connection, and logs how many bytes it took and how many were ever queued
    /// for it. Where it is the active one, no further step but a closing is defined.
    pub(crate) fn close(&mut self, serial: u64) -> Result<(), OutOfMemory>
        ensures departs { OnOk result (ClosesDeparting serial self.old self.new) }
        ensures serves { OnOk result (ClosesServing serial self.old self.new) }
        ensures still { self.new.is_broken ≡ self.old.is_broken }
    {
        let Some(connection) = self.table.get(serial) else {
            return Ok(());
        };
        let taken = connection.queue().taken();
        let queued = connection.queue().total();
        self.table.remove(serial);
        self.log.closed(serial, taken, queued)?;
        Ok(())
    }
}
