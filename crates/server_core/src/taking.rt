//! The bytes that connections take.

ghost use Rattle.std.specs.Prelude.{◌≡◌, ◌+◌, ◌≤◌, ◌<◌, ◌^◌, length};
ghost use Rattle.machine.specs.Screens.{change};
ghost use Rattle.machine.specs.Steps as steps;
ghost use Rattle.server_core.specs.Leading.{Leads, Reads};
ghost use Rattle.server_core.specs.Taking.{queued_in, taken_in, untaken_by, queued_for};

use crate::server::ServerCore;

impl ServerCore {
    /// Returns the bytes that a connection may still take, from the front of its queue: empty where
    /// all were taken or the rest was dropped, and where no such connection is open.
    pub fn queued(&self, serial: u64) -> &[u8]
        ensures kept { result.now ≡ queued_in self.now serial }
        ensures untaken { Reads self.now result.now (λ s. untaken_by s serial) }
    {
        match self.table.get(serial) {
            Some(connection) => connection.queue().as_slice(),
            None => &[],
        }
    }

    /// Notes that a connection took the first `count` of those bytes. Fewer than 2^63 are taken in
    /// all.
    pub(crate) fn takes(&mut self, serial: u64, count: usize)
        requires there { count ≤ length (queued_in self.old serial) }
        requires fits { taken_in self.old serial + count < 2 ^ 63 }
        ensures leads { Leads self.old self.new (change serial (steps.takes count)) }
        ensures still { self.new.is_broken ≡ self.old.is_broken }
    {
        self.table.take(serial, count);
    }

    /// Returns how many bytes were ever queued for an open connection; 0 for one that isn't open.
    pub fn total(&self, serial: u64) -> u64
        ensures { Reads self.now result (λ s. queued_for s serial) }
    {
        match self.table.get(serial) {
            Some(connection) => connection.queue().total(),
            None => 0,
        }
    }
}
