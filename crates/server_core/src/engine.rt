//! The server as the loop drives it.

ghost use Rattle.std.specs.Prelude.{◌≡◌, ◌≤◌, false, true, length, OnOk, OnErr};
ghost use Rattle.machine.specs.Happenings.{Took, Closed};
ghost use Rattle.machine.specs.Readings as machine;
ghost use Rattle.server_engine.specs.Engines.{meaning, Steps, ClosesParting, Reads, Offers, Counts, Logs, ClearsLog};
ghost use Rattle.server_core.specs.Driving.{serves_in, departs_in};
ghost use Rattle.server_core.specs.Taking.{queued_in};
ghost use Rattle.server_core.specs.Promises.{GoesOnRunning, ClosesRunning, ClosesAtEnd, ClearsRunning, ClearsAtEnd};
ghost use Rattle.server_core.specs.Departing.{departs_too};

use crate::server::ServerCore;
use server_engine::{Engine, Happening};
use share_base::OutOfMemory;

impl Engine for ServerCore {
    ghost serves = { serves_in };

    ghost departs = { departs_in };

    ghost offered = { queued_in };

    ghost departing = { departs_too };

    /// Does what the machine does at that happening. A serial that joins is greater than all
    /// before, and every other one is that of an open connection. On `OutOfMemory`, which also
    /// comes where one connection would have given 2^63 bytes, the server is in no known state, and
    /// every later step answers `OutOfMemory`.
    fn step(&mut self, happening: Happening<'_>) -> Result<(), OutOfMemory>
        ensures steps { OnOk result (Steps serves_in self.old self.new (meaning happening.entry)) }
        ensures laws { OnOk result (GoesOnRunning (meaning happening.entry) self.old self.new) }
        ensures whole { OnOk result (self.old.is_broken ≡ false) }
        ensures still { OnOk result (self.new.is_broken ≡ false) }
        ensures broken { OnErr result (self.new.is_broken ≡ true) }
    {
        if self.is_broken {
            return Err(OutOfMemory);
        }
        let answer = self.happen(happening);
        // Set from the answer, so that no `Ok` leaves a broken server.
        self.is_broken = answer.is_err();
        answer
    }

    /// Notes that a connection took so many of the bytes that it was offered.
    fn taken(&mut self, serial: u64, count: usize)
        requires { count ≤ length (queued_in self.old serial) }
        ensures steps { Steps serves_in self.old self.new (Took serial count) }
        ensures laws { GoesOnRunning (Took serial count) self.old self.new }
        ensures still { self.new.is_broken ≡ self.old.is_broken }
    {
        self.take(serial, count);
    }

    /// Closes a connection: the one that is to be closed now, or any one as a run ends. On
    /// `OutOfMemory` the server is in no known state.
    fn closed(&mut self, serial: u64) -> Result<(), OutOfMemory>
        ensures serves { OnOk result (ClosesParting serves_in self.old self.new serial) }
        ensures departs { OnOk result (Steps departs_in self.old self.new (Closed serial)) }
        ensures laws { OnOk result (ClosesRunning serial self.old self.new) }
        ensures laws_at_end { OnOk result (ClosesAtEnd serial self.old self.new) }
        ensures still { OnOk result (self.new.is_broken ≡ self.old.is_broken) }
        ensures broken { OnErr result (self.new.is_broken ≡ true) }
    {
        match self.close(serial) {
            Ok(()) => Ok(()),
            Err(OutOfMemory) => {
                self.is_broken = true;
                Err(OutOfMemory)
            }
        }
    }

    /// Returns the bytes that a connection is to take next, first to last: all that are queued and
    /// untaken, and none if it takes no more.
    fn queued(&self, serial: u64) -> &[u8]
        ensures value { result.now ≡ queued_in self.now serial }
        ensures offers { Offers serves_in self.now serial result.now }
    {
        ServerCore::queued(self, serial)
    }

    /// Returns how many bytes were queued for an open connection in all.
    fn total(&self, serial: u64) -> u64
        ensures { Counts serves_in self.now serial result }
    {
        ServerCore::total(self, serial)
    }

    /// Tells whether a connection is open and isn't parting: only then is it read.
    fn reads(&self, serial: u64) -> bool
        ensures { Reads serves_in self.now result (λ s. machine.reads s serial) }
    {
        self.lives(serial)
    }

    /// Tells whether connections are to be accepted: until the script quits.
    fn accepts(&self) -> bool
        ensures { Reads serves_in self.now result machine.accepts }
    {
        !self.has_quit
    }

    /// Returns the least serial of a connection that is to be closed now: it is parting, and
    /// nothing is to be taken any more, or its time is over.
    fn closing(&self) -> Option<u64>
        ensures { Reads serves_in self.now result machine.closing }
    {
        self.first_closing()
    }

    /// Tells whether the script has quit and no connection is left.
    fn over(&self) -> bool
        ensures { Reads serves_in self.now result machine.is_over }
    {
        self.is_over()
    }

    /// Returns the moment at which something is due, in milliseconds; 18,446,744,073,709,551,615
    /// for never.
    fn due(&self) -> u64
        ensures { Reads serves_in self.now result machine.due }
    {
        self.least_due()
    }

    /// Returns the server's moment, in milliseconds: the latest that it was told, at most
    /// `LAST_MOMENT`.
    fn at(&self) -> u64
        ensures { Reads serves_in self.now result (λ s. s.at) }
    {
        self.at.moment()
    }

    /// Returns the text of the log since it was last cleared.
    fn log(&self) -> &[u8]
        ensures { Logs departs_in self.now result.now }
    {
        self.log.as_slice()
    }

    /// Clears the log. Its memory is kept.
    fn clear_log(&mut self)
        ensures serves { ClearsLog serves_in self.old self.new }
        ensures departs { ClearsLog departs_in self.old self.new }
        ensures laws { ClearsRunning self.old self.new }
        ensures laws_at_end { ClearsAtEnd self.old self.new }
        ensures still { self.new.is_broken ≡ self.old.is_broken }
    {
        self.log.clear();
    }
}
