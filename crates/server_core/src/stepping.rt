//! What a happening leads to.

ghost use Rattle.std.specs.Prelude.{◌≡◌, ◌≤◌, ◌^◌, length, OnOk};
ghost use Rattle.machine.specs.Screens.{change};
ghost use Rattle.machine.specs.Steps as steps;
ghost use Rattle.server_engine.specs.Engines.{meaning, Steps};
ghost use Rattle.server_core.specs.Leading.{Leads};
ghost use Rattle.server_core.specs.Serving.{LeadsServing};
ghost use Rattle.server_core.specs.Receiving.{given_by};
ghost use Rattle.server_core.specs.Taking.{queued_in};
ghost use Rattle.server_core.specs.Driving.{serves_in};

use crate::server::ServerCore;
use crate::timers::Timer;
use hello_states::PartCause;
use server_engine::Happening;
use share_base::OutOfMemory;

/// Fewer bytes than these, 2^63, are given on a connection in all.
const GIVEN_LIMIT: u64 = 9_223_372_036_854_775_808;

impl ServerCore {
    // Does what the machine does at that happening.
    pub(crate) fn happen(&mut self, happening: Happening<'_>) -> Result<(), OutOfMemory>
        ensures { OnOk result (Steps serves_in self.old self.new (meaning happening.entry)) }
    {
        match happening {
            Happening::Joined(serial) => {
                self.accept(serial)?;
                Ok(())
            }
            Happening::Got { serial, piece } => {
                self.get(serial, piece)?;
                Ok(())
            }
            Happening::Ended(serial) => {
                self.breaks(PartCause::Ended, serial)?;
                Ok(())
            }
            Happening::Failed(serial) => {
                self.breaks(PartCause::Failed, serial)?;
                Ok(())
            }
            Happening::Moment(t) => {
                self.moment(t)?;
                Ok(())
            }
        }
    }

    // Hears the next piece of the bytes of a connection. `OutOfMemory` comes also where it would
    // have given 2^63 bytes.
    fn get(&mut self, serial: u64, piece: &[u8]) -> Result<(), OutOfMemory>
        ensures { OnOk result (LeadsServing self.old self.new (steps.got serial piece.now)) }
    {
        if self.given(serial) >= GIVEN_LIMIT - piece.len() as u64 {
            return Err(OutOfMemory);
        }
        self.got(serial, piece)?;
        Ok(())
    }

    // Returns how many bytes a connection gave that isn't parting.
    fn given(&self, serial: u64) -> u64
        ensures { result ≡ given_by self.now serial }
    {
        match self.table.get(serial) {
            Some(connection) => {
                if connection.is_live() {
                    return connection.given();
                }
                0
            }
            None => 0,
        }
    }

    // Notes that a connection took so many of the bytes that it may take.
    pub(crate) fn take(&mut self, serial: u64, count: usize)
        requires { count ≤ length (queued_in self.old serial) }
        ensures leads { Leads self.old self.new (change serial (steps.takes count)) }
        ensures still { self.new.is_broken ≡ self.old.is_broken }
    {
        self.table.assure_room(serial);
        self.takes(serial, count);
    }

    // The clock goes on to a moment. What it brings comes in the machine's order, and then lines of
    // the script run.
    fn moment(&mut self, t: u64) -> Result<(), OutOfMemory>
        ensures { OnOk result (Leads self.old self.new (steps.moment t)) }
    {
        self.clock(t);
        self.timers(Timer::Death)?;
        self.timers(Timer::Silence)?;
        self.timers(Timer::Beat)?;
        self.gate_timer()?;
        self.run_script()?;
        Ok(())
    }
}
