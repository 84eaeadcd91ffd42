//! What the clock brings to connections before lines run: deaths, silences and beats.

ghost use Rattle.std.specs.Prelude.{◌≡◌, true, OnOk};
ghost use Rattle.machine.specs.Targets.{Client};
ghost use Rattle.machine.specs.Timers as timers;
ghost use Rattle.server_core.specs.Leading.{Leads, LeadsAt, LeadsWhere, Reads};
ghost use Rattle.server_core.specs.Timing.{has_come, rule_of, for_one, for_place, for_all, serial_at};

use crate::server::ServerCore;
use crate::target::Target;
use hello_states::PartCause;
use message_codec::Msg;
use share_base::OutOfMemory;

/// What comes to a connection by the clock alone.
#[derive(Clone, Copy, Debug, PartialEq, Eq)]
pub enum Timer {
    /// A joined connection was not heard for three rates.
    Death,
    /// A connection that hasn't joined took longer than it may.
    Silence,
    /// A joined connection is to be sent a beat.
    Beat,
}

impl ServerCore {
    // The clock goes on to a moment; a lower one changes nothing.
    pub(crate) fn clock(&mut self, t: u64)
        ensures { Leads self.old self.new (timers.clock t) }
    {
        self.at.advance(t);
    }

    // Does to each connection what the timer brings, by rising serial.
    pub(crate) fn timers(&mut self, timer: Timer) -> Result<(), OutOfMemory>
        ensures { OnOk result (Leads self.old self.new (for_all timer)) }
    {
        let count = self.table.as_slice().len();
        for place in 0..count {
            self.timer_at(timer, place)?;
        }
        Ok(())
    }

    // The same to the connection at that place, where there is one.
    fn timer_at(&mut self, timer: Timer, place: usize) -> Result<(), OutOfMemory>
        ensures { OnOk result (Leads self.old self.new (for_place timer place)) }
    {
        let Some(serial) = self.serial_at(place) else {
            return Ok(());
        };
        self.timer_of(timer, serial)?;
        Ok(())
    }

    // The same to the connection of that serial; those that are slow by then part.
    fn timer_of(&mut self, timer: Timer, serial: u64) -> Result<(), OutOfMemory>
        ensures { OnOk result (Leads self.old self.new (for_one timer serial)) }
    {
        if self.has_come(timer, serial) {
            self.go_off(timer, serial)?;
            self.part_slow()?;
            return Ok(());
        }
        Ok(())
    }

    // The timer goes off at a connection for which it has come.
    fn go_off(&mut self, timer: Timer, serial: u64) -> Result<(), OutOfMemory>
        ensures { OnOk result (LeadsWhere (λ s. has_come timer serial s ≡ true)
            self.old self.new (rule_of timer serial)) }
    {
        match timer {
            Timer::Death => {
                self.part(PartCause::Dead, serial)?;
                Ok(())
            }
            Timer::Silence => {
                self.part(PartCause::Silent, serial)?;
                Ok(())
            }
            Timer::Beat => {
                self.beat(serial)?;
                Ok(())
            }
        }
    }

    // Sends a beat to the connection of that serial, and counts it as sent.
    fn beat(&mut self, serial: u64) -> Result<(), OutOfMemory>
        ensures { OnOk result (LeadsAt (Client serial) self.old self.new (timers.beat serial)) }
    {
        let now = self.at.moment();
        self.table.beat(serial, now);
        self.route(Target::Client(serial), &Msg::Alive)?;
        Ok(())
    }

    // Returns the serial of the connection at that place, by rising serial.
    fn serial_at(&self, place: usize) -> Option<u64>
        ensures { Reads self.now result (serial_at place) }
    {
        match self.table.as_slice().get(place) {
            Some(connection) => Some(connection.serial()),
            None => None,
        }
    }

    // Tells whether the timer has come for the connection of that serial.
    fn has_come(&self, timer: Timer, serial: u64) -> bool
        ensures { Reads self.now result (has_come timer serial) }
    {
        match self.table.get(serial) {
            Some(connection) => match timer {
                Timer::Death => connection.phase().is_dead(self.at.moment()),
                Timer::Silence => connection.phase().is_silent(self.at.moment()),
                Timer::Beat => connection.phase().is_beat_due(self.at.moment()),
            },
            None => false,
        }
    }
}
