//! What is read off a server: which connection is to be closed, when something is due, and which
//! screen is active.

ghost use Rattle.std.specs.Prelude.{◌≡◌, ◌<◌, fold, min};
ghost use Rattle.std.specs.Option.{option_to_list};
ghost use Rattle.machine.specs.Readings as readings;
ghost use Rattle.server_core.specs.Leading.{Reads};
ghost use Rattle.server_core.specs.LastReadings.{ReadsAtEnd};
ghost use Rattle.server_core.specs.DueMoments.{connections_due};

use crate::server::ServerCore;
use share_base::ScreenNo;

/// The moment of which nothing is due.
const NEVER: u64 = u64::MAX;

// The lesser of a moment and another one, where there is one.
fn earlier(moment: u64, other: Option<u64>) -> u64
    ensures { result ≡ fold min moment (option_to_list other) }
{
    match other {
        Some(other) => moment.min(other),
        None => moment,
    }
}

impl ServerCore {
    /// Returns the active screen, a number below 64.
    pub fn active(&self) -> ScreenNo
        ensures screen { Reads self.now result.0 readings.active_screen }
        ensures bound { result.0 < 64 }
    {
        self.screen_of(self.active)
    }

    /// Returns the sequence number of the latest entering: how many there were, at most
    /// 4,294,967,295; also at a run's end, when the active screen may be gone.
    pub fn sequence(&self) -> u32
        ensures stands { Reads self.now result (λ s. s.sequence) }
        ensures leaves { ReadsAtEnd self.now result (λ s. s.sequence) }
    {
        self.sequence
    }

    // Tells whether the script has quit and no connection is left.
    pub(crate) fn is_over(&self) -> bool
        ensures { Reads self.now result readings.is_over }
    {
        self.has_quit && self.table.as_slice().is_empty()
    }

    // Returns the least serial of a connection that is to be closed now.
    pub(crate) fn first_closing(&self) -> Option<u64>
        ensures { Reads self.now result readings.closing }
    {
        for connection in self.table.as_slice() {
            if connection.is_to_close(self.at.moment()) {
                return Some(connection.serial());
            }
        }
        None
    }

    // Returns the least moment at which something of a connection is due.
    fn due_of_connections(&self) -> u64
        ensures { Reads self.now result (λ s. fold min readings.never (connections_due s)) }
    {
        let mut least = NEVER;
        for connection in self.table.as_slice() {
            least = earlier(least, connection.due());
        }
        least
    }

    // Returns the moment at which something is due: of a connection, of the gate, or of the script.
    pub(crate) fn least_due(&self) -> u64
        ensures { Reads self.now result readings.due }
    {
        let connections = self.due_of_connections();
        let gate = earlier(connections, self.gate_due());
        let sleep = earlier(gate, self.sleep_end());
        if self.may_run_next() {
            return earlier(sleep, Some(self.at.moment()));
        }
        sleep
    }
}
