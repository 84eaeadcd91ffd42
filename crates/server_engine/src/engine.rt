//! What the loop drives.

ghost use Rattle.std.specs.Prelude.{◌≡◌, ◌≤◌, ℕ, List, length, OnOk};
ghost use Rattle.machine.specs.States.{State};
ghost use Rattle.machine.specs.Happenings.{Took, Closed};
ghost use Rattle.machine.specs.Readings as machine;
ghost use Rattle.server_engine.specs.Engines.{meaning, Steps, ClosesParting, Reads, Offers, Counts, Logs, ClearsLog};

use crate::happening::Happening;
use share_base::OutOfMemory;

/// A server over happenings. Each call leads from every state of the machine that the engine serves
/// to the machine's next one, or reads that state.
///
/// An engine keeps the text of its log until that is cleared. After a call that answers
/// `OutOfMemory` it serves no state that is known.
pub trait Engine {
    /// With that front of its log cleared, it is in that state, and the active screen is joined.
    ghost serves: { Self → List ℕ → State → Type 0 };

    /// The same but that the active screen may be gone: as a run ends, all connections are closed.
    ghost departs: { Self → List ℕ → State → Type 0 };

    /// The bytes that a connection is to take next, first to last; none where it takes no more.
    ghost offered: { Self → ℕ → List ℕ };

    /// Does what the machine does at that happening.
    fn step(&mut self, happening: Happening<'_>) -> Result<(), OutOfMemory>
        ensures { OnOk result (Steps serves self.old self.new (meaning happening.entry)) };

    /// A connection took so many of the bytes that it was offered.
    fn taken(&mut self, serial: u64, count: usize)
        requires { count ≤ length (offered self.old serial) }
        ensures { Steps serves self.old self.new (Took serial count) };

    /// A connection was closed: the one that is to be closed now, or any one as a run ends.
    fn closed(&mut self, serial: u64) -> Result<(), OutOfMemory>
        ensures serves { OnOk result (ClosesParting serves self.old self.new serial) }
        ensures departs { OnOk result (Steps departs self.old self.new (Closed serial)) };

    /// Returns the bytes that a connection is to take next, first to last: none if it takes no
    /// more.
    fn queued(&self, serial: u64) -> &[u8]
        ensures value { result.now ≡ offered self.now serial }
        ensures offers { Offers serves self.now serial result.now };

    /// Returns how many bytes were queued for an open connection in all.
    fn total(&self, serial: u64) -> u64
        ensures { Counts serves self.now serial result };

    /// Returns whether a connection is open and not parting: only then is it read.
    fn reads(&self, serial: u64) -> bool
        ensures { Reads serves self.now result (λ s. machine.reads s serial) };

    /// Returns whether new connections are accepted.
    fn accepts(&self) -> bool
        ensures { Reads serves self.now result machine.accepts };

    /// Returns the least serial of the connections that are to be closed now.
    fn closing(&self) -> Option<u64>
        ensures { Reads serves self.now result machine.closing };

    /// Returns whether the script has quit and no connection is left.
    fn over(&self) -> bool
        ensures { Reads serves self.now result machine.is_over };

    /// Returns the moment at which something is due, in milliseconds; the last of 64 bits for
    /// never.
    fn due(&self) -> u64
        ensures { Reads serves self.now result machine.due };

    /// Returns the latest moment, in milliseconds.
    fn at(&self) -> u64
        ensures { Reads serves self.now result (λ s. s.at) };

    /// Returns the text of the log since it was last cleared.
    fn log(&self) -> &[u8]
        ensures { Logs departs self.now result.now };

    /// Clears the log, once it is written.
    fn clear_log(&mut self)
        ensures serves { ClearsLog serves self.old self.new }
        ensures departs { ClearsLog departs self.old self.new };

    ghost departing: { (engine : Self) (front : List ℕ) (s : State)
        → serves engine front s → departs engine front s };
}
