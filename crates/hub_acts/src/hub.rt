//! Many connections, and the clock.

ghost use Rattle.std.specs.Prelude.{◌≡◌, ◌<◌, ◌≤◌, ℕ, Contains, length};
ghost use Rattle.hub_acts.specs.Acts.{listen_act, wait_act, now_act, accept_act, read_act, write_act, close_act};
ghost use Rattle.hub_acts.specs.Hubs.{HubState, HubCalls, FitsWait, FitsAccept, FitsRead, FitsWrite};

use crate::answers::{AcceptAnswer, CallFault, ReadAnswer, Waited, WriteAnswer};
use crate::marks::ReadyList;
use share_base::OutOfMemory;

/// Connections that others make to this end, and the clock. Each connection has a serial that is
/// never used again.
///
/// Every hub tells the latest serial, the open serials and its two counts. A hub in memory also
/// tells all acts; one over real sockets doesn't, and then the clauses on acts say nothing.
/// `listen` and `wait` raise the count of faults alone, and `accept`, `read` and `write` that of
/// breaks: what one peer does is no fault of the hub. A call that answers `OutOfMemory` is no act
/// and changes nothing.
pub trait Hub {
    /// What it tells.
    ghost state: { Self → HubState };

    /// Calls led from the one to the other. A hub in memory says by it that its trace answered
    /// them.
    ghost leads: { Self → Self → Type 0 };

    /// No call was made.
    ghost stays: { (hub : Self) → leads hub hub };

    /// Calls were made after others.
    ghost goes_on: { (old middle new : Self) → leads old middle → leads middle new
        → leads old new };

    /// Listens at a port.
    fn listen(&mut self, port: u16) -> Result<(), CallFault>
        ensures calls { HubCalls (listen_act port result) (state self.old) (state self.new) }
        ensures leads { leads self.old self.new };

    /// Waits at most that many milliseconds until something is ready, and puts what is into the
    /// list.
    fn wait(&mut self, ms: u32, ready: &mut ReadyList) -> Waited
        requires soon { ms ≤ 1000 }
        requires few { length (state self.old).open_now < 128 }
        ensures fits { FitsWait result ready.old ready.new }
        ensures calls { HubCalls (wait_act ms ready.new result) (state self.old) (state self.new) }
        ensures leads { leads self.old self.new };

    /// The moment, in milliseconds.
    fn now(&mut self) -> Result<u64, OutOfMemory>
        ensures calls { HubCalls (now_act result) (state self.old) (state self.new) }
        ensures leads { leads self.old self.new };

    /// Accepts a connection that waits.
    fn accept(&mut self) -> AcceptAnswer
        ensures fits { FitsAccept result (state self.old).latest }
        ensures calls { HubCalls (accept_act result) (state self.old) (state self.new) }
        ensures leads { leads self.old self.new };

    /// Reads from an open connection into the front of `buf`, which is not empty.
    fn read(&mut self, serial: u64, buf: &mut [u8]) -> ReadAnswer
        requires is_open { Contains (state self.old).open_now serial }
        requires room { 0 < length buf.old }
        ensures fits { FitsRead result (length buf.old) }
        ensures calls { HubCalls (read_act serial buf.new result) (state self.old)
            (state self.new) }
        ensures leads { leads self.old self.new };

    /// Writes a front of `bytes`, which are not empty, to an open connection.
    fn write(&mut self, serial: u64, bytes: &[u8]) -> WriteAnswer
        requires is_open { Contains (state self.old).open_now serial }
        requires some { 0 < length bytes.now }
        ensures fits { FitsWrite result (length bytes.now) }
        ensures calls { HubCalls (write_act serial bytes.now result) (state self.old)
            (state self.new) }
        ensures leads { leads self.old self.new };

    /// Closes an open connection.
    fn close(&mut self, serial: u64) -> Result<(), OutOfMemory>
        requires is_open { Contains (state self.old).open_now serial }
        ensures calls { HubCalls (close_act serial result) (state self.old) (state self.new) }
        ensures leads { leads self.old self.new };
}
