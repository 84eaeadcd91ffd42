//! One connection, and the clock.

ghost use Rattle.std.specs.Prelude.{◌≡◌, ◌<◌, ◌≤◌, ℕ, length};
ghost use Rattle.hub_acts.specs.LinkActs.{connect_act, link_wait_act, link_now_act, link_read_act, link_write_act, link_close_act};
ghost use Rattle.hub_acts.specs.Hubs.{FitsRead, FitsWrite};
ghost use Rattle.hub_acts.specs.Links.{LinkState, LinkCalls};

use crate::answers::{CallFault, LinkWaited, ReadAnswer, WriteAnswer};
use share_base::OutOfMemory;

/// One connection that this end makes, and the clock.
///
/// Every link tells its two counts, and a link in memory all acts. `connect` and `wait` raise the
/// count of faults alone, and `read` and `write` that of breaks. A call that answers `OutOfMemory`
/// is no act and changes nothing.
pub trait Link {
    /// What it tells.
    ghost state: { Self → LinkState };

    /// Calls led from the one to the other. A link in memory says by it that its trace answered
    /// them.
    ghost leads: { Self → Self → Type 0 };

    /// No call was made.
    ghost stays: { (link : Self) → leads link link };

    /// Calls were made after others.
    ghost goes_on: { (old middle new : Self) → leads old middle → leads middle new
        → leads old new };

    /// Connects to a port of a host.
    fn connect(&mut self, host: &str, port: u16) -> Result<(), CallFault>
        ensures calls { LinkCalls (connect_act host.now port result) (state self.old)
            (state self.new) }
        ensures leads { leads self.old self.new };

    /// Waits at most that many milliseconds until the stream is ready.
    fn wait(&mut self, ms: u32) -> LinkWaited
        requires { ms ≤ 1000 }
        ensures calls { LinkCalls (link_wait_act ms result) (state self.old) (state self.new) }
        ensures leads { leads self.old self.new };

    /// The moment, in milliseconds.
    fn now(&mut self) -> Result<u64, OutOfMemory>
        ensures calls { LinkCalls (link_now_act result) (state self.old) (state self.new) }
        ensures leads { leads self.old self.new };

    /// Reads into the front of `buf`, which is not empty.
    fn read(&mut self, buf: &mut [u8]) -> ReadAnswer
        requires { 0 < length buf.old }
        ensures fits { FitsRead result (length buf.old) }
        ensures calls { LinkCalls (link_read_act buf.new result) (state self.old) (state self.new) }
        ensures leads { leads self.old self.new };

    /// Writes a front of `bytes`, which are not empty.
    fn write(&mut self, bytes: &[u8]) -> WriteAnswer
        requires { 0 < length bytes.now }
        ensures fits { FitsWrite result (length bytes.now) }
        ensures calls { LinkCalls (link_write_act bytes.now result) (state self.old)
            (state self.new) }
        ensures leads { leads self.old self.new };

    /// Closes the stream.
    fn close(&mut self) -> Result<(), OutOfMemory>
        ensures calls { LinkCalls (link_close_act result) (state self.old) (state self.new) }
        ensures leads { leads self.old self.new };
}
