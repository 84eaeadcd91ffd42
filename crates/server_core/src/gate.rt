//! The switch gate: what it is asked, and what it does when its wait is over.

ghost use Rattle.std.specs.Prelude.{OnOk};
ghost use Rattle.std.specs.Option.{option_map};
ghost use Rattle.machine.specs.GateCalls as calls;
ghost use Rattle.machine.specs.Timers as timers;
ghost use Rattle.server_core.specs.Leading.{Leads, Reads};

use crate::server::ServerCore;
use edge_cross::Waiting;
use share_base::{OutOfMemory, Side};

impl ServerCore {
    /// Asks the gate whether a motion may leave the active screen on `side`, and returns its
    /// answer.
    pub(crate) fn ask_gate(&mut self, side: Side) -> bool
        ensures passes { Reads self.old result (λ s. calls.passes s side) }
        ensures hears { Leads self.old self.new (calls.hear_ask side) }
    {
        self.gate.ask(self.at.moment(), side)
    }

    /// Returns the moment, in milliseconds, at which the gate's wait is over; `None` if it waits
    /// for no edge.
    pub(crate) fn gate_due(&self) -> Option<u64>
        ensures { Reads self.now result (λ s. option_map (λ w. w.due) (calls.waiting s)) }
    {
        match self.gate.waiting() {
            Some(wait) => Some(wait.due),
            None => None,
        }
    }

    /// Tries the edge that the gate waits for again, if its wait is over.
    pub(crate) fn gate_timer(&mut self) -> Result<(), OutOfMemory>
        ensures { OnOk result (Leads self.old self.new timers.gate_timer) }
    {
        let Some(wait) = self.gate.waiting() else {
            return Ok(());
        };
        if wait.due > self.at.moment() {
            return Ok(());
        }
        self.try_edge(wait)?;
        self.part_slow()?;
        Ok(())
    }

    /// Leaves the active screen on the side of a wait, at the cursor, if there is a way out. The
    /// gate isn't asked, and its wait ends.
    fn try_edge(&mut self, wait: Waiting) -> Result<(), OutOfMemory>
        ensures { OnOk result (Leads self.old self.new (timers.try wait)) }
    {
        let way = self.way_at_cursor(wait.side);
        self.hear_away();
        let Some(way) = way else {
            return Ok(());
        };
        self.go_through(way)?;
        Ok(())
    }
}
