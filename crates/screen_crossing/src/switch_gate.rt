//! The gate that a motion asks before the screens switch.

ghost use Rattle.std.specs.Prelude.{◌≡◌, ◌≤◌, []};
ghost use Rattle.share_base.specs.Moments.{last_moment};
ghost use Rattle.machine.specs.States.{State};
ghost use Rattle.machine.specs.GateCalls as calls;
ghost use Rattle.machine.specs.GateCalls.{hear_ask, hear_away, passes, keeps_other};
ghost use Rattle.screen_crossing.specs.Remembering.{Heard, Remembers};

use edge_cross::{Gate, GateAnswer, Waiting};
use screen_config::Config;
use share_base::Side;

/// The switch gate under the options of a configuration. Asked about another side than before, it
/// first counts the motion as away from the edge. It represents what it heard since it was made or
/// reset. No method allocates.
#[derive(Debug, Drop)]
pub struct SwitchGate {
    gate: Gate,
    counts_taps: bool,
    tapped: Option<Side>,
}

impl SwitchGate {
    /// Creates a gate that has heard nothing, with the delay and the double-tap time of a
    /// configuration.
    pub fn new(config: &Config) -> SwitchGate
        ensures { Heard result config.now.settings [] }
    {
        let globals = config.globals();
        SwitchGate {
            gate: Gate::new(globals.switch_delay, globals.switch_double_tap),
            counts_taps: globals.switch_double_tap > 0,
            tapped: None,
        }
    }

    /// Asks whether the screens may switch at `side` now, and returns whether they do. `now` is the
    /// machine's moment in milliseconds, at most `share_base::LAST_MOMENT`.
    pub fn ask(&mut self, now: u64, side: Side) -> bool
        requires { now ≤ last_moment }
        ensures passes { (s : State) → s.at ≡ now → Remembers self.old s
            → result ≡ passes s side }
        ensures hears { (s : State) → s.at ≡ now → Remembers self.old s
            → Remembers self.new (hear_ask side s) }
    {
        self.leave_other(side);
        self.tapped = Some(side);
        is_pass(self.gate.ask(now, side))
    }

    /// Tells the gate of a motion that asks it nothing.
    pub fn away(&mut self)
        ensures { (s : State) → Remembers self.old s → Remembers self.new (hear_away s) }
    {
        self.gate.away();
    }

    /// Forgets all that the gate heard, as a switch of screens makes it do.
    pub fn reset(&mut self)
        ensures { (s : State) → Remembers self.old s
            → Heard self.new s.config.settings [] }
    {
        self.gate.reset();
        self.tapped = None;
    }

    /// Returns the side that the gate waits at and the moment at which that edge is tried again;
    /// `None` if it waits for none.
    pub fn waiting(&self) -> Option<Waiting>
        ensures { (s : State) → Remembers self.now s → result ≡ calls.waiting s }
    {
        self.gate.due()
    }

    /// Counts the motion as away from the edge if the gate's tap or wait is at another side.
    fn leave_other(&mut self, side: Side)
        ensures { (s : State) → Remembers self.old s
            → Heard self.new s.config.settings (calls.before_ask s side) }
    {
        if self.keeps_other(side) {
            self.gate.away();
        }
    }

    /// Returns whether the gate's tap or wait is at another side.
    fn keeps_other(&self, side: Side) -> bool
        ensures { (s : State) → Remembers self.now s → result ≡ keeps_other s side }
    {
        match self.kept_side() {
            Some(kept) => kept != side,
            None => false,
        }
    }

    /// Returns the side of the gate's tap or wait.
    fn kept_side(&self) -> Option<Side>
        ensures { (s : State) → Remembers self.now s → result ≡ calls.kept_side s }
    {
        if self.counts_taps {
            return self.tapped;
        }
        match self.gate.due() {
            Some(wait) => Some(wait.side),
            None => None,
        }
    }
}

fn is_pass(answer: GateAnswer) -> bool
    ensures { result ≡ calls.is_pass answer }
{
    matches!(answer, GateAnswer::Pass)
}
