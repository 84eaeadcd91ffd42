//! The gate that a motion asks before the screens switch.

ghost use Rattle.std.specs.Prelude.{◌≡◌, ◌≤◌, []};
ghost use Rattle.share_base.specs.Moments.{last_moment};
ghost use Rattle.edge_cross.specs.Gates as spec;
ghost use Rattle.edge_cross.specs.Gates.{Away, Represents, Hears, Forgets, Answers, Waits, asked};

use share_base::{Side, moment_of};

/// The answer to a motion that passes an edge.
#[derive(Clone, Copy, Debug, PartialEq, Eq)]
pub enum GateAnswer {
    /// The screens switch.
    Pass,
    /// The screens switch later, unless the motion leaves the edge before.
    Wait {
        /// The moment at which the edge is tried again, in milliseconds.
        due: u64,
    },
    /// The screens don't switch.
    Stay,
}

/// An edge that the gate waits for.
#[derive(Clone, Copy, Debug, PartialEq, Eq)]
pub struct Waiting {
    /// The side that was asked about.
    pub side: Side,
    /// The moment at which the edge is tried again, in milliseconds.
    pub due: u64,
}

/// An ask that may become the first of two taps.
#[derive(Clone, Copy, Debug, PartialEq, Eq)]
struct Tap {
    at: u64,
    side: Side,
}

/// The gate between two screens. With a double-tap time, only the second of two taps on an edge
/// passes; with a delay, only a motion that stays at the edge for that long. If both are set, the
/// double tap alone counts. A gate represents the calls since it was made or reset. No method
/// allocates.
#[derive(Debug, Drop)]
pub struct Gate {
    delay: u32,
    tap: u32,
    tapped: Option<Tap>,
    was_away: bool,
    waiting: Option<Waiting>,
}

impl Gate {
    /// Creates a gate that was asked nothing yet. `delay` is how long a motion stays at an edge
    /// before it passes, and `tap` is the longest time between two taps, both in milliseconds; 0
    /// switches that option off.
    pub fn new(delay: u32, tap: u32) -> Gate
        ensures { Represents result delay tap [] }
    {
        Gate {
            delay,
            tap,
            tapped: None,
            was_away: false,
            waiting: None,
        }
    }

    /// Asks whether the screens may switch at that side now. `now` is in milliseconds; one past
    /// `share_base::LAST_MOMENT` counts as that moment.
    pub fn ask(&mut self, now: u64, side: Side) -> GateAnswer
        ensures answers { Answers self.old now side result }
        ensures hears { Hears self.old self.new (asked now side) }
    {
        let now = moment_of(now);
        if self.tap > 0 {
            if repeats(self.tap, self.tapped, now, side) {
                return if self.was_away {
                    GateAnswer::Pass
                } else {
                    GateAnswer::Stay
                };
            }
            self.tapped = Some(Tap { at: now, side });
            self.was_away = false;
            return GateAnswer::Stay;
        }
        if self.delay == 0 {
            return GateAnswer::Pass;
        }
        let wait = wait_of(self.delay, self.waiting, now, side);
        self.waiting = Some(wait);
        answer_at(now, wait)
    }

    /// Tells the gate that the motion is away from the edge: the kept tap may be repeated from now
    /// on, and a wait ends.
    pub fn away(&mut self)
        ensures { Hears self.old self.new Away }
    {
        self.was_away = true;
        self.waiting = None;
    }

    /// Forgets the kept tap and the wait.
    pub fn reset(&mut self)
        ensures { Forgets self.old self.new }
    {
        self.tapped = None;
        self.was_away = false;
        self.waiting = None;
    }

    /// Returns the edge that the gate waits for and when to try it again, or `None` if it waits for
    /// none.
    pub fn due(&self) -> Option<Waiting>
        ensures { Waits self.now result }
    {
        self.waiting
    }
}

/// Returns whether an ask is on the kept tap's side and within `time` of it.
fn repeats(time: u32, tapped: Option<Tap>, now: u64, side: Side) -> bool
    ensures { result ≡ spec.repeats time tapped now side }
{
    match tapped {
        Some(tap) => tap.side == side && now.saturating_sub(tap.at) <= time as u64,
        None => false,
    }
}

/// Returns the wait after an ask: the current one if it is for that side, else a new one.
fn wait_of(delay: u32, waiting: Option<Waiting>, now: u64, side: Side) -> Waiting
    requires { now ≤ last_moment }
    ensures { result ≡ spec.wait_of delay waiting now side }
{
    match waiting {
        Some(wait) if wait.side == side => wait,
        _ => Waiting {
            side,
            due: now + delay as u64,
        },
    }
}

fn answer_at(now: u64, wait: Waiting) -> GateAnswer
    ensures { result ≡ spec.answer_at now wait }
{
    if now >= wait.due {
        GateAnswer::Pass
    } else {
        GateAnswer::Wait { due: wait.due }
    }
}
