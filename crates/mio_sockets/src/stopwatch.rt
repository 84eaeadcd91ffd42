//! Milliseconds since a start.

ghost use Rattle.std.specs.Prelude.{◌≡◌, ◌≤◌};

use std::time::{Clock, Instant};

/// The milliseconds since it was started. They never go back, whatever the clock does.
#[derive(Clone, Copy)]
pub(crate) struct Stopwatch {
    start: Option<Instant>,
    moment: u64,
}

impl Stopwatch {
    /// Starts at 0. If the clock fails, the start is the first reading that succeeds.
    pub(crate) fn start(clock: &impl Clock) -> Stopwatch {
        Stopwatch {
            start: Instant::now(clock).ok(),
            moment: 0,
        }
    }

    /// The milliseconds since the start, or the latest reading again if the clock fails.
    pub(crate) fn read(&mut self, clock: &impl Clock) -> u64
        ensures rises { self.old.moment ≤ result }
        ensures latest { self.new.moment ≡ result }
    {
        if let Ok(now) = Instant::now(clock) {
            let start = self.start.unwrap_or(now);
            let elapsed = now.duration_since(start).as_millis();
            self.start = Some(start);
            self.moment = self.moment.max(elapsed.min(u64::MAX as u128) as u64);
        }
        self.moment
    }
}
