//! The moment of the server.

ghost use Rattle.std.specs.Prelude.{◌≡◌, ◌≤◌, max};
ghost use Rattle.share_base.specs.Moments as moments;
ghost use Rattle.share_base.specs.Moments.{last_moment};

use share_base::moment_of;
use std::marker::Model;

/// A moment in milliseconds, at most `share_base::LAST_MOMENT`, that never falls. Contracts see the
/// number.
#[derive(Drop)]
pub struct Clock {
    moment: u64,
}

impl Model for Clock {
    ghost use Rattle.std.specs.Prelude.{ℕ, ◌≤◌};
    ghost use Rattle.share_base.specs.Moments.{last_moment};

    ghost Value = { ℕ };

    ghost view = { λ c. c.moment };

    ghost invariant = { λ c. c.moment ≤ last_moment };
}

impl Clock {
    /// A clock at that moment; one above the last moment counts as that one.
    pub fn new(milliseconds: u64) -> Clock
        ensures { result ≡ moments.moment_of milliseconds }
    {
        Clock {
            moment: moment_of(milliseconds),
        }
    }

    /// The moment, in milliseconds.
    pub fn moment(&self) -> u64
        ensures moment { result ≡ self.now }
        ensures bound { result ≤ last_moment }
    {
        self.moment
    }

    /// Goes on to a moment; an earlier one changes nothing, and one above the last moment counts as
    /// that one.
    pub fn advance(&mut self, milliseconds: u64)
        ensures { self.new ≡ max self.old (moments.moment_of milliseconds) }
    {
        self.moment = self.moment.max(moment_of(milliseconds));
    }
}
