//! Sets of screens.

ghost use Rattle.std.specs.Prelude.{◌≡◌, ◌<◌, ◌==◌, ◌||◌, ◌&&◌, not, false, ℕ};
ghost use Rattle.share_base.specs.Screens.{has};

use crate::numbers::ScreenNo;
use std::marker::Model;

/// How many screens a configuration has at most. Their numbers are below.
pub const MOST_SCREENS: u16 = 64;

/// A set of screens with numbers below 64. Contracts ask it by `has`. No method allocates.
#[derive(Clone, Copy, Debug, PartialEq, Eq)]
pub struct ScreenSet {
    bits: u64,
}

impl Model for ScreenSet {
    ghost use Rattle.std.specs.Prelude.{ℕ};

    ghost Value = { ℕ };

    ghost view = { λ s. s.bits };

    ghost inverse = { λ n. record { bits = n } };
}

impl ScreenSet {
    /// An empty set.
    pub fn new() -> ScreenSet
        ensures { (k : ℕ) → has result k ≡ false }
    {
        ScreenSet { bits: 0 }
    }

    /// Adds a screen, whose number is below 64.
    pub fn insert(&mut self, no: ScreenNo)
        requires { no.0 < 64 }
        ensures { (k : ℕ) → has self.new k ≡ (has self.old k || k == no.0) }
    {
        self.bits |= 1 << no.0;
    }

    /// Removes a screen, whose number is below 64.
    pub fn remove(&mut self, no: ScreenNo)
        requires { no.0 < 64 }
        ensures { (k : ℕ) → has self.new k ≡ (has self.old k && not (k == no.0)) }
    {
        self.bits &= !(1 << no.0);
    }

    /// Whether the set has a screen, whose number is below 64.
    pub fn has(&self, no: ScreenNo) -> bool
        requires { no.0 < 64 }
        ensures { result ≡ has self.now no.0 }
    {
        (self.bits >> no.0) & 1 == 1
    }
}
