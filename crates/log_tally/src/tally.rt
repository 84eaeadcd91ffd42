//! A sink that counts.

ghost use Rattle.std.specs.Prelude.{◌≡◌, ◌<◌, [], ◌∷◌, ◌++◌, length, Some};
ghost use Rattle.share_base.specs.Writing.{SinkState, FitsWrite, Writes};
ghost use Rattle.log_tally.specs.Totals as spec;

use crate::seen::Seen;
use crate::totals::Totals;
use share_base::{Sink, SinkAnswer};
use std::marker::Model;

/// A sink that keeps totals of the lines of a log, and not the log. It never fails and allocates
/// nothing. Contracts see it as the bytes that it has taken.
///
/// The totals stand still at 18,446,744,073,709,551,615.
#[derive(Drop)]
pub struct Tally {
    totals: Totals,
    seen: Seen<u8>,
}

impl Model for Tally {
    ghost use Rattle.std.specs.Prelude.{List, ℕ};
    ghost use Rattle.log_tally.specs.OpenLines.{AreTotalsOf};

    ghost Value = { List ℕ };

    ghost view = { λ t. t.seen.items };

    ghost invariant = { λ t. AreTotalsOf t.totals t.seen.items };
}

impl Tally {
    /// A tally of no byte.
    pub fn new() -> Tally
        ensures { result ≡ [] }
    {
        Tally {
            totals: Totals::new(),
            seen: Seen::new(),
        }
    }

    /// How many frames were queued, by the `send` lines so far.
    pub fn frames(&self) -> u64
        ensures { result ≡ spec.total_frames self.now }
    {
        self.totals.frames
    }

    /// How many bytes were taken, by the `closed` lines so far.
    pub fn taken(&self) -> u64
        ensures { result ≡ spec.total_taken self.now }
    {
        self.totals.taken
    }

    /// How many bytes were queued, by the `closed` lines so far.
    pub fn queued(&self) -> u64
        ensures { result ≡ spec.total_queued self.now }
    {
        self.totals.queued
    }

    fn take(&mut self, byte: u8)
        ensures { self.new ≡ self.old ++ byte ∷ [] }
    {
        self.totals.take(byte);
        self.seen = self.seen.and(&byte);
    }
}

impl Sink for Tally {
    ghost state = { λ t. record { taken = Some t; faults = 0 } };

    /// Takes all the bytes.
    fn write(&mut self, bytes: &[u8]) -> SinkAnswer
        requires { 0 < length bytes.now }
        ensures fits { FitsWrite result (length bytes.now) }
        ensures writes { Writes result bytes.now (record { taken = Some self.old; faults = 0 })
            (record { taken = Some self.new; faults = 0 }) }
        ensures whole { result ≡ SinkAnswer.Took (length bytes.now) }
    {
        for byte in bytes {
            self.take(*byte);
        }
        SinkAnswer::Took(bytes.len())
    }
}
