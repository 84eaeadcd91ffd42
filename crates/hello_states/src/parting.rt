//! A connection that is closed as soon as it may.

ghost use Rattle.std.specs.Prelude.{◌≡◌, ◌≤◌};
ghost use Rattle.share_base.specs.Moments.{last_moment};
ghost use Rattle.hello_states.specs.TypedPhases.{parting_phase};
ghost use Rattle.hello_states.specs.Handshake.{parting_for};

use crate::part_cause::PartCause;
use share_base::moment_of;
use std::marker::Model;

/// A connection that parts. It takes no input: it has no call for a message, nor for anything else
/// that comes from the peer.
#[derive(Debug, Drop)]
pub struct Parting {
    serial: u64,
    cause: PartCause,
    moment: u64,
}

impl Model for Parting {
    ghost use Rattle.std.specs.Prelude.{◌≤◌};
    ghost use Rattle.share_base.specs.Moments.{last_moment};
    ghost use Rattle.hello_states.specs.TypedPhases.{PartingParts};

    ghost Value = { PartingParts };

    ghost view = { λ p. record { serial = p.serial; cause = p.cause; moment = p.moment } };

    ghost invariant = { λ p. p.moment ≤ last_moment };
}

impl Parting {
    pub(crate) fn new(serial: u64, cause: PartCause, now: u64) -> Parting
        ensures phase { parting_phase result ≡ parting_for cause now }
        ensures serial { result.serial ≡ serial }
    {
        Parting {
            serial,
            cause,
            moment: moment_of(now),
        }
    }

    /// Returns the serial of the connection.
    pub fn serial(&self) -> u64
        ensures { result ≡ self.now.serial }
    {
        self.serial
    }

    /// Returns why the connection parts.
    pub fn cause(&self) -> PartCause
        ensures { result ≡ self.now.cause }
    {
        self.cause
    }

    /// Returns the moment of the parting, in milliseconds, at most `LAST_MOMENT`.
    pub fn moment(&self) -> u64
        ensures value { result ≡ self.now.moment }
        ensures bound { result ≤ last_moment }
    {
        self.moment
    }
}
