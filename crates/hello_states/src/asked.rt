//! A connection that answered as a screen and is to tell its shape.

ghost use Rattle.std.specs.Prelude.{◌≡◌, ◌≤◌, ◌<◌, Some};
ghost use Rattle.share_base.specs.Moments.{last_moment};
ghost use Rattle.share_base.specs.Shapes.{IsScreenShape};
ghost use Rattle.share_base.specs.declared.screen_set.TheConstants.{MOST_SCREENS};
ghost use Rattle.hello_states.specs.Phases.{Asked as in_asked};
ghost use Rattle.hello_states.specs.TypedPhases.{asked_phase, joined_phase, parting_phase};
ghost use Rattle.hello_states.specs.Handshake.{parting_for, asked_after_info};
ghost use Rattle.hello_states.specs.Information.{shape_in, phase_informed, serial_informed};

use crate::info_fields::InfoFields;
use crate::joined::Joined;
use crate::part_cause::PartCause;
use crate::parting::Parting;
use keepalive_clock::Alive;
use share_base::{ScreenNo, Shape, moment_of};
use std::marker::Model;

/// A connection that was admitted as a screen and was asked for the screen's information. It keeps
/// the rate that its keep-alive will have.
#[derive(Debug, Drop)]
pub struct Asked {
    serial: u64,
    screen: ScreenNo,
    accepted: u64,
    rate: u32,
}

/// What becomes of a connection by a screen's information.
#[derive(Debug, Drop)]
pub enum Informed {
    /// It is joined, with that shape.
    Joined(Joined),
    /// No screen has the shape that it told.
    Parting(Parting),
}

impl Model for Asked {
    ghost use Rattle.std.specs.Prelude.{◌≤◌, ◌<◌};
    ghost use Rattle.share_base.specs.Moments.{last_moment};
    ghost use Rattle.share_base.specs.declared.screen_set.TheConstants.{MOST_SCREENS};
    ghost use Rattle.hello_states.specs.TypedPhases.{AskedParts};

    ghost Value = { AskedParts };

    ghost view = { λ a. record {
      serial = a.serial;
      asked = record { screen = a.screen.0; accepted = a.accepted; rate = a.rate };
    } };

    ghost invariant = { λ a. (a.screen.0 < MOST_SCREENS) × (a.accepted ≤ last_moment) };
}

impl Asked {
    pub(crate) fn new(serial: u64, screen: ScreenNo, accepted: u64, rate: u32) -> Asked
        requires screen { screen.0 < MOST_SCREENS }
        requires moment { accepted ≤ last_moment }
        ensures phase { asked_phase result
            ≡ in_asked (record { screen = screen.0; accepted = accepted; rate = rate }) }
        ensures serial { result.serial ≡ serial }
    {
        Asked {
            serial,
            screen,
            accepted,
            rate,
        }
    }

    /// Takes the screen's information. The connection is joined with that shape, and its keep-alive
    /// begins; or it parts, for a shape that no screen has.
    pub fn info(self, info: &InfoFields, now: u64) -> Informed
        ensures phase { phase_informed result
            ≡ asked_after_info (shape_in info.now) now self.asked }
        ensures serial { serial_informed result ≡ self.serial }
    {
        let Some(shape) = info.shape() else {
            return Informed::Parting(self.part(PartCause::Size, now));
        };
        Informed::Joined(self.join(shape, now))
    }

    /// Joins the connection with that shape at that moment, at which its keep-alive begins.
    pub fn join(self, shape: Shape, now: u64) -> Joined
        requires { IsScreenShape shape }
        ensures phase { joined_phase result ≡ asked_after_info (Some shape) now self.asked }
        ensures serial { result.serial ≡ self.serial }
    {
        let moment = moment_of(now);
        let alive = Alive {
            sent: moment,
            heard: moment,
            rate: self.rate,
        };
        Joined::new(self.serial, self.screen, shape, alive)
    }

    /// Parts the connection for that cause at that moment.
    pub fn part(self, cause: PartCause, now: u64) -> Parting
        ensures phase { parting_phase result ≡ parting_for cause now }
        ensures serial { result.serial ≡ self.serial }
    {
        Parting::new(self.serial, cause, now)
    }

    /// Returns the serial of the connection.
    pub fn serial(&self) -> u64
        ensures { result ≡ self.now.serial }
    {
        self.serial
    }

    /// Returns the screen as which it was admitted, a number below 64.
    pub fn screen(&self) -> ScreenNo
        ensures value { result.0 ≡ self.now.asked.screen }
        ensures bound { result.0 < MOST_SCREENS }
    {
        self.screen
    }

    /// Returns the moment of its acceptance, in milliseconds, at most `LAST_MOMENT`.
    pub fn accepted(&self) -> u64
        ensures value { result ≡ self.now.asked.accepted }
        ensures bound { result ≤ last_moment }
    {
        self.accepted
    }
}
