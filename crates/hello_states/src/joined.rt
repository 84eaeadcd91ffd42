//! A connection whose screen can be entered.

ghost use Rattle.std.specs.Prelude.{◌≡◌, ◌<◌, Some};
ghost use Rattle.std.specs.Borrow.{sem};
ghost use Rattle.share_base.specs.Shapes.{IsScreenShape};
ghost use Rattle.share_base.specs.declared.screen_set.TheConstants.{MOST_SCREENS};
ghost use Rattle.hello_states.specs.Phases.{Joined as in_joined, after_beat_in, after_hearing_in};
ghost use Rattle.hello_states.specs.TypedPhases.{joined_phase, parting_phase};
ghost use Rattle.hello_states.specs.Handshake.{parting_for, joined_after_info};
ghost use Rattle.hello_states.specs.Information.{shape_in, phase_informed, serial_informed};
ghost use Rattle.hello_states.specs.Loans.{LendsAlive};

use crate::asked::Informed;
use crate::info_fields::InfoFields;
use crate::part_cause::PartCause;
use crate::parting::Parting;
use keepalive_clock::Alive;
use share_base::{ScreenNo, Shape};
use std::marker::Model;

/// A connection that told the shape of its screen, with its keep-alive.
#[derive(Debug, Drop)]
pub struct Joined {
    serial: u64,
    screen: ScreenNo,
    shape: Shape,
    alive: Alive,
}

impl Model for Joined {
    ghost use Rattle.std.specs.Prelude.{◌<◌};
    ghost use Rattle.share_base.specs.Shapes.{IsScreenShape};
    ghost use Rattle.share_base.specs.declared.screen_set.TheConstants.{MOST_SCREENS};
    ghost use Rattle.hello_states.specs.TypedPhases.{JoinedParts};

    ghost Value = { JoinedParts };

    ghost view = { λ j. record {
      serial = j.serial;
      joined = record { screen = j.screen.0; shape = j.shape; alive = j.alive };
    } };

    ghost invariant = { λ j. (j.screen.0 < MOST_SCREENS) × IsScreenShape j.shape };
}

impl Joined {
    pub(crate) fn new(serial: u64, screen: ScreenNo, shape: Shape, alive: Alive) -> Joined
        requires screen { screen.0 < MOST_SCREENS }
        requires shape { IsScreenShape shape }
        ensures phase { joined_phase result
            ≡ in_joined (record { screen = screen.0; shape = shape; alive = alive }) }
        ensures serial { result.serial ≡ serial }
    {
        Joined {
            serial,
            screen,
            shape,
            alive,
        }
    }

    /// Takes a further information of the screen, which counts as heard. The connection has that
    /// shape from now on; or it parts, for a shape that no screen has.
    pub fn info(self, info: &InfoFields, now: u64) -> Informed
        ensures phase { phase_informed result
            ≡ joined_after_info (shape_in info.now) now self.joined }
        ensures serial { serial_informed result ≡ self.serial }
    {
        let Some(shape) = info.shape() else {
            return Informed::Parting(self.part(PartCause::Size, now));
        };
        Informed::Joined(self.reshape(shape, now))
    }

    /// Gives the screen another shape at that moment, at which it counts as heard.
    pub fn reshape(self, shape: Shape, now: u64) -> Joined
        requires { IsScreenShape shape }
        ensures phase { joined_phase result ≡ joined_after_info (Some shape) now self.joined }
        ensures serial { result.serial ≡ self.serial }
    {
        let heard = self.heard(now);
        Joined::new(heard.serial, heard.screen, shape, heard.alive)
    }

    /// Counts a whole message as heard at that moment.
    pub fn heard(self, now: u64) -> Joined
        ensures phase { joined_phase result ≡ after_hearing_in (in_joined self.joined) now }
        ensures serial { result.serial ≡ self.serial }
    {
        let mut alive = self.alive;
        alive.heard(now);
        Joined::new(self.serial, self.screen, self.shape, alive)
    }

    /// Counts a beat as sent at that moment, if one is due.
    pub fn beaten(self, now: u64) -> Joined
        ensures phase { joined_phase result ≡ after_beat_in (in_joined self.joined) now }
        ensures serial { result.serial ≡ self.serial }
    {
        let mut alive = self.alive;
        let _ = alive.beat(now);
        Joined::new(self.serial, self.screen, self.shape, alive)
    }

    /// Parts the connection for that cause at that moment.
    pub fn part(self, cause: PartCause, now: u64) -> Parting
        ensures phase { parting_phase result ≡ parting_for cause now }
        ensures serial { result.serial ≡ self.serial }
    {
        Parting::new(self.serial, cause, now)
    }

    /// Returns the serial of the connection.
    pub fn serial(&self) -> u64
        ensures { result ≡ self.now.serial }
    {
        self.serial
    }

    /// Returns the screen that is joined, a number below 64.
    pub fn screen(&self) -> ScreenNo
        ensures value { result.0 ≡ self.now.joined.screen }
        ensures bound { result.0 < MOST_SCREENS }
    {
        self.screen
    }

    /// Returns the shape of the screen.
    pub fn shape(&self) -> Shape
        ensures value { result ≡ self.now.joined.shape }
        ensures screen { IsScreenShape result }
    {
        self.shape
    }

    /// Returns the keep-alive of the connection.
    pub fn alive(&self) -> &Alive
        ensures { result.now ≡ self.now.joined.alive }
    {
        &self.alive
    }

    /// Lends the keep-alive of the connection for change.
    pub fn alive_mut(&mut self) -> &mut Alive
        ensures value { result.now ≡ self.old.joined.alive }
        ensures* writes_back { sem 𝓛 (LendsAlive self.entry result) }
    {
        &mut self.alive
    }
}
