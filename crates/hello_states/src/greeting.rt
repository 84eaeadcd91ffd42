//! A connection that was greeted and is to answer.

ghost use Rattle.std.specs.Prelude.{◌≡◌, ◌≤◌, ◌<◌, IfOk, length};
ghost use Rattle.share_base.specs.Screens.{has};
ghost use Rattle.share_base.specs.Moments.{last_moment};
ghost use Rattle.share_base.specs.declared.screen_set.TheConstants.{MOST_SCREENS};
ghost use Rattle.hello_states.specs.TypedPhases.{greeting_phase, asked_phase, parting_phase};
ghost use Rattle.hello_states.specs.Handshake.{greeting_at, parting_for, after_hello};
ghost use Rattle.hello_states.specs.Advancing.{admitted_as};
ghost use Rattle.hello_states.specs.Answers.{answer_under, rate_under, answer_of, phase_answered};
ghost use Rattle.hello_states.specs.Answers.{serial_answered};

use crate::asked::Asked;
use crate::part_cause::PartCause;
use crate::parting::Parting;
use crate::version::is_admitted;
use screen_config::Config;
use share_base::{ScreenNo, ScreenSet, moment_of};
use std::marker::Model;

/// A connection that was accepted and greeted, and whose answer is awaited.
#[derive(Debug, Drop)]
pub struct Greeting {
    serial: u64,
    accepted: u64,
}

/// What becomes of a connection by its answer to the greeting.
#[derive(Debug, Drop)]
pub enum Answered {
    /// It is admitted as a screen, whose information is asked.
    Asked(Asked),
    /// It is refused.
    Parting(Parting),
}

impl Model for Greeting {
    ghost use Rattle.std.specs.Prelude.{◌≤◌};
    ghost use Rattle.share_base.specs.Moments.{last_moment};
    ghost use Rattle.hello_states.specs.TypedPhases.{GreetingParts};

    ghost Value = { GreetingParts };

    ghost view = { λ g. record { serial = g.serial; accepted = g.accepted } };

    ghost invariant = { λ g. g.accepted ≤ last_moment };
}

impl Greeting {
    /// Makes the connection of that serial, accepted at that moment, in milliseconds. A moment
    /// above `LAST_MOMENT` counts as that one, here and in every call.
    pub fn begin(serial: u64, now: u64) -> Greeting
        ensures phase { greeting_phase result ≡ greeting_at now }
        ensures serial { result.serial ≡ serial }
    {
        Greeting {
            serial,
            accepted: moment_of(now),
        }
    }

    /// Takes the answer to the greeting. The connection is refused, in this order, for a version
    /// that isn't admitted, for a name that no screen and no alias has, and for a screen that is
    /// used: one of `used`, which holds the primary and the screens of all other connections that
    /// were asked or are joined. Else it is asked as that screen, and keeps the rate of the
    /// configuration for its keep-alive.
    pub fn answer(
        self,
        major: u16,
        minor: u16,
        name: &[u8],
        config: &Config,
        used: &ScreenSet,
        now: u64,
    ) -> Answered
        ensures phase { phase_answered result
            ≡ after_hello (answer_under config.now used.now major minor name.now)
            self.accepted (rate_under config.now) now }
        ensures serial { serial_answered result ≡ self.serial }
    {
        match admitted_screen(major, minor, name, config, used) {
            Ok(screen) => Answered::Asked(self.admit(screen, config.globals().heartbeat)),
            Err(cause) => Answered::Parting(self.part(cause, now)),
        }
    }

    /// Admits the connection as that screen; its keep-alive will have that rate, in milliseconds.
    pub fn admit(self, screen: ScreenNo, rate: u32) -> Asked
        requires { screen.0 < MOST_SCREENS }
        ensures phase { asked_phase result ≡ admitted_as screen.0 rate (greeting_phase self) }
        ensures serial { result.serial ≡ self.serial }
    {
        Asked::new(self.serial, screen, self.accepted, rate)
    }

    /// Parts the connection for that cause at that moment.
    pub fn part(self, cause: PartCause, now: u64) -> Parting
        ensures phase { parting_phase result ≡ parting_for cause now }
        ensures serial { result.serial ≡ self.serial }
    {
        Parting::new(self.serial, cause, now)
    }

    /// Returns the serial of the connection.
    pub fn serial(&self) -> u64
        ensures { result ≡ self.now.serial }
    {
        self.serial
    }

    /// Returns the moment of its acceptance, in milliseconds, at most `LAST_MOMENT`.
    pub fn accepted(&self) -> u64
        ensures value { result ≡ self.now.accepted }
        ensures bound { result ≤ last_moment }
    {
        self.accepted
    }
}

/// Returns the screen as which a connection is admitted that answers so, a number below 64, or the
/// cause for which it is refused.
pub fn admitted_screen(
    major: u16,
    minor: u16,
    name: &[u8],
    config: &Config,
    used: &ScreenSet,
) -> Result<ScreenNo, PartCause>
    ensures answer { answer_of result ≡ answer_under config.now used.now major minor name.now }
    ensures below { IfOk result (λ n. n.0 < MOST_SCREENS) }
    ensures known { IfOk result (λ n. n.0 < length config.now.screens) }
{
    if !is_admitted(major, minor) {
        return Err(PartCause::Version);
    }
    config.assure_sound();
    let Some(screen) = config.find(name) else {
        return Err(PartCause::Unknown);
    };
    if used.has(screen) {
        return Err(PartCause::Busy);
    }
    Ok(screen)
}
