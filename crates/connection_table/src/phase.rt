//! How far a connection has come.

ghost use Rattle.std.specs.Prelude.{◌≡◌, ◌<◌, IfSome, not, if◌then◌else◌};
ghost use Rattle.std.specs.Option.{option_map};
ghost use Rattle.share_base.specs.Shapes.{IsScreenShape};
ghost use Rattle.share_base.specs.declared.screen_set.TheConstants.{MOST_SCREENS};
ghost use Rattle.hello_states.specs.Phases.{is_parting, used_screen, joined_screen, joined_shape};
ghost use Rattle.hello_states.specs.Phases.{after_beat_in, after_hearing_in};
ghost use Rattle.hello_states.specs.Advancing.{admitted_as, joined_with, reshaped_to};
ghost use Rattle.connection_table.specs.PhaseOf.{phase_of, parted_phase};

use hello_states::{Asked, Greeting, Joined, PartCause, Parting};
use share_base::{ScreenNo, Shape};

/// The phase of a connection. A call that leads on takes the value of the one phase that has it.
#[derive(Debug, Drop)]
pub enum Phase {
    /// It was greeted, and is to answer.
    Greeting(Greeting),
    /// It was admitted as a screen, and is to tell its shape.
    Asked(Asked),
    /// Its screen can be entered.
    Joined(Joined),
    /// It is closed as soon as it may.
    Parting(Parting),
}

impl Phase {
    /// Tells whether the connection isn't parting.
    pub fn is_live(&self) -> bool
        ensures { result ≡ not (is_parting (phase_of self.now)) }
    {
        !matches!(self, Phase::Parting(_))
    }

    /// Returns the screen that the connection keeps others from taking, a number below 64: that of
    /// an asked or a joined one.
    pub fn used_screen(&self) -> Option<ScreenNo>
        ensures screen { option_map (λ n. n.0) result ≡ used_screen (phase_of self.now) }
        ensures bound { IfSome result (λ n. n.0 < MOST_SCREENS) }
    {
        match self {
            Phase::Asked(asked) => Some(asked.screen()),
            Phase::Joined(joined) => Some(joined.screen()),
            Phase::Greeting(_) | Phase::Parting(_) => None,
        }
    }

    /// Returns the screen as which the connection is joined, a number below 64.
    pub fn joined_screen(&self) -> Option<ScreenNo>
        ensures screen { option_map (λ n. n.0) result ≡ joined_screen (phase_of self.now) }
        ensures bound { IfSome result (λ n. n.0 < MOST_SCREENS) }
    {
        match self {
            Phase::Joined(joined) => Some(joined.screen()),
            Phase::Greeting(_) | Phase::Asked(_) | Phase::Parting(_) => None,
        }
    }

    /// Returns the shape of the screen as which the connection is joined.
    pub fn joined_shape(&self) -> Option<Shape>
        ensures shape { result ≡ joined_shape (phase_of self.now) }
        ensures screen { IfSome result IsScreenShape }
    {
        match self {
            Phase::Joined(joined) => Some(joined.shape()),
            Phase::Greeting(_) | Phase::Asked(_) | Phase::Parting(_) => None,
        }
    }

    /// Parts the connection for that cause at that moment. One that is parting already stays as it
    /// is.
    pub(crate) fn part(self, cause: PartCause, now: u64) -> Phase
        ensures { phase_of result ≡ parted_phase cause now (phase_of self) }
    {
        match self {
            Phase::Greeting(greeting) => Phase::Parting(greeting.part(cause, now)),
            Phase::Asked(asked) => Phase::Parting(asked.part(cause, now)),
            Phase::Joined(joined) => Phase::Parting(joined.part(cause, now)),
            Phase::Parting(already) => Phase::Parting(already),
        }
    }

    /// Counts a beat as sent at that moment, if the connection is joined and a beat is due.
    pub(crate) fn beaten(self, now: u64) -> Phase
        ensures { phase_of result ≡ after_beat_in (phase_of self) now }
    {
        match self {
            Phase::Joined(joined) => Phase::Joined(joined.beaten(now)),
            Phase::Greeting(greeting) => Phase::Greeting(greeting),
            Phase::Asked(asked) => Phase::Asked(asked),
            Phase::Parting(parting) => Phase::Parting(parting),
        }
    }

    /// Counts a whole message as heard at that moment, if the connection is joined.
    pub(crate) fn heard(self, now: u64) -> Phase
        ensures { phase_of result ≡ after_hearing_in (phase_of self) now }
    {
        match self {
            Phase::Joined(joined) => Phase::Joined(joined.heard(now)),
            Phase::Greeting(greeting) => Phase::Greeting(greeting),
            Phase::Asked(asked) => Phase::Asked(asked),
            Phase::Parting(parting) => Phase::Parting(parting),
        }
    }

    /// Admits the connection as that screen, if it is to answer. Its keep-alive will have that
    /// rate.
    pub(crate) fn admitted(self, screen: ScreenNo, rate: u32) -> Phase
        requires { screen.0 < MOST_SCREENS }
        ensures { phase_of result ≡ admitted_as screen.0 rate (phase_of self) }
    {
        match self {
            Phase::Greeting(greeting) => Phase::Asked(greeting.admit(screen, rate)),
            Phase::Asked(asked) => Phase::Asked(asked),
            Phase::Joined(joined) => Phase::Joined(joined),
            Phase::Parting(parting) => Phase::Parting(parting),
        }
    }

    /// Joins the connection with that shape at that moment, if its shape was asked.
    pub(crate) fn joined(self, shape: Shape, now: u64) -> Phase
        requires { IsScreenShape shape }
        ensures { phase_of result ≡ joined_with shape now (phase_of self) }
    {
        match self {
            Phase::Greeting(greeting) => Phase::Greeting(greeting),
            Phase::Asked(asked) => Phase::Joined(asked.join(shape, now)),
            Phase::Joined(joined) => Phase::Joined(joined),
            Phase::Parting(parting) => Phase::Parting(parting),
        }
    }

    /// Gives the screen another shape at that moment, if the connection is joined.
    pub(crate) fn reshaped(self, shape: Shape, now: u64) -> Phase
        requires { IsScreenShape shape }
        ensures { phase_of result ≡ reshaped_to shape now (phase_of self) }
    {
        match self {
            Phase::Greeting(greeting) => Phase::Greeting(greeting),
            Phase::Asked(asked) => Phase::Asked(asked),
            Phase::Joined(joined) => Phase::Joined(joined.reshape(shape, now)),
            Phase::Parting(parting) => Phase::Parting(parting),
        }
    }
}
