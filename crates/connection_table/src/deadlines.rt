//! When something of a connection is due.

ghost use Rattle.std.specs.Prelude.{◌≡◌, ◌+◌};
ghost use Rattle.std.specs.Option.{option_to_list};
ghost use Rattle.hello_states.specs.Phases.{silence_of, is_silent, is_dead_in, is_beat_due_in, closing_time};
ghost use Rattle.machine.specs.Readings.{is_to_close, due_in};
ghost use Rattle.connection_table.specs.PhaseOf.{phase_of};
ghost use Rattle.connection_table.specs.Deadlines.{ReadsOf};

use crate::connection::Connection;
use crate::phase::Phase;
use hello_states::{CLOSING_TIME, HANDSHAKE_TIME, Parting};

impl Phase {
    /// Tells whether the connection is joined and was not heard for three rates at that moment, in
    /// milliseconds.
    pub fn is_dead(&self, now: u64) -> bool
        ensures { result ≡ is_dead_in (phase_of self.now) now }
    {
        match self {
            Phase::Joined(joined) => joined.alive().dead(now),
            Phase::Greeting(_) | Phase::Asked(_) | Phase::Parting(_) => false,
        }
    }

    /// Tells whether the connection is joined and is to be sent a beat at that moment, in
    /// milliseconds.
    pub fn is_beat_due(&self, now: u64) -> bool
        ensures { result ≡ is_beat_due_in (phase_of self.now) now }
    {
        match self {
            Phase::Joined(joined) => {
                let mut alive = *joined.alive();
                alive.beat(now)
            }
            Phase::Greeting(_) | Phase::Asked(_) | Phase::Parting(_) => false,
        }
    }

    /// Returns the moment, in milliseconds, from which on the connection is silent. `None` if and
    /// only if it is joined or parting.
    pub fn silence(&self) -> Option<u64>
        ensures { result ≡ silence_of (phase_of self.now) }
    {
        match self {
            Phase::Greeting(greeting) => Some(greeting.accepted() + HANDSHAKE_TIME),
            Phase::Asked(asked) => Some(asked.accepted() + HANDSHAKE_TIME),
            Phase::Joined(_) | Phase::Parting(_) => None,
        }
    }

    /// Tells whether the connection hasn't joined though the time for that is over at that moment,
    /// in milliseconds.
    pub fn is_silent(&self, now: u64) -> bool
        ensures { result ≡ is_silent (phase_of self.now) now }
    {
        match self.silence() {
            Some(moment) => moment <= now,
            None => false,
        }
    }
}

// The moment from which on a connection that parts is closed, whatever is left to be written.
fn closing_moment(parting: &Parting) -> u64
    ensures { result ≡ parting.now.moment + closing_time }
{
    parting.moment() + CLOSING_TIME
}

impl Connection {
    /// Tells whether the connection is parting and is to be closed at that moment, in milliseconds:
    /// nothing is left to be taken, or its time is over.
    pub fn is_to_close(&self, now: u64) -> bool
        ensures { ReadsOf self.now result (λ s c. is_to_close (record s { at = now }) c) }
    {
        match &self.phase {
            Phase::Parting(parting) => !self.queue.is_left() || closing_moment(parting) <= now,
            Phase::Greeting(_) | Phase::Asked(_) | Phase::Joined(_) => false,
        }
    }

    /// Returns the moment, in milliseconds, at which something of the connection is due: the next
    /// beat or the death of a joined one, the silence of one that hasn't joined, the end of a
    /// parting's time while something is left to be taken.
    pub fn due(&self) -> Option<u64>
        ensures { ReadsOf self.now (option_to_list result) (λ s c. due_in c.phase s c) }
    {
        match &self.phase {
            Phase::Joined(joined) => joined.alive().due(),
            Phase::Parting(parting) => {
                if self.queue.is_left() {
                    return Some(closing_moment(parting));
                }
                None
            }
            Phase::Greeting(_) | Phase::Asked(_) => self.phase.silence(),
        }
    }
}
