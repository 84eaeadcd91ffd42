//! Numbers and events drawn from a seed.

ghost use Rattle.std.specs.Prelude.{◌≡◌, ◌≤◌, ◌<◌, ◌+◌, ◌*◌};
ghost use Rattle.std.specs.Prelude.{pos, ◌-ℤ◌, neg_ℤ, ◌≤ℤ◌};
ghost use Rattle.generated_texts.specs.Draws.{next_state, state_after, drawn_after};
ghost use Rattle.generated_texts.specs.Events.{event_after, draws_of, IsEvent};

use crate::event::Event;

const MULTIPLIER: u64 = 6_364_136_223_846_793_005;

const INCREMENT: u64 = 1_442_695_040_888_963_407;

/// A source of numbers that a seed determines: a linear congruence modulo 2 ^ 64.
#[derive(Clone, Copy, Debug)]
pub(crate) struct Draws {
    state: u64,
}

fn next_state(state: u64) -> u64
    ensures { result ≡ next_state state }
{
    state.wrapping_mul(MULTIPLIER).wrapping_add(INCREMENT)
}

impl Draws {
    /// The draws of a seed.
    pub(crate) fn new(seed: u64) -> Draws
        ensures { result.state ≡ seed }
    {
        Draws { state: seed }
    }

    /// Draws a number below `limit`.
    fn draw(&mut self, limit: u16) -> u16
        requires { 0 < limit }
        ensures drawn { result ≡ drawn_after self.old.state 0 limit }
        ensures below { result < limit }
        ensures state { self.new.state ≡ state_after self.old.state 1 }
    {
        self.state = next_state(self.state);
        ((self.state >> 33) % u64::from(limit)) as u16
    }

    /// Draws a distance, from `-most` to `most`.
    fn distance(&mut self, most: u16) -> i16
        requires { most ≤ 400 }
        ensures drawn { result ≡ pos (drawn_after self.old.state 0 (2 * most + 1)) -ℤ pos most }
        ensures in_range { (neg_ℤ (pos most) ≤ℤ result) × (result ≤ℤ pos most) }
        ensures state { self.new.state ≡ state_after self.old.state 1 }
    {
        self.draw(2 * most + 1) as i16 - most as i16
    }

    /// Draws an event.
    pub(crate) fn event(&mut self) -> Event
        ensures event { result ≡ event_after self.old.state 0 }
        ensures in_range { IsEvent result }
        ensures state { self.new.state ≡ state_after self.old.state (draws_of result) }
    {
        match self.draw(8) {
            0..=3 => {
                let dx = self.distance(400);
                let dy = self.distance(200);
                Event::Motion { dx, dy }
            }
            4 => Event::Wheel,
            5 => Event::Key(1 + self.draw(40) as u8),
            6 => Event::Button(1 + self.draw(3) as u8),
            _ => Event::Copy(self.draw(65) as u8),
        }
    }
}
