//! The keep-alive of one connection.

ghost use Rattle.std.specs.Prelude.{◌≡◌};
ghost use Rattle.keepalive_clock.specs.KeepAlive.{beat_moment, death_moment, due_moment, death_of};
ghost use Rattle.keepalive_clock.specs.KeepAlive.{is_beat_due, is_dead, after_beat, after_hearing};

use share_base::moment_of;

/// How many rates may pass without a message of the peer.
const RATES_UNTIL_DEATH: u64 = 3;

/// The keep-alive of one connection: when the last beat was sent, when the peer was last heard, and
/// the rate of beats, all in milliseconds. At a rate of 0 there is neither a beat nor a death. In
/// each call a moment above `LAST_MOMENT`, given or kept, counts as that moment. No method
/// allocates.
#[derive(Clone, Copy, Debug, PartialEq, Eq)]
pub struct Alive {
    /// The moment of the last beat, or of the beginning.
    pub sent: u64,
    /// The moment of the last whole message of the peer, or of the beginning.
    pub heard: u64,
    /// Milliseconds between two beats. The peer is dead after three times as many without a
    /// message; 0 for neither beats nor deaths.
    pub rate: u32,
}

impl Alive {
    /// Returns the moment of the next beat or of the death, whichever comes first. `None` if and
    /// only if the rate is 0.
    pub fn due(&self) -> Option<u64>
        ensures { result ≡ due_moment self.now }
    {
        if self.rate == 0 {
            return None;
        }
        Some(self.beat_moment().min(self.death_moment()))
    }

    /// Returns the moment from which on the peer counts as dead. `None` if and only if the rate is
    /// 0.
    pub fn death(&self) -> Option<u64>
        ensures { result ≡ death_of self.now }
    {
        if self.rate == 0 {
            return None;
        }
        Some(self.death_moment())
    }

    /// Tells whether a beat is due at that moment, and if so counts it as sent then: however late
    /// it comes, it is one beat.
    pub fn beat(&mut self, now: u64) -> bool
        ensures due { result ≡ is_beat_due self.old now }
        ensures sent { self.new ≡ after_beat self.old now }
    {
        let moment = moment_of(now);
        if self.rate == 0 || moment < self.beat_moment() {
            return false;
        }
        self.sent = moment;
        true
    }

    /// Counts a whole message of the peer as heard at that moment.
    pub fn heard(&mut self, now: u64)
        ensures { self.new ≡ after_hearing self.old now }
    {
        self.heard = moment_of(now);
    }

    /// Tells whether the peer counts as dead at that moment: three rates have passed since it was
    /// heard.
    pub fn dead(&self, now: u64) -> bool
        ensures { result ≡ is_dead self.now now }
    {
        self.rate > 0 && moment_of(now) >= self.death_moment()
    }

    fn beat_moment(&self) -> u64
        ensures { result ≡ beat_moment self.now }
    {
        moment_of(self.sent) + self.rate as u64
    }

    fn death_moment(&self) -> u64
        ensures { result ≡ death_moment self.now }
    {
        moment_of(self.heard) + RATES_UNTIL_DEATH * self.rate as u64
    }
}
