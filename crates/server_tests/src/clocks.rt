//! Beats, and the death of a peer that is silent.

use keepalive_clock::*;

/// A beat of one rate is sent once, and three rates without a message are a death.
#[test]
fn beats_and_the_death_come_at_their_moments(rt: HostRuntime) {
    let mut alive = Alive {
        sent: 0,
        heard: 0,
        rate: 3000,
    };
    assert_eq!(rt; alive.due(), Some(3000));
    for (now, sent) in [(2999, false), (3000, true), (3000, false)] {
        assert_eq!(rt; alive.beat(now), sent, "at {now}");
    }
    assert_eq!(rt; alive.due(), Some(6000));
    assert_eq!(rt; alive.death(), Some(9000));
    alive.heard(1);
    assert_eq!(rt; alive.death(), Some(9001));
}

/// Rows of the moment of the last message, the rate, a moment, and whether the peer is dead then.
/// The last three are about moments above the last one, which is 4,611,686,018,427,387,904.
#[test]
fn a_peer_is_dead_after_three_rates(rt: HostRuntime) {
    let rows = [
        (0, 3000, 8999, false),
        (0, 3000, 9000, true),
        (1, 3000, 9000, false),
        (0, 0, 4_000_000_000, false),
        (0, 1, 18_446_744_073_709_551_615, true),
        (
            4_611_686_018_427_387_901,
            1,
            18_446_744_073_709_551_615,
            true,
        ),
        (
            4_611_686_018_427_387_902,
            1,
            18_446_744_073_709_551_615,
            false,
        ),
        (
            18_446_744_073_709_551_615,
            4_294_967_295,
            18_446_744_073_709_551_615,
            false,
        ),
    ];
    for (heard, rate, now, dead) in rows {
        let alive = Alive {
            sent: 0,
            heard,
            rate,
        };
        assert_eq!(rt; alive.dead(now), dead, "heard at {heard}, now {now}");
    }
}

#[test]
fn a_rate_of_zero_has_no_deadlines(rt: HostRuntime) {
    let mut alive = Alive {
        sent: 0,
        heard: 0,
        rate: 0,
    };
    assert_eq!(rt; alive.due(), None);
    assert_eq!(rt; alive.death(), None);
    assert!(rt; !alive.beat(4_000_000_000));
}
