//! Totals of a log.

use log_tally::Tally;
use share_base::write_all;
use std::test::*;

/// A log with two frames and two closings. `sends`, a second blank and a line without its end are
/// none.
const LOG: &[u8] = b"open 1\nsend 1 QINF\nsends 1 QINF\nlocal clip 0 73656e6420\nsend 2 CALV\n\
closed 1 120 130\nclosing 1 5 5\n closed 1 7 7\nclosed 2 3 1000\nclosed 3 1 1";

#[test]
fn any_cut_gives_the_same_totals(rt: HostRuntime) -> Result<(), Fail> {
    let _ = rt.alloc();
    for at in 0..LOG.len() {
        let mut tally = Tally::new();
        assert!(rt; write_all(&mut tally, &LOG[..at]));
        assert!(rt; write_all(&mut tally, &LOG[at..]));
        assert_eq!(rt; tally.frames(), 2);
        assert_eq!(rt; tally.taken(), 123);
        assert_eq!(rt; tally.queued(), 1130);
    }
    Ok(())
}

#[test]
fn totals_stand_still_at_their_last_value(rt: HostRuntime) -> Result<(), Fail> {
    let mut tally = Tally::new();
    assert!(rt;
        write_all(
            &mut tally,
            b"closed 1 18446744073709551614 99999999999999999999\n"
        )
    );
    assert_eq!(rt; tally.taken(), u64::MAX - 1);
    assert_eq!(rt; tally.queued(), u64::MAX);
    assert!(rt; write_all(&mut tally, b"closed 2 1 1\nclosed 3 1 1\n"));
    assert_eq!(rt; tally.taken(), u64::MAX);
    assert_eq!(rt; tally.queued(), u64::MAX);
    Ok(())
}
