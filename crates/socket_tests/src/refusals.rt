//! Calls that fail, or find nothing.

use crate::meeting::*;
use hub_acts::{AcceptAnswer, Hub, Link, LinkWaited, ReadAnswer, ReadyList, Waited, WriteAnswer};
use mio_sockets::{MioHub, MioLink};
use std::test::*;

#[test]
fn a_hub_that_does_not_listen_has_no_connections(rt: HostRuntime) -> Result<(), Fail> {
    let (_first, port) = listening_hub(&rt)?;
    let mut hub = MioHub::new(&rt, rt.alloc());
    let mut ready = ReadyList::new();
    assert!(rt; !listens(&mut hub, port));
    assert_eq!(rt; waits(&mut hub, 0, &mut ready), Waited::Failed);
    assert_eq!(rt; accepts(&mut hub), AcceptAnswer::NotNow);
    assert_eq!(rt; reads(&mut hub, 1, &mut [0]), ReadAnswer::Failed);
    assert_eq!(rt; writes(&mut hub, 1, &[0]), WriteAnswer::Failed);
    assert!(rt; closes(&mut hub, 1));
    // The fault is over with the call: it listens later, and once.
    assert!(rt; listens(&mut hub, 0));
    assert_eq!(rt; waits(&mut hub, 0, &mut ready), Waited::Ready);
    assert!(rt; !listens(&mut hub, 0));
    assert_eq!(rt; waits(&mut hub, 0, &mut ready), Waited::Ready);
    Ok(())
}

#[test]
fn a_link_that_nobody_accepts_is_not_connected(rt: HostRuntime) -> Result<(), Fail> {
    let nobody = free_port(&rt)?;
    let mut link = MioLink::new(&rt, rt.alloc());
    for host in ["127.0.0.1", "localhost", "\0"] {
        assert!(rt; !connects(&mut link, host, nobody));
        assert_eq!(rt; link_waits(&mut link), LinkWaited::Failed);
        assert_eq!(rt; link_reads(&mut link, &mut [0]), ReadAnswer::Failed);
        assert_eq!(rt; link_writes(&mut link, &[0]), WriteAnswer::Failed);
        assert!(rt; link_closes(&mut link));
    }
    Ok(())
}

#[test]
fn moments_begin_with_the_hub_and_the_link(rt: HostRuntime) {
    let mut hub = MioHub::new(&rt, rt.alloc());
    let mut link = MioLink::new(&rt, rt.alloc());
    assert!(rt; hub.now().is_ok_and(|moment| moment < 60_000));
    assert!(rt; link.now().is_ok_and(|moment| moment < 60_000));
}
