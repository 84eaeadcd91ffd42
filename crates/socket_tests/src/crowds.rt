//! More peers than a hub holds.

use crate::meeting::*;
use hub_acts::{AcceptAnswer, MOST_MARKS, Mark, ReadAnswer, ReadyList, Waited, WriteAnswer};
use std::io::{Read, Write};
use std::net::TcpStream;
use std::test::*;
use std::time::{Duration, Instant};

/// How often the listener, at 0, and each of 128 connections, at its serial, was reported.
type Reports = [u8; 129];

/// Counts the marks of a wait.
fn count_marks(ready: &ReadyList, reports: &mut Reports) {
    for mark in ready.as_slice() {
        let index = match mark {
            Mark::Accept => 0,
            Mark::Stream { serial, .. } => *serial as usize,
        };
        if let Some(count) = reports.get_mut(index) {
            *count = count.saturating_add(1);
        }
    }
}

/// Connects that many peers, none of which is accepted yet.
fn crowd(rt: &HostRuntime, port: u16, count: u64) -> Result<Vec<TcpStream>, Fail> {
    let mut peers = Vec::new(rt.alloc());
    for _ in 0..count {
        peers.push(connect(rt, port)?)?;
    }
    Ok(peers)
}

#[test]
fn the_129th_peer_waits_for_a_place(rt: HostRuntime) -> Result<(), Fail> {
    let (mut hub, port) = listening_hub(&rt)?;
    let mut peers = crowd(&rt, port, 129)?;
    for serial in 1..129 {
        assert_eq!(rt; accepts(&mut hub), AcceptAnswer::New(serial));
    }
    assert_eq!(rt; accepts(&mut hub), AcceptAnswer::NotNow);

    // The listener and 128 streams have something to tell, each once: more than one wait reports.
    let mut ready = ReadyList::new();
    let mut reported: Reports = [0; 129];
    assert_eq!(rt; waits(&mut hub, 1000, &mut ready), Waited::Ready);
    assert_eq!(rt; ready.as_slice().len(), MOST_MARKS);
    count_marks(&ready, &mut reported);
    assert_eq!(rt; waits(&mut hub, 1000, &mut ready), Waited::Ready);
    assert_eq!(rt; ready.as_slice().len(), 1);
    count_marks(&ready, &mut reported);
    assert!(rt; reported.iter().all(|count| *count == 1));

    // A wait that finds nothing takes its time.
    let start = Instant::now(&rt)?;
    assert_eq!(rt; waits(&mut hub, 50, &mut ready), Waited::Ready);
    assert_eq!(rt; ready.as_slice().len(), 0);
    assert!(rt; start.elapsed(&rt)? >= Duration::from_millis(50));

    // The one that had no place is reported again, and accepted once there is one.
    assert!(rt; closes(&mut hub, 5));
    assert!(rt; reports(&mut hub, Mark::Accept));
    assert_eq!(rt; accepts(&mut hub), AcceptAnswer::New(129));
    assert_eq!(rt; accepts(&mut hub), AcceptAnswer::NotNow);

    // All but the closed one are served.
    let mut serial = 0u64;
    for peer in &mut peers {
        serial = serial.saturating_add(1);
        if serial != 5 {
            peer.write_all(b"k")?;
            assert!(rt; reports(&mut hub, readable(serial)));
            assert_eq!(rt; reads(&mut hub, serial, &mut [0; 4]), ReadAnswer::Got(1));
            assert_eq!(rt; writes(&mut hub, serial, b"bye"), WriteAnswer::Took(3));
        }
        assert_eq!(rt; peer.read(&mut [0; 4])?, if serial == 5 { 0 } else { 3 });
    }
    Ok(())
}
