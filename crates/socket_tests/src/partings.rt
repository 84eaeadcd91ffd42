//! Streams that end: closed, reset, or half open.

use crate::meeting::*;
use crate::partings::Parting::{Closes, Resets, SendsAndCloses, SendsNoMore};
use hub_acts::{AcceptAnswer, Mark, ReadAnswer, WriteAnswer};
use mio_sockets::MioLink;
use std::io::{Read, Write};
use std::net::{Ipv4Addr, Shutdown, SocketAddr, TcpListener, TcpStream};
use std::test::*;

/// What a peer does with its stream.
#[derive(Clone, Copy, PartialEq, Eq)]
enum Parting {
    Closes,
    SendsAndCloses,
    /// Closes the stream while bytes wait in it, and so resets it.
    Resets,
    /// Closes its side alone: the stream is half open.
    SendsNoMore,
}

/// What the reads and then a write of the other end answer.
const ROWS: [(Parting, [ReadAnswer; 2], WriteAnswer); 4] = [
    (
        Closes,
        [ReadAnswer::End, ReadAnswer::End],
        WriteAnswer::Took(3),
    ),
    (
        SendsAndCloses,
        [ReadAnswer::Got(2), ReadAnswer::End],
        WriteAnswer::Took(3),
    ),
    (
        Resets,
        [ReadAnswer::Failed, ReadAnswer::End],
        WriteAnswer::Failed,
    ),
    (
        SendsNoMore,
        [ReadAnswer::End, ReadAnswer::End],
        WriteAnswer::Took(3),
    ),
];

/// Parts so, and returns the stream that is half open.
fn part(mut peer: TcpStream, parting: Parting) -> Result<Option<TcpStream>, Fail> {
    match parting {
        Closes | Resets => Ok(None),
        SendsAndCloses => {
            peer.write_all(b"ok")?;
            Ok(None)
        }
        SendsNoMore => {
            peer.shutdown(Shutdown::Write)?;
            Ok(Some(peer))
        }
    }
}

/// Whether the peer reads `bye`, and then the end.
fn reads_a_goodbye(peer: &mut TcpStream) -> Result<bool, Fail> {
    let mut buf = [0; 4];
    Ok(peer.read(&mut buf)? == 3 && &buf == b"bye\0" && peer.read(&mut buf)? == 0)
}

#[test]
fn the_hub_outlives_each_parting(rt: HostRuntime) -> Result<(), Fail> {
    let (mut hub, port) = listening_hub(&rt)?;
    let mut other = join(&rt, &mut hub, port, 1)?;
    let mut serial = 1u64;
    for (parting, answers, written) in ROWS {
        serial = serial.saturating_add(1);
        let peer = join(&rt, &mut hub, port, serial)?;
        if parting == Resets {
            assert_eq!(rt; writes(&mut hub, serial, b"unread"), WriteAnswer::Took(6));
        }
        let half_open = part(peer, parting)?;
        assert!(rt; reports(&mut hub, readable(serial)));
        for answer in answers {
            assert_eq!(rt; reads(&mut hub, serial, &mut [0; 4]), answer);
        }
        assert_eq!(rt; writes(&mut hub, serial, b"bye"), written);
        assert!(rt; closes(&mut hub, serial));
        if let Some(mut peer) = half_open {
            assert!(rt; reads_a_goodbye(&mut peer)?);
        }
        // No other connection is touched, and none is where one was closed.
        other.write_all(b"k")?;
        assert!(rt; reports(&mut hub, readable(1)));
        assert_eq!(rt; reads(&mut hub, 1, &mut [0; 4]), ReadAnswer::Got(1));
        assert_eq!(rt; reads(&mut hub, serial, &mut [0; 4]), ReadAnswer::Failed);
        assert_eq!(rt; writes(&mut hub, serial, b"bye"), WriteAnswer::Failed);
    }
    Ok(())
}

#[test]
fn the_link_outlives_each_parting(rt: HostRuntime) -> Result<(), Fail> {
    let listener = TcpListener::bind(&rt, SocketAddr::from((Ipv4Addr::LOCALHOST, 0)))?;
    let port = listener.local_addr()?.port();
    let mut link = MioLink::new(&rt, rt.alloc());
    for (parting, answers, written) in ROWS {
        assert!(rt; connects(&mut link, "127.0.0.1", port));
        let (peer, _) = listener.accept()?;
        if parting == Resets {
            assert_eq!(rt; link_writes(&mut link, b"unread"), WriteAnswer::Took(6));
        }
        let half_open = part(peer, parting)?;
        assert!(rt; has_news(&mut link));
        for answer in answers {
            assert_eq!(rt; link_reads(&mut link, &mut [0; 4]), answer);
        }
        assert_eq!(rt; link_writes(&mut link, b"bye"), written);
        assert!(rt; link_closes(&mut link));
        if let Some(mut peer) = half_open {
            assert!(rt; reads_a_goodbye(&mut peer)?);
        }
        assert_eq!(rt; link_reads(&mut link, &mut [0; 4]), ReadAnswer::Failed);
        assert_eq!(rt; link_writes(&mut link, b"bye"), WriteAnswer::Failed);
    }
    Ok(())
}

#[test]
fn a_serial_is_not_given_again(rt: HostRuntime) -> Result<(), Fail> {
    let (mut hub, mut link, port) = meet(&rt)?;
    assert!(rt; link_closes(&mut link));
    assert!(rt; reports(&mut hub, readable(1)));
    assert_eq!(rt; reads(&mut hub, 1, &mut [0]), ReadAnswer::End);
    assert!(rt; closes(&mut hub, 1));
    assert!(rt; connects(&mut link, "127.0.0.1", port));
    assert!(rt; reports(&mut hub, Mark::Accept));
    assert_eq!(rt; accepts(&mut hub), AcceptAnswer::New(2));
    Ok(())
}

/// The listener goes with its hub: a link that it accepted sees the end, one that waited is reset,
/// and no other connects.
#[test]
fn links_outlive_a_closed_listener(rt: HostRuntime) -> Result<(), Fail> {
    let (hub, mut link, port) = meet(&rt)?;
    let mut waiting = MioLink::new(&rt, rt.alloc());
    assert!(rt; connects(&mut waiting, "127.0.0.1", port));
    drop(hub);
    assert!(rt; has_news(&mut link));
    assert_eq!(rt; link_reads(&mut link, &mut [0]), ReadAnswer::End);
    assert!(rt; has_news(&mut waiting));
    assert_eq!(rt; link_reads(&mut waiting, &mut [0]), ReadAnswer::Failed);
    assert!(rt; link_closes(&mut link) && link_closes(&mut waiting));
    assert!(rt; !connects(&mut link, "127.0.0.1", port));
    assert!(rt; !connects(&mut waiting, "127.0.0.1", port));
    Ok(())
}
