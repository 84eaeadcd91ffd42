//! Bytes that are read and written.

use crate::meeting::*;
use hub_acts::{Mark, ReadAnswer, ReadyList, Waited, WriteAnswer};
use std::io::{Read, Write};
use std::test::*;

#[test]
fn the_hub_reads_in_pieces(rt: HostRuntime) -> Result<(), Fail> {
    let (mut hub, mut link, _) = meet(&rt)?;
    let mut buf = [0; 4];
    assert_eq!(rt; reads(&mut hub, 1, &mut buf), ReadAnswer::NotNow);
    assert_eq!(rt; link_writes(&mut link, b"abcdef"), WriteAnswer::Took(6));
    assert!(rt; reports(&mut hub, readable(1)));
    assert_eq!(rt; reads(&mut hub, 1, &mut buf), ReadAnswer::Got(4));
    assert_eq!(rt; reads(&mut hub, 1, &mut buf), ReadAnswer::Got(2));
    assert_eq!(rt; buf, *b"efcd");
    assert_eq!(rt; reads(&mut hub, 1, &mut buf), ReadAnswer::NotNow);
    Ok(())
}

#[test]
fn the_link_reads_in_pieces(rt: HostRuntime) -> Result<(), Fail> {
    let (mut hub, mut link, _) = meet(&rt)?;
    let mut buf = [0; 4];
    assert_eq!(rt; link_reads(&mut link, &mut buf), ReadAnswer::NotNow);
    assert_eq!(rt; writes(&mut hub, 1, b"abcdef"), WriteAnswer::Took(6));
    assert!(rt; has_news(&mut link));
    assert_eq!(rt; link_reads(&mut link, &mut buf), ReadAnswer::Got(4));
    assert_eq!(rt; link_reads(&mut link, &mut buf), ReadAnswer::Got(2));
    assert_eq!(rt; buf, *b"efcd");
    assert_eq!(rt; link_reads(&mut link, &mut buf), ReadAnswer::NotNow);
    Ok(())
}

#[test]
fn bytes_that_were_written_outlive_a_close(rt: HostRuntime) -> Result<(), Fail> {
    let (mut hub, port) = listening_hub(&rt)?;
    let mut peer = join(&rt, &mut hub, port, 1)?;
    let mut buf = [0; 4];
    peer.write_all(b"nobody reads this")?;
    assert!(rt; reports(&mut hub, readable(1)));
    assert_eq!(rt; writes(&mut hub, 1, b"bye"), WriteAnswer::Took(3));
    assert!(rt; closes(&mut hub, 1));
    assert_eq!(rt; peer.read(&mut buf)?, 3);
    assert_eq!(rt; peer.read(&mut buf)?, 0);
    Ok(())
}

#[test]
fn a_full_stream_takes_more_once_it_is_read(rt: HostRuntime) -> Result<(), Fail> {
    let (mut hub, port) = listening_hub(&rt)?;
    let mut peer = join(&rt, &mut hub, port, 1)?;
    let mut buf = [7; 4096];
    let mut written = 0u64;
    let mut last = WriteAnswer::NotNow;
    for _ in 0..1_000_000 {
        last = writes(&mut hub, 1, &buf);
        match last {
            WriteAnswer::Took(n) => written = written.saturating_add(n as u64),
            _ => break,
        }
    }
    assert_eq!(rt; last, WriteAnswer::NotNow);
    let mut ready = ReadyList::new();
    assert_eq!(rt; waits(&mut hub, 0, &mut ready), Waited::Ready);
    assert_eq!(rt; waits(&mut hub, 0, &mut ready), Waited::Ready);
    assert_eq!(rt; ready.as_slice().len(), 0);
    let mut read = 0u64;
    for _ in 0..1_000_000 {
        if read >= written {
            break;
        }
        read = read.saturating_add(peer.read(&mut buf)? as u64);
    }
    assert_eq!(rt; read, written);
    let writable = Mark::Stream {
        serial: 1,
        readable: false,
        writable: true,
    };
    assert!(rt; reports(&mut hub, writable));
    assert_eq!(rt; writes(&mut hub, 1, b"x"), WriteAnswer::Took(1));
    Ok(())
}
