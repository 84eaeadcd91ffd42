//! A hub, links and peers that meet on this machine.

ghost use Rattle.std.specs.Prelude.{◌<◌, length};

use hub_acts::{
    AcceptAnswer, Hub, Link, LinkWaited, Mark, ReadAnswer, ReadyList, Waited, WriteAnswer,
};
use mio_sockets::{MioHub, MioLink};
use std::io;
use std::net::{Ipv4Addr, SocketAddr, TcpListener, TcpStream};
use std::test::*;

pub(crate) type TestHub<'a> = MioHub<&'a HostRuntime>;

pub(crate) type TestLink<'a> = MioLink<&'a HostRuntime>;

// The calls without what they ensure, which the tests don't need.

pub(crate) fn listens(hub: &mut TestHub<'_>, port: u16) -> bool {
    hub.listen(port).is_ok()
}

pub(crate) fn accepts(hub: &mut TestHub<'_>) -> AcceptAnswer {
    hub.accept()
}

pub(crate) fn waits(hub: &mut TestHub<'_>, ms: u32, ready: &mut ReadyList) -> Waited {
    hub.wait(ms, ready)
}

pub(crate) fn reads(hub: &mut TestHub<'_>, serial: u64, buf: &mut [u8]) -> ReadAnswer
    requires { 0 < length buf.old }
{
    hub.read(serial, buf)
}

pub(crate) fn writes(hub: &mut TestHub<'_>, serial: u64, bytes: &[u8]) -> WriteAnswer
    requires { 0 < length bytes.now }
{
    hub.write(serial, bytes)
}

pub(crate) fn closes(hub: &mut TestHub<'_>, serial: u64) -> bool {
    hub.close(serial).is_ok()
}

pub(crate) fn connects(link: &mut TestLink<'_>, host: &str, port: u16) -> bool {
    link.connect(host, port).is_ok()
}

pub(crate) fn link_waits(link: &mut TestLink<'_>) -> LinkWaited {
    link.wait(1000)
}

pub(crate) fn link_reads(link: &mut TestLink<'_>, buf: &mut [u8]) -> ReadAnswer
    requires { 0 < length buf.old }
{
    link.read(buf)
}

pub(crate) fn link_writes(link: &mut TestLink<'_>, bytes: &[u8]) -> WriteAnswer
    requires { 0 < length bytes.now }
{
    link.write(bytes)
}

pub(crate) fn link_closes(link: &mut TestLink<'_>) -> bool {
    link.close().is_ok()
}

/// A port that nobody listened at a moment ago.
pub(crate) fn free_port(rt: &HostRuntime) -> io::Result<u16> {
    let listener = TcpListener::bind(rt, SocketAddr::from((Ipv4Addr::LOCALHOST, 0)))?;
    Ok(listener.local_addr()?.port())
}

/// A hub that listens, and its port. Another process may take the port that was free, so it tries a
/// few.
pub(crate) fn listening_hub(rt: &HostRuntime) -> Result<(TestHub<'_>, u16), Fail> {
    for _ in 0..20 {
        let port = free_port(rt)?;
        let mut hub = MioHub::new(rt, rt.alloc());
        if listens(&mut hub, port) {
            return Ok((hub, port));
        }
    }
    Err(Fail::new("listen"))
}

/// Whether a mark that says at least this comes within about twenty seconds.
pub(crate) fn reports(hub: &mut TestHub<'_>, wanted: Mark) -> bool {
    let mut ready = ReadyList::new();
    for _ in 0..20 {
        if waits(hub, 1000, &mut ready) != Waited::Ready {
            return false;
        }
        if ready.as_slice().iter().any(|mark| fits(*mark, wanted)) {
            return true;
        }
    }
    false
}

/// Whether a mark says at least what another says.
fn fits(mark: Mark, wanted: Mark) -> bool {
    match (mark, wanted) {
        (Mark::Accept, Mark::Accept) => true,
        (
            Mark::Stream {
                serial,
                readable,
                writable,
            },
            Mark::Stream {
                serial: other,
                readable: reads,
                writable: writes,
            },
        ) => serial == other && (readable || !reads) && (writable || !writes),
        _ => false,
    }
}

pub(crate) fn readable(serial: u64) -> Mark {
    Mark::Stream {
        serial,
        readable: true,
        writable: false,
    }
}

/// Whether the link has something to read within about twenty seconds.
pub(crate) fn has_news(link: &mut TestLink<'_>) -> bool {
    for _ in 0..20 {
        match link_waits(link) {
            LinkWaited::Ready { readable: true, .. } => return true,
            LinkWaited::Ready { .. } => {}
            _ => return false,
        }
    }
    false
}

/// A hub that listens at a port, and a link that it accepted as 1.
pub(crate) fn meet(rt: &HostRuntime) -> Result<(TestHub<'_>, TestLink<'_>, u16), Fail> {
    let (mut hub, port) = listening_hub(rt)?;
    let mut link = MioLink::new(rt, rt.alloc());
    if connects(&mut link, "localhost", port)
        && reports(&mut hub, Mark::Accept)
        && accepts(&mut hub) == AcceptAnswer::New(1)
    {
        Ok((hub, link, port))
    } else {
        Err(Fail::new("meet"))
    }
}

/// Connects a peer to that port of this machine.
pub(crate) fn connect(rt: &HostRuntime, port: u16) -> io::Result<TcpStream> {
    TcpStream::connect(rt, SocketAddr::from((Ipv4Addr::LOCALHOST, port)))
}

/// Connects a peer to the hub, which accepts it under that serial.
pub(crate) fn join(
    rt: &HostRuntime,
    hub: &mut TestHub<'_>,
    port: u16,
    serial: u64,
) -> Result<TcpStream, Fail> {
    let peer = connect(rt, port)?;
    if reports(hub, Mark::Accept) && accepts(hub) == AcceptAnswer::New(serial) {
        Ok(peer)
    } else {
        Err(Fail::new("join"))
    }
}
