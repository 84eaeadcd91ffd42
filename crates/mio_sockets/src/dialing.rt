//! A stream to a peer, and what watches it.

use crate::events::{some_may_read, some_may_write};
use hub_acts::CallFault;
use mio::net::TcpStream;
use mio::{Events, Interest, Poll, Token};
use std::alloc::Global;
use std::io;
use std::io::ErrorKind;
use std::net::{Net, SocketAddr, ToSocketAddrs};
use std::time::Duration;

/// The token of the one stream.
const STREAM: Token = Token(1);

/// How many waits of one second an address has to accept.
const MOST_WAITS: usize = 10;

/// A connected stream, and what watches it.
#[derive(Drop)]
pub(crate) struct Dialed {
    poll: Poll,
    events: Events,
    stream: TcpStream,
}

impl Dialed {
    /// The stream.
    pub(crate) fn stream(&self) -> &TcpStream {
        &self.stream
    }

    /// Waits at most that many milliseconds, and returns whether a read and whether a write has
    /// something to tell since the wait before.
    pub(crate) fn wait(&mut self, ms: u32) -> io::Result<(bool, bool)> {
        let timeout = Duration::from_millis(ms as u64);
        self.poll.poll(&mut self.events, Some(timeout))?;
        Ok((some_may_read(&self.events), some_may_write(&self.events)))
    }
}

/// Looks the host up, and tries its addresses in turn until one accepts.
pub(crate) fn dial(
    net: &impl Net,
    alloc: Global,
    host: &str,
    port: u16,
) -> Result<Dialed, CallFault> {
    let Ok(mut events) = Events::with_capacity(alloc, 4) else {
        return Err(CallFault::OutOfMemory);
    };
    match dial_any(net, host, port, &mut events) {
        Ok((poll, stream)) => Ok(Dialed {
            poll,
            events,
            stream,
        }),
        Err(_) => Err(CallFault::Failed),
    }
}

fn dial_any(
    net: &impl Net,
    host: &str,
    port: u16,
    events: &mut Events,
) -> io::Result<(Poll, TcpStream)> {
    let mut last = io::Error::from(ErrorKind::NotFound);
    for address in (host, port).to_socket_addrs(net)? {
        match dial_one(net, address, events) {
            Ok(connected) => return Ok(connected),
            Err(error) => last = error,
        }
    }
    Err(last)
}

/// Begins to connect, and waits until the peer has accepted.
fn dial_one(
    net: &impl Net,
    address: SocketAddr,
    events: &mut Events,
) -> io::Result<(Poll, TcpStream)> {
    let mut poll = Poll::new(net)?;
    let mut stream = TcpStream::connect(net, address)?;
    let both = Interest::READABLE | Interest::WRITABLE;
    poll.registry().register(&mut stream, STREAM, both)?;
    for _ in 0..MOST_WAITS {
        poll.poll(events, Some(Duration::from_millis(1000)))?;
        if let Some(error) = stream.take_error()? {
            return Err(error);
        }
        if stream.peer_addr().is_ok() {
            // Small messages go out at once. Without the option they only come later.
            let _ = stream.set_nodelay(true);
            // So the first wait reports what the connect found.
            poll.registry().reregister(&mut stream, STREAM, both)?;
            return Ok((poll, stream));
        }
    }
    Err(io::Error::from(ErrorKind::TimedOut))
}
