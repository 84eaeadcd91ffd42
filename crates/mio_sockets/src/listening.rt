//! A listener, and the set of sockets that are watched with it.

ghost use Rattle.std.specs.Prelude.{◌≡◌, ◌≤◌, [], true, map, OnOk, OnErr};
ghost use Rattle.mio.specs.Events.{items, capacity as events_capacity};
ghost use Rattle.mio_sockets.specs.Marks.{mark_of};

use crate::events::{LISTENER, report};
use hub_acts::{CallFault, MOST_MARKS, ReadyList};
use mio::net::{TcpListener, TcpStream};
use mio::{Events, Interest, Poll, Token};
use std::alloc::Global;
use std::io;
use std::io::ErrorKind;
use std::net::{Ipv4Addr, Net, SocketAddr};
use std::time::Duration;

/// A listener, and what watches it and the connections that it gave.
#[derive(Drop)]
pub(crate) struct Listening {
    poll: Poll,
    events: Events,
    listener: TcpListener,
    // A connection may wait that the system won't report again by itself.
    is_behind: bool,
    ghost few: { events_capacity events ≤ 128 },
}

impl Listening {
    /// Listens at that port of every IPv4 address of this machine; at any free port for 0.
    pub(crate) fn open(net: &impl Net, alloc: Global, port: u16) -> Result<Listening, CallFault> {
        let Ok(events) = Events::with_capacity(alloc, MOST_MARKS) else {
            return Err(CallFault::OutOfMemory);
        };
        match bind(net, port) {
            Ok((poll, listener)) => Ok(Listening {
                poll,
                events,
                listener,
                is_behind: false,
            }),
            Err(_) => Err(CallFault::Failed),
        }
    }

    /// Waits at most that many milliseconds until something is ready, and puts a mark for each event
    /// into the list. Events that don't fit are left to the next wait.
    pub(crate) fn wait(&mut self, ms: u32, ready: &mut ReadyList) -> io::Result<()>
        ensures ok { OnOk result (ready.new ≡ map mark_of (items self.new.events)) }
        ensures err { OnErr result (ready.new ≡ []) }
    {
        ready.clear();
        let timeout = Duration::from_millis(ms as u64);
        self.poll.poll(&mut self.events, Some(timeout))?;
        report(&self.events, ready);
        if !self.events.is_empty() {
            return Ok(());
        }
        self.look_again();
        Ok(())
    }

    /// Accepts a connection that waits, and watches it under that serial. `None` if none waits.
    pub(crate) fn accept(&mut self, serial: u64) -> io::Result<Option<TcpStream>> {
        match self.listener.accept() {
            Ok((mut stream, _)) => {
                // Small messages go out at once. Without the option they only come later.
                let _ = stream.set_nodelay(true);
                let both = Interest::READABLE | Interest::WRITABLE;
                let token = Token(serial as usize);
                self.poll.registry().register(&mut stream, token, both)?;
                Ok(Some(stream))
            }
            Err(error) if error.kind() == ErrorKind::WouldBlock => Ok(None),
            Err(error) => Err(error),
        }
    }

    /// Notes that a connection may wait which was not accepted. It is reported again after a wait that
    /// found nothing, or after a close. To report it at once would end every wait at once, as long as
    /// what kept it from being accepted lasts.
    pub(crate) fn fall_behind(&mut self)
        ensures { self.new ≡ record self.old { is_behind = true } }
    {
        self.is_behind = true;
    }

    /// Has the next wait report the connections that wait, if some may not have been reported.
    fn look_again(&mut self)
        ensures { self.new.events ≡ self.old.events }
    {
        if self.is_behind {
            let registry = self.poll.registry();
            let watched = registry.reregister(&mut self.listener, LISTENER, Interest::READABLE);
            self.is_behind = watched.is_err();
        }
    }

    /// The port that it listens at.
    #[cfg(test)]
    pub(crate) fn port(&self) -> io::Result<u16> {
        Ok(self.listener.local_addr()?.port())
    }
}

/// Has the next wait report the connections that wait, if some may not have been reported.
pub(crate) fn look_again(listening: &mut Option<Listening>) {
    if let Some(listening) = listening {
        listening.look_again();
    }
}

fn bind(net: &impl Net, port: u16) -> io::Result<(Poll, TcpListener)> {
    let poll = Poll::new(net)?;
    let everywhere = SocketAddr::from((Ipv4Addr::UNSPECIFIED, port));
    let mut listener = TcpListener::bind(net, everywhere)?;
    poll.registry()
        .register(&mut listener, LISTENER, Interest::READABLE)?;
    Ok((poll, listener))
}
