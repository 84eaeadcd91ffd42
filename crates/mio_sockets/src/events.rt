//! What the system's events mean.

ghost use Rattle.std.specs.Prelude.{◌≡◌, ◌≤◌, [], map, length};
ghost use Rattle.std.specs.List.{list_any};
ghost use Rattle.mio.specs.Events.{items};
ghost use Rattle.mio_sockets.specs.Marks.{may_read, may_write, mark_of};

use hub_acts::{Mark, ReadyList};
use mio::event::Event;
use mio::{Events, Token};

/// The token of a hub's listener. No connection has it as its serial.
pub(crate) const LISTENER: Token = Token(0);

/// Whether a read has something to tell: bytes, the end or a failure.
fn may_read(event: &Event) -> bool
    ensures { result ≡ may_read event.now }
{
    event.is_readable() || event.is_read_closed() || event.is_error()
}

/// Whether a write has something to tell: that there is room, or a failure.
fn may_write(event: &Event) -> bool
    ensures { result ≡ may_write event.now }
{
    event.is_writable() || event.is_write_closed() || event.is_error()
}

/// The mark of one event.
fn mark_of(event: &Event) -> Mark
    ensures { result ≡ mark_of event.now }
{
    let token = event.token().0;
    if token == 0 {
        return Mark::Accept;
    }
    Mark::Stream {
        serial: token as u64,
        readable: may_read(event),
        writable: may_write(event),
    }
}

/// Puts a mark for each event into the list, in their order.
pub(crate) fn report(events: &Events, ready: &mut ReadyList)
    requires empty { ready.old ≡ [] }
    requires few { length (items events.now) ≤ 128 }
    ensures { ready.new ≡ map mark_of (items events.now) }
{
    for event in events {
        ready.push(mark_of(event));
    }
}

/// Whether some event says that a read has something to tell.
pub(crate) fn some_may_read(events: &Events) -> bool
    ensures { result ≡ list_any may_read (items events.now) }
{
    events.iter().any(|event| may_read(event))
}

/// Whether some event says that a write has something to tell.
pub(crate) fn some_may_write(events: &Events) -> bool
    ensures { result ≡ list_any may_write (items events.now) }
{
    events.iter().any(|event| may_write(event))
}
