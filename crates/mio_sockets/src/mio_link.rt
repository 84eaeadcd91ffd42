//! A link over one of the system's sockets.

ghost use Rattle.std.specs.Prelude.{◌≡◌, ◌≢◌, ◌<◌, ◌≤◌, length, IsOk};
ghost use Rattle.hub_acts.specs.LinkActs.{connect_act, link_wait_act, link_now_act, link_read_act, link_write_act, link_close_act};
ghost use Rattle.hub_acts.specs.Hubs.{FitsRead, FitsWrite};
ghost use Rattle.hub_acts.specs.declared.answers.LinkWaited.TheVariants as waited;
ghost use Rattle.hub_acts.specs.declared.answers.ReadAnswer.TheVariants as read;
ghost use Rattle.hub_acts.specs.declared.answers.WriteAnswer.TheVariants as written;

use crate::dialing::{Dialed, dial};
use crate::outside_counts::OutsideCounts;
use crate::stopwatch::Stopwatch;
use crate::streams::{discard_unread, read_some, write_some};
use hub_acts::{CallFault, Link, LinkWaited, ReadAnswer, WriteAnswer};
use share_base::OutOfMemory;
use std::alloc::Global;
use std::net::Net;
use std::time::Clock;

/// A link over TCP.
///
/// It tells its two counts, and no act. Only `connect` allocates, and only it can be out of memory; no
/// later call is. `wait` never answers `Over`. Only `connect` and `wait` wait for the peer. A call that a
/// signal interrupted is made again, but a wait ends early and answers that nothing is ready.
///
/// The stream is reported at a change, once: a reader goes on until it is answered `NotNow`, `End` or
/// `Failed`. It has no delay for small messages (`TCP_NODELAY`).
#[derive(Drop)]
pub struct MioLink<R> {
    runtime: R,
    alloc: Global,
    dialed: Option<Dialed>,
    counts: OutsideCounts,
    stopwatch: Stopwatch,
}

impl<R: Net + Clock + Drop> MioLink<R> {
    ghost use Rattle.mio_sockets.specs.Told.{link_state, new_link};

    /// A link that is not connected yet, whose moments are the milliseconds from now on. Does not
    /// allocate.
    pub fn new(runtime: R, alloc: Global) -> MioLink<R>
        ensures { link_state result ≡ new_link }
    {
        let stopwatch = Stopwatch::start(&runtime);
        MioLink {
            runtime,
            alloc,
            dialed: None,
            counts: OutsideCounts::new(),
            stopwatch,
        }
    }

    fn try_read(&self, buf: &mut [u8]) -> ReadAnswer
        requires { 0 < length buf.old }
        ensures fits { FitsRead result (length buf.old) }
        ensures memory { result ≢ read.OutOfMemory }
    {
        match &self.dialed {
            Some(dialed) => {
                let mut stream = dialed.stream();
                read_some(&mut stream, buf)
            }
            None => ReadAnswer::Failed,
        }
    }

    fn try_write(&self, bytes: &[u8]) -> WriteAnswer
        requires { 0 < length bytes.now }
        ensures fits { FitsWrite result (length bytes.now) }
        ensures memory { result ≢ written.OutOfMemory }
    {
        match &self.dialed {
            Some(dialed) => {
                let mut stream = dialed.stream();
                write_some(&mut stream, bytes)
            }
            None => WriteAnswer::Failed,
        }
    }
}

impl<R: Net + Clock + Drop> Link for MioLink<R> {
    ghost use Rattle.mio_sockets.specs.Told.{link_state, LinkGoesOn, SocketLinkCalls, SocketLinkGoesOn, link_stays, link_goes_on};

    ghost state = { link_state };

    ghost leads = { SocketLinkGoesOn };

    ghost stays = { λ l. link_stays (link_state l) };

    ghost goes_on = { λ old middle new.
        link_goes_on (link_state old) (link_state middle) (link_state new) };

    /// Looks the host up, and tries its addresses in turn until one accepts, each for about ten seconds
    /// at most. It fails if none does. A stream that was connected before is closed on success.
    fn connect(&mut self, host: &str, port: u16) -> Result<(), CallFault>
        ensures calls { SocketLinkCalls (connect_act host.now port result) self.old self.new }
        ensures leads { SocketLinkGoesOn self.old self.new }
    {
        match dial(&self.runtime, self.alloc, host, port) {
            Ok(dialed) => {
                self.dialed = Some(dialed);
                Ok(())
            }
            Err(CallFault::OutOfMemory) => Err(CallFault::OutOfMemory),
            Err(CallFault::Failed) => {
                self.counts.add_fault();
                Err(CallFault::Failed)
            }
        }
    }

    /// Fails if the link is not connected.
    fn wait(&mut self, ms: u32) -> LinkWaited
        ensures calls { SocketLinkCalls (link_wait_act ms result) self.old self.new }
        ensures leads { SocketLinkGoesOn self.old self.new }
        ensures memory { result ≢ waited.OutOfMemory }
        ensures going { result ≢ waited.Over }
    {
        let Some(dialed) = &mut self.dialed else {
            self.counts.add_fault();
            return LinkWaited::Failed;
        };
        match dialed.wait(ms) {
            Ok((readable, writable)) => LinkWaited::Ready { readable, writable },
            Err(_) => {
                self.counts.add_fault();
                LinkWaited::Failed
            }
        }
    }

    /// The milliseconds since the link was made, and never less than before. If the clock fails, the
    /// latest moment again.
    fn now(&mut self) -> Result<u64, OutOfMemory>
        ensures calls { SocketLinkCalls (link_now_act result) self.old self.new }
        ensures leads { SocketLinkGoesOn self.old self.new }
        ensures memory { IsOk result }
    {
        Ok(self.stopwatch.read(&self.runtime))
    }

    /// `End` once the peer sends no more; a write may still succeed then. Fails if the link is not
    /// connected.
    fn read(&mut self, buf: &mut [u8]) -> ReadAnswer
        requires { 0 < length buf.old }
        ensures fits { FitsRead result (length buf.old) }
        ensures calls { SocketLinkCalls (link_read_act buf.new result) self.old self.new }
        ensures leads { SocketLinkGoesOn self.old self.new }
        ensures memory { result ≢ read.OutOfMemory }
    {
        match self.try_read(buf) {
            ReadAnswer::Failed => {
                self.counts.add_break();
                ReadAnswer::Failed
            }
            answer => answer,
        }
    }

    /// Fails once the peer takes no more, and if the link is not connected.
    fn write(&mut self, bytes: &[u8]) -> WriteAnswer
        requires { 0 < length bytes.now }
        ensures fits { FitsWrite result (length bytes.now) }
        ensures calls { SocketLinkCalls (link_write_act bytes.now result) self.old self.new }
        ensures leads { SocketLinkGoesOn self.old self.new }
        ensures memory { result ≢ written.OutOfMemory }
    {
        match self.try_write(bytes) {
            WriteAnswer::Failed => {
                self.counts.add_break();
                WriteAnswer::Failed
            }
            answer => answer,
        }
    }

    /// The peer gets what was written, as far as the system can do it, and then the end.
    fn close(&mut self) -> Result<(), OutOfMemory>
        ensures calls { SocketLinkCalls (link_close_act result) self.old self.new }
        ensures leads { SocketLinkGoesOn self.old self.new }
        ensures memory { IsOk result }
    {
        if let Some(dialed) = &self.dialed {
            let mut stream = dialed.stream();
            discard_unread(&mut stream);
        }
        self.dialed = None;
        Ok(())
    }
}
