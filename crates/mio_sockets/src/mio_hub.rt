//! A hub over the system's sockets.

ghost use Rattle.std.specs.Prelude.{◌≡◌, ◌≢◌, ◌<◌, ◌≤◌, length, IsOk};
ghost use Rattle.hub_acts.specs.Acts.{listen_act, wait_act, now_act, accept_act, read_act, write_act, close_act};
ghost use Rattle.hub_acts.specs.Hubs.{FitsWait, FitsAccept, FitsRead, FitsWrite};
ghost use Rattle.hub_acts.specs.declared.answers.Waited.TheVariants as waited;
ghost use Rattle.hub_acts.specs.declared.answers.AcceptAnswer.TheVariants as accepted;
ghost use Rattle.hub_acts.specs.declared.answers.ReadAnswer.TheVariants as read;
ghost use Rattle.hub_acts.specs.declared.answers.WriteAnswer.TheVariants as written;

use crate::listening::{Listening, look_again};
use crate::outside_counts::OutsideCounts;
use crate::stopwatch::Stopwatch;
use crate::streams::{discard_unread, read_some, write_some};
use hub_acts::{AcceptAnswer, CallFault, Hub, ReadAnswer, ReadyList, Waited, WriteAnswer};
use mio::net::TcpStream;
use share_base::OutOfMemory;
use std::alloc::Global;
use std::net::Net;
use std::time::Clock;

/// The most connections that are open at once. One that comes while so many are open waits until one
/// is closed.
const MOST_OPEN: usize = 128;

/// An accepted connection.
#[derive(Drop)]
struct Connection {
    serial: u64,
    stream: TcpStream,
}

/// A hub over TCP: a listener, and the connections that it gave.
///
/// It tells its two counts and the serials, and no act. Only `listen` allocates, and only it answers
/// `OutOfMemory`. `wait` never answers `Over`, and no other call waits. A call that a signal interrupts
/// is made again, but a wait ends early, with no mark. Calls on a connection that is not open are
/// allowed too.
///
/// A connection is reported once at each change: a reader goes on until it is answered `NotNow`, `End`
/// or `Failed`, and a writer until `NotNow` or `Failed`. Small messages are not delayed (`TCP_NODELAY`).
#[derive(Drop)]
pub struct MioHub<R> {
    runtime: R,
    alloc: Global,
    listening: Option<Listening>,
    connections: Vec<Connection>,
    latest: u64,
    counts: OutsideCounts,
    stopwatch: Stopwatch,
}

impl<R: Net + Clock + Drop> MioHub<R> {
    ghost use Rattle.mio_sockets.specs.Told.{hub_state, new_hub};

    /// A hub that doesn't listen yet, whose moments are the milliseconds from now on. Does not allocate.
    pub fn new(runtime: R, alloc: Global) -> MioHub<R>
        ensures { hub_state result ≡ new_hub }
    {
        let stopwatch = Stopwatch::start(&runtime);
        MioHub {
            runtime,
            alloc,
            listening: None,
            connections: Vec::new(alloc),
            latest: 0,
            counts: OutsideCounts::new(),
            stopwatch,
        }
    }

    /// The stream of a connection, if it is open.
    fn stream(&self, serial: u64) -> Option<&TcpStream> {
        self.connections
            .iter()
            .find(|connection| connection.serial == serial)
            .map(|connection| &connection.stream)
    }

    fn try_read(&self, serial: u64, buf: &mut [u8]) -> ReadAnswer
        requires { 0 < length buf.old }
        ensures fits { FitsRead result (length buf.old) }
        ensures memory { result ≢ read.OutOfMemory }
    {
        match self.stream(serial) {
            Some(mut stream) => read_some(&mut stream, buf),
            None => ReadAnswer::Failed,
        }
    }

    fn try_write(&self, serial: u64, bytes: &[u8]) -> WriteAnswer
        requires { 0 < length bytes.now }
        ensures fits { FitsWrite result (length bytes.now) }
        ensures memory { result ≢ written.OutOfMemory }
    {
        match self.stream(serial) {
            Some(mut stream) => write_some(&mut stream, bytes),
            None => WriteAnswer::Failed,
        }
    }

    fn discard_unread(&self, serial: u64) {
        if let Some(mut stream) = self.stream(serial) {
            discard_unread(&mut stream);
        }
    }
}

impl<R: Net + Clock + Drop> Hub for MioHub<R> {
    ghost use Rattle.mio_sockets.specs.Told.{hub_state, HubGoesOn, SocketHubCalls, SocketHubGoesOn, hub_stays, hub_goes_on};

    ghost state = { hub_state };

    ghost leads = { SocketHubGoesOn };

    ghost stays = { λ h. hub_stays (hub_state h) };

    ghost goes_on = { λ old middle new.
        hub_goes_on (hub_state old) (hub_state middle) (hub_state new) };

    /// Listens at that port of every IPv4 address of this machine, or at a free port for 0. A hub
    /// listens once: it fails if it listens already.
    fn listen(&mut self, port: u16) -> Result<(), CallFault>
        ensures calls { SocketHubCalls (listen_act port result) self.old self.new }
        ensures leads { SocketHubGoesOn self.old self.new }
    {
        if self.listening.is_some() {
            self.counts.add_fault();
            return Err(CallFault::Failed);
        }
        if self.connections.reserve_exact(MOST_OPEN).is_err() {
            return Err(CallFault::OutOfMemory);
        }
        match Listening::open(&self.runtime, self.alloc, port) {
            Ok(listening) => {
                self.listening = Some(listening);
                Ok(())
            }
            Err(CallFault::OutOfMemory) => Err(CallFault::OutOfMemory),
            Err(CallFault::Failed) => {
                self.counts.add_fault();
                Err(CallFault::Failed)
            }
        }
    }

    /// Fails if the hub doesn't listen. It may be called however many connections are open.
    fn wait(&mut self, ms: u32, ready: &mut ReadyList) -> Waited
        ensures fits { FitsWait result ready.old ready.new }
        ensures calls { SocketHubCalls (wait_act ms ready.new result) self.old self.new }
        ensures leads { SocketHubGoesOn self.old self.new }
        ensures memory { result ≢ waited.OutOfMemory }
        ensures going { result ≢ waited.Over }
    {
        let Some(listening) = &mut self.listening else {
            ready.clear();
            self.counts.add_fault();
            return Waited::Failed;
        };
        match listening.wait(ms, ready) {
            Ok(()) => Waited::Ready,
            Err(_) => {
                self.counts.add_fault();
                Waited::Failed
            }
        }
    }

    /// The milliseconds since the hub was made, and never less than before. If the clock fails, the
    /// latest moment again.
    fn now(&mut self) -> Result<u64, OutOfMemory>
        ensures calls { SocketHubCalls (now_act result) self.old self.new }
        ensures leads { SocketHubGoesOn self.old self.new }
        ensures memory { IsOk result }
    {
        Ok(self.stopwatch.read(&self.runtime))
    }

    /// `NotNow` also while as many connections are open as fit, and if the hub doesn't listen.
    fn accept(&mut self) -> AcceptAnswer
        ensures fits { FitsAccept result (hub_state self.old).latest }
        ensures calls { SocketHubCalls (accept_act result) self.old self.new }
        ensures leads { SocketHubGoesOn self.old self.new }
        ensures memory { result ≢ accepted.OutOfMemory }
    {
        let Some(listening) = &mut self.listening else {
            return AcceptAnswer::NotNow;
        };
        if self.connections.len() >= self.connections.capacity() || self.latest == u64::MAX {
            listening.fall_behind();
            return AcceptAnswer::NotNow;
        }
        let serial = self.latest + 1;
        match listening.accept(serial) {
            Ok(Some(stream)) => {
                self.connections
                    .push_reserved(Connection { serial, stream });
                self.latest = serial;
                AcceptAnswer::New(serial)
            }
            Ok(None) => AcceptAnswer::NotNow,
            Err(_) => {
                listening.fall_behind();
                self.counts.add_break();
                AcceptAnswer::Failed
            }
        }
    }

    /// `End` once the peer sends no more; a write may still succeed then. Fails if the connection is not
    /// open.
    fn read(&mut self, serial: u64, buf: &mut [u8]) -> ReadAnswer
        requires { 0 < length buf.old }
        ensures fits { FitsRead result (length buf.old) }
        ensures calls { SocketHubCalls (read_act serial buf.new result) self.old self.new }
        ensures leads { SocketHubGoesOn self.old self.new }
        ensures memory { result ≢ read.OutOfMemory }
    {
        match self.try_read(serial, buf) {
            ReadAnswer::Failed => {
                self.counts.add_break();
                ReadAnswer::Failed
            }
            answer => answer,
        }
    }

    /// Fails once the peer takes no more, and if the connection is not open.
    fn write(&mut self, serial: u64, bytes: &[u8]) -> WriteAnswer
        requires { 0 < length bytes.now }
        ensures fits { FitsWrite result (length bytes.now) }
        ensures calls { SocketHubCalls (write_act serial bytes.now result) self.old self.new }
        ensures leads { SocketHubGoesOn self.old self.new }
        ensures memory { result ≢ written.OutOfMemory }
    {
        match self.try_write(serial, bytes) {
            WriteAnswer::Failed => {
                self.counts.add_break();
                WriteAnswer::Failed
            }
            answer => answer,
        }
    }

    /// The peer gets what was written, as far as the system can do it, and then the end. Does nothing
    /// if the connection is not open.
    fn close(&mut self, serial: u64) -> Result<(), OutOfMemory>
        ensures calls { SocketHubCalls (close_act serial result) self.old self.new }
        ensures leads { SocketHubGoesOn self.old self.new }
        ensures memory { IsOk result }
    {
        self.discard_unread(serial);
        self.connections
            .retain(|connection| connection.serial != serial);
        look_again(&mut self.listening);
        Ok(())
    }
}
