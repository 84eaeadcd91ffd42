//! A link in memory.

ghost use Rattle.std.specs.Prelude.{◌≡◌, ◌==◌, ◌<◌, ◌≤◌, ◌++◌, ◌∷◌, [], length, IfOk, OnOk, OnErr};
ghost use Rattle.hub_acts.specs.LinkActs.{link_wait_act, link_read_act, link_write_act};
ghost use Rattle.hub_acts.specs.Hubs.{FitsRead, FitsWrite};
ghost use Rattle.hub_acts.specs.declared.act.Act.TheVariants as act;
ghost use Rattle.hub_acts.specs.declared.answers.WriteAnswer.TheVariants as written;
ghost use Rattle.hub_mem.specs.Stories.{clock_in, next_turn};
ghost use Rattle.hub_mem.specs.Answers.{Played, Plays, is_to_fail, listen_given, story};
ghost use Rattle.hub_mem.specs.Standing.{IsNoByte, IsNoByteOrNoMemory, IsNotTaken, IsNotTakenOrNoMemory};
ghost use Rattle.link_mem.specs.LinkAnswers.{link_of, ready_by, link_wait_given, link_end_given, link_front_read, link_write_given};
ghost use Rattle.link_mem.specs.LinkPlays.{PlaysConnect, PlaysLinkWait, PlaysLinkNow, PlaysLinkRead, PlaysLinkWrite, PlaysLinkClose};
ghost use Rattle.link_mem.specs.LinkStanding.{LinkIsQuiet, IsReady, LinkIsNoTurn, none_link_read_act};

use crate::link_playback::LinkPlayback;
use hub_acts::{Act, CallFault, LinkWaited, ReadAnswer, WriteAnswer};
use hub_mem::Ledger;
use script_screen::Trace;
use share_base::{Octets, OutOfMemory};
use std::alloc::Global;
use std::marker::Model;

/// A link that a trace drives, with a list of the calls that fail. Its calls of `connect`, `wait`,
/// `read` and `write` are numbered from 1 in the order in which they are made.
///
/// Its stream is connection 1 of the trace, which is there from the start, whether or not the link
/// connected. Lines that join do nothing, and once the link is closed no line for it does anything.
/// Each wait that does not fail brings the next turn of the trace, whatever its timeout, and after
/// the last turn it answers `Over`. `now` answers the moment of the latest turn, 0 before the
/// first. Contracts see the trace, the list and the acts so far, which determine every answer.
#[derive(Drop)]
pub struct MemoryLink {
    alloc: Global,
    playback: LinkPlayback,
    ledger: Ledger,
}

impl Model for MemoryLink {
    ghost use Rattle.hub_mem.specs.Answers.{Played};
    ghost use Rattle.link_mem.specs.LinkStanding.{LinkIsSound};

    ghost Value = { Played };

    ghost view = { λ k. record {
      lines = k.playback.lines;
      failing = k.ledger.failing;
      acts = k.ledger.acts;
    } };

    ghost invariant = { λ k. LinkIsSound k.playback k.ledger.acts };
}

impl MemoryLink {
    /// A link that this trace drives, whose calls of the listed numbers fail.
    pub fn of_trace(alloc: Global, trace: Trace, failing: &[u64]) -> Result<MemoryLink, OutOfMemory>
        ensures { IfOk result
            (λ k. k ≡ record { lines = trace; failing = failing.now; acts = [] }) }
    {
        let playback = LinkPlayback::of_trace(alloc, trace)?;
        let ledger = Ledger::new(alloc, failing)?;
        Ok(MemoryLink {
            alloc,
            playback,
            ledger,
        })
    }

    /// The acts so far, first to last.
    pub fn acts(&self) -> &[Act]
        ensures { result.now ≡ self.now.acts }
    {
        self.ledger.acts()
    }

    /// Whether the next numbered call is to fail.
    fn is_to_fail(&self) -> bool
        ensures { result ≡ is_to_fail self.now }
    {
        self.ledger.is_to_fail()
    }

    /// Adds an act that brings no turn and moves no stream. On `OutOfMemory` nothing changed.
    fn add_quiet(&mut self, act: Act) -> Result<(), OutOfMemory>
        requires { LinkIsQuiet act }
        ensures ok { OnOk result (self.new ≡ record self.old { acts = self.old.acts ++ act ∷ [] }) }
        ensures err { OnErr result (self.new ≡ self.old) }
    {
        self.ledger.add(act)?;
        Ok(())
    }

    /// What the next connect answers.
    fn next_connect(&self) -> Result<(), CallFault>
        ensures { result ≡ listen_given self.now }
    {
        if self.is_to_fail() {
            Err(CallFault::Failed)
        } else {
            Ok(())
        }
    }

    pub(crate) fn play_connect(&mut self, host: &str, port: u16) -> Result<(), CallFault>
        ensures { PlaysConnect host.now port result self.old self.new }
    {
        let answer = self.next_connect();
        let mut name = Octets::new(self.alloc);
        let Ok(()) = name.extend(host.as_bytes()) else {
            return Err(CallFault::OutOfMemory);
        };
        match self.add_quiet(Act::LinkConnect {
            host: name,
            port,
            answer,
        }) {
            Ok(()) => answer,
            Err(_) => Err(CallFault::OutOfMemory),
        }
    }

    /// Whether all lines have come.
    fn is_over(&self) -> bool
        ensures { result ≡ (length (story self.now).ahead == 0) }
    {
        self.playback.is_over()
    }

    /// What the next turn makes the link ready for.
    fn next_ready(&self) -> LinkWaited
        ensures { result ≡ ready_by (link_of self.now).is_open (next_turn (story self.now).ahead) }
    {
        self.playback.next_ready()
    }

    /// What the next wait answers.
    fn next_wait(&self) -> LinkWaited
        ensures { result ≡ link_wait_given self.now }
    {
        if self.is_to_fail() {
            return LinkWaited::Failed;
        }
        if self.is_over() {
            return LinkWaited::Over;
        }
        self.next_ready()
    }

    /// A wait that brings the next turn.
    fn wait_for_turn(&mut self, ms: u32, answer: LinkWaited) -> LinkWaited
        requires { IsReady answer }
        ensures { Plays (act.LinkWait ms answer) (link_wait_act ms result) self.old self.new }
    {
        match self.ledger.add(Act::LinkWait { ms, answer }) {
            Ok(()) => {
                self.playback.advance();
                answer
            }
            Err(_) => LinkWaited::OutOfMemory,
        }
    }

    /// A wait that brings no turn.
    fn wait_for_none(&mut self, ms: u32, answer: LinkWaited) -> LinkWaited
        requires { LinkIsNoTurn answer }
        ensures { Plays (act.LinkWait ms answer) (link_wait_act ms result) self.old self.new }
    {
        match self.add_quiet(Act::LinkWait { ms, answer }) {
            Ok(()) => answer,
            Err(_) => LinkWaited::OutOfMemory,
        }
    }

    pub(crate) fn play_wait(&mut self, ms: u32) -> LinkWaited
        ensures { PlaysLinkWait ms result self.old self.new }
    {
        let answer = self.next_wait();
        match answer {
            LinkWaited::Ready { .. } => self.wait_for_turn(ms, answer),
            _ => self.wait_for_none(ms, answer),
        }
    }

    /// The moment of the latest turn, 0 before the first.
    fn clock(&self) -> u64
        ensures { result ≡ clock_in (story self.now).scenes }
    {
        self.playback.clock()
    }

    pub(crate) fn play_now(&mut self) -> Result<u64, OutOfMemory>
        ensures { PlaysLinkNow result self.old self.new }
    {
        let moment = self.clock();
        self.add_quiet(Act::LinkNow { moment })?;
        Ok(moment)
    }

    /// What the next read answers where it gives no byte, `None` if it gives some.
    fn next_end(&self) -> Option<ReadAnswer>
        ensures { result ≡ link_end_given self.now }
    {
        if self.is_to_fail() {
            return Some(ReadAnswer::Failed);
        }
        let stream = self.playback.stream();
        if stream.unread().is_empty() {
            Some(stream.end_answer())
        } else {
            None
        }
    }

    /// A read that gives no byte.
    fn read_none(&mut self, room: usize, answer: ReadAnswer) -> ReadAnswer
        requires { IsNoByte answer }
        ensures fits { IsNoByteOrNoMemory result }
        ensures plays { Plays (act.LinkRead room answer []) (none_link_read_act room result)
            self.old self.new }
    {
        let bytes = Octets::new(self.alloc);
        match self.add_quiet(Act::LinkRead {
            room,
            answer,
            bytes,
        }) {
            Ok(()) => answer,
            Err(_) => ReadAnswer::OutOfMemory,
        }
    }

    /// A read of bytes that are there.
    fn read_some(&mut self, buf: &mut [u8]) -> ReadAnswer
        requires room { 0 < length buf.old }
        requires some { 0 < length (link_of self.old).stream.unread }
        ensures fits { FitsRead result (length buf.old) }
        ensures plays { Plays (link_front_read (length buf.old) (link_of self.old).stream)
            (link_read_act buf.new result) self.old self.new }
    {
        let room = buf.len();
        let Ok(bytes) = self.playback.stream().copy_front(self.alloc, buf) else {
            return ReadAnswer::OutOfMemory;
        };
        let count = bytes.len();
        let answer = ReadAnswer::Got(count);
        match self.ledger.add(Act::LinkRead {
            room,
            answer,
            bytes,
        }) {
            Ok(()) => {
                self.playback.skip(count);
                answer
            }
            Err(_) => ReadAnswer::OutOfMemory,
        }
    }

    pub(crate) fn play_read(&mut self, buf: &mut [u8]) -> ReadAnswer
        requires { 0 < length buf.old }
        ensures fits { FitsRead result (length buf.old) }
        ensures plays { PlaysLinkRead (length buf.old) buf.new result self.old self.new }
    {
        match self.next_end() {
            Some(answer) => self.read_none(buf.len(), answer),
            None => self.read_some(buf),
        }
    }

    /// What the next write of that many bytes answers.
    fn next_write(&self, offered: usize) -> WriteAnswer
        ensures { result ≡ link_write_given self.now offered }
    {
        if self.is_to_fail() {
            return WriteAnswer::Failed;
        }
        self.playback.stream().write_answer(offered)
    }

    /// A write that takes no byte.
    fn write_none(&mut self, bytes: &[u8], answer: WriteAnswer) -> WriteAnswer
        requires { IsNotTaken answer }
        ensures fits { IsNotTakenOrNoMemory result }
        ensures plays { Plays (act.LinkWrite bytes.now answer) (link_write_act bytes.now result)
            self.old self.new }
    {
        let mut offered = Octets::new(self.alloc);
        let Ok(()) = offered.extend(bytes) else {
            return WriteAnswer::OutOfMemory;
        };
        match self.add_quiet(Act::LinkWrite {
            bytes: offered,
            answer,
        }) {
            Ok(()) => answer,
            Err(_) => WriteAnswer::OutOfMemory,
        }
    }

    /// A write that takes that many bytes.
    fn write_some(&mut self, bytes: &[u8], count: usize) -> WriteAnswer
        requires { (0 < count) × (count ≤ length bytes.now) }
        ensures fits { FitsWrite result (length bytes.now) }
        ensures plays { Plays (act.LinkWrite bytes.now (written.Took count))
            (link_write_act bytes.now result) self.old self.new }
    {
        let mut offered = Octets::new(self.alloc);
        let Ok(()) = offered.extend(bytes) else {
            return WriteAnswer::OutOfMemory;
        };
        let answer = WriteAnswer::Took(count);
        match self.ledger.add(Act::LinkWrite {
            bytes: offered,
            answer,
        }) {
            Ok(()) => {
                self.playback.take(count);
                answer
            }
            Err(_) => WriteAnswer::OutOfMemory,
        }
    }

    pub(crate) fn play_write(&mut self, bytes: &[u8]) -> WriteAnswer
        requires { 0 < length bytes.now }
        ensures fits { FitsWrite result (length bytes.now) }
        ensures plays { PlaysLinkWrite bytes.now result self.old self.new }
    {
        match self.next_write(bytes.len()) {
            WriteAnswer::Took(count) => self.write_some(bytes, count),
            answer => self.write_none(bytes, answer),
        }
    }

    pub(crate) fn play_close(&mut self) -> Result<(), OutOfMemory>
        ensures { PlaysLinkClose result self.old self.new }
    {
        self.ledger.add(Act::LinkClose)?;
        self.playback.close();
        Ok(())
    }
}
