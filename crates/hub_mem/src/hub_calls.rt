//! The calls of a hub on a hub in memory.

ghost use Rattle.std.specs.Prelude.{◌<◌, ◌≤◌, Contains, length};
ghost use Rattle.hub_acts.specs.Acts.{listen_act, wait_act, now_act, accept_act, read_act, write_act, close_act};
ghost use Rattle.hub_acts.specs.Hubs.{FitsWait, FitsAccept, FitsRead, FitsWrite};
ghost use Rattle.hub_mem.specs.Answers.{hub_state};
ghost use Rattle.hub_mem.specs.HubPlays.{MemoryHubCalls, PlaysListen, PlaysWait, PlaysNow, PlaysAccept, PlaysRead, PlaysWrite, PlaysClose};
ghost use Rattle.hub_mem.specs.Playing.{PlaysOn, plays_stay, plays_go_on};

use crate::memory_hub::MemoryHub;
use hub_acts::{AcceptAnswer, CallFault, Hub, ReadAnswer, ReadyList, Waited, WriteAnswer};
use share_base::OutOfMemory;

impl Hub for MemoryHub {
    ghost state = { hub_state };

    ghost leads = { PlaysOn };

    ghost stays = { plays_stay };

    ghost goes_on = { plays_go_on };

    /// Fails exactly if the call is listed.
    fn listen(&mut self, port: u16) -> Result<(), CallFault>
        ensures calls { MemoryHubCalls (listen_act port result) self.old self.new }
        ensures plays { PlaysListen port result self.old self.new }
        ensures leads { PlaysOn self.old self.new }
    {
        self.play_listen(port)
    }

    /// Fails exactly if the call is listed, and else brings the next turn.
    fn wait(&mut self, ms: u32, ready: &mut ReadyList) -> Waited
        requires soon { ms ≤ 1000 }
        requires few { length (hub_state self.old).open_now < 128 }
        ensures fits { FitsWait result ready.old ready.new }
        ensures calls { MemoryHubCalls (wait_act ms ready.new result) self.old self.new }
        ensures plays { PlaysWait ms ready.new result self.old self.new }
        ensures leads { PlaysOn self.old self.new }
    {
        self.play_wait(ms, ready)
    }

    /// The moment of the latest turn, 0 before the first.
    fn now(&mut self) -> Result<u64, OutOfMemory>
        ensures calls { MemoryHubCalls (now_act result) self.old self.new }
        ensures plays { PlaysNow result self.old self.new }
        ensures leads { PlaysOn self.old self.new }
    {
        self.play_now()
    }

    /// Fails exactly if the call is listed.
    fn accept(&mut self) -> AcceptAnswer
        ensures fits { FitsAccept result (hub_state self.old).latest }
        ensures calls { MemoryHubCalls (accept_act result) self.old self.new }
        ensures plays { PlaysAccept result self.old self.new }
        ensures leads { PlaysOn self.old self.new }
    {
        self.play_accept()
    }

    /// Fails if the call is listed, and where the trace says so.
    fn read(&mut self, serial: u64, buf: &mut [u8]) -> ReadAnswer
        requires is_open { Contains (hub_state self.old).open_now serial }
        requires room { 0 < length buf.old }
        ensures fits { FitsRead result (length buf.old) }
        ensures calls { MemoryHubCalls (read_act serial buf.new result) self.old self.new }
        ensures plays { PlaysRead serial (length buf.old) buf.new result self.old self.new }
        ensures leads { PlaysOn self.old self.new }
    {
        // An open serial was accepted: the fields show it.
        let _ = &self.ledger;
        self.play_read(serial, buf)
    }

    /// Fails if the call is listed, and where the trace says so.
    fn write(&mut self, serial: u64, bytes: &[u8]) -> WriteAnswer
        requires is_open { Contains (hub_state self.old).open_now serial }
        requires some { 0 < length bytes.now }
        ensures fits { FitsWrite result (length bytes.now) }
        ensures calls { MemoryHubCalls (write_act serial bytes.now result) self.old self.new }
        ensures plays { PlaysWrite serial bytes.now result self.old self.new }
        ensures leads { PlaysOn self.old self.new }
    {
        // An open serial was accepted: the fields show it.
        let _ = &self.ledger;
        self.play_write(serial, bytes)
    }

    /// Never fails but out of memory.
    fn close(&mut self, serial: u64) -> Result<(), OutOfMemory>
        requires is_open { Contains (hub_state self.old).open_now serial }
        ensures calls { MemoryHubCalls (close_act serial result) self.old self.new }
        ensures plays { PlaysClose serial result self.old self.new }
        ensures leads { PlaysOn self.old self.new }
    {
        self.play_close(serial)
    }
}
