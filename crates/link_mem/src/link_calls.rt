//! The calls of a link on a link in memory.

ghost use Rattle.std.specs.Prelude.{◌<◌, ◌≤◌, length};
ghost use Rattle.hub_acts.specs.LinkActs.{connect_act, link_wait_act, link_now_act, link_read_act, link_write_act, link_close_act};
ghost use Rattle.hub_acts.specs.Hubs.{FitsRead, FitsWrite};
ghost use Rattle.link_mem.specs.LinkAnswers.{link_state};
ghost use Rattle.link_mem.specs.LinkPlays.{MemoryLinkCalls, PlaysConnect, PlaysLinkWait, PlaysLinkNow, PlaysLinkRead, PlaysLinkWrite, PlaysLinkClose};
ghost use Rattle.link_mem.specs.LinkPlaying.{LinkPlaysOn, link_plays_stay, link_plays_go_on};

use crate::memory_link::MemoryLink;
use hub_acts::{CallFault, Link, LinkWaited, ReadAnswer, WriteAnswer};
use share_base::OutOfMemory;

impl Link for MemoryLink {
    ghost state = { link_state };

    ghost leads = { LinkPlaysOn };

    ghost stays = { link_plays_stay };

    ghost goes_on = { link_plays_go_on };

    /// Fails exactly if the call is listed.
    fn connect(&mut self, host: &str, port: u16) -> Result<(), CallFault>
        ensures calls { MemoryLinkCalls (connect_act host.now port result) self.old self.new }
        ensures plays { PlaysConnect host.now port result self.old self.new }
        ensures leads { LinkPlaysOn self.old self.new }
    {
        self.play_connect(host, port)
    }

    /// Fails exactly if the call is listed, and else brings the next turn.
    fn wait(&mut self, ms: u32) -> LinkWaited
        requires { ms ≤ 1000 }
        ensures calls { MemoryLinkCalls (link_wait_act ms result) self.old self.new }
        ensures plays { PlaysLinkWait ms result self.old self.new }
        ensures leads { LinkPlaysOn self.old self.new }
    {
        self.play_wait(ms)
    }

    /// The moment of the latest turn, 0 before the first.
    fn now(&mut self) -> Result<u64, OutOfMemory>
        ensures calls { MemoryLinkCalls (link_now_act result) self.old self.new }
        ensures plays { PlaysLinkNow result self.old self.new }
        ensures leads { LinkPlaysOn self.old self.new }
    {
        self.play_now()
    }

    /// Fails if the call is listed, and where the trace says so.
    fn read(&mut self, buf: &mut [u8]) -> ReadAnswer
        requires { 0 < length buf.old }
        ensures fits { FitsRead result (length buf.old) }
        ensures calls { MemoryLinkCalls (link_read_act buf.new result) self.old self.new }
        ensures plays { PlaysLinkRead (length buf.old) buf.new result self.old self.new }
        ensures leads { LinkPlaysOn self.old self.new }
    {
        self.play_read(buf)
    }

    /// Fails if the call is listed, and where the trace says so.
    fn write(&mut self, bytes: &[u8]) -> WriteAnswer
        requires { 0 < length bytes.now }
        ensures fits { FitsWrite result (length bytes.now) }
        ensures calls { MemoryLinkCalls (link_write_act bytes.now result) self.old self.new }
        ensures plays { PlaysLinkWrite bytes.now result self.old self.new }
        ensures leads { LinkPlaysOn self.old self.new }
    {
        self.play_write(bytes)
    }

    /// Never fails but out of memory. From here on no line for the link does anything.
    fn close(&mut self) -> Result<(), OutOfMemory>
        ensures calls { MemoryLinkCalls (link_close_act result) self.old self.new }
        ensures plays { PlaysLinkClose result self.old self.new }
        ensures leads { LinkPlaysOn self.old self.new }
    {
        self.play_close()
    }
}
