//! What a hub in memory answers for one connection: its reads, its writes and its closing.

ghost use Rattle.std.specs.Prelude.{◌≡◌, ◌<◌, ◌≤◌, [], length};
ghost use Rattle.hub_acts.specs.Acts.{read_act, write_act};
ghost use Rattle.hub_acts.specs.Hubs.{FitsRead, FitsWrite};
ghost use Rattle.hub_acts.specs.declared.act.Act.TheVariants as act;
ghost use Rattle.hub_acts.specs.declared.answers.WriteAnswer.TheVariants as written;
ghost use Rattle.hub_mem.specs.Answers.{Plays, tally, end_given, write_given, front_read, stream_of};
ghost use Rattle.hub_mem.specs.HubPlays.{PlaysRead, PlaysWrite, PlaysClose};
ghost use Rattle.hub_mem.specs.Standing.{IsNoByte, IsNoByteOrNoMemory, IsNotTaken, IsNotTakenOrNoMemory, none_read_act};

use crate::memory_hub::MemoryHub;
use hub_acts::{Act, ReadAnswer, WriteAnswer};
use share_base::{Octets, OutOfMemory};

impl MemoryHub {
    /// What the next read answers where it gives no byte, `None` if it gives some.
    fn next_end(&self, serial: u64) -> Option<ReadAnswer>
        requires { serial ≤ (tally self.now).latest }
        ensures { result ≡ end_given self.now serial }
    {
        if self.is_to_fail() {
            return Some(ReadAnswer::Failed);
        }
        let stream = self.playback.stream(serial);
        if stream.unread().is_empty() {
            Some(stream.end_answer())
        } else {
            None
        }
    }

    /// A read that gives no byte.
    fn read_none(&mut self, serial: u64, room: usize, answer: ReadAnswer) -> ReadAnswer
        requires { IsNoByte answer }
        ensures fits { IsNoByteOrNoMemory result }
        ensures plays { Plays (act.Read serial room answer []) (none_read_act serial room result)
            self.old self.new }
    {
        let bytes = Octets::new(self.alloc);
        match self.add_quiet(Act::Read {
            serial,
            room,
            answer,
            bytes,
        }) {
            Ok(()) => answer,
            Err(_) => ReadAnswer::OutOfMemory,
        }
    }

    /// A read of bytes that are there.
    fn read_some(&mut self, serial: u64, buf: &mut [u8]) -> ReadAnswer
        requires room { 0 < length buf.old }
        requires there { serial ≤ (tally self.old).latest }
        requires some { 0 < length (stream_of self.old serial).unread }
        ensures fits { FitsRead result (length buf.old) }
        ensures plays { Plays (front_read serial (length buf.old) (stream_of self.old serial))
            (read_act serial buf.new result) self.old self.new }
    {
        let room = buf.len();
        let stream = self.playback.stream(serial);
        let Ok(bytes) = stream.copy_front(self.alloc, buf) else {
            return ReadAnswer::OutOfMemory;
        };
        let count = bytes.len();
        let answer = ReadAnswer::Got(count);
        match self.ledger.add(Act::Read {
            serial,
            room,
            answer,
            bytes,
        }) {
            Ok(()) => {
                self.playback.skip(serial, count);
                answer
            }
            Err(_) => ReadAnswer::OutOfMemory,
        }
    }

    pub(crate) fn play_read(&mut self, serial: u64, buf: &mut [u8]) -> ReadAnswer
        requires room { 0 < length buf.old }
        requires there { serial ≤ (tally self.old).latest }
        ensures fits { FitsRead result (length buf.old) }
        ensures plays { PlaysRead serial (length buf.old) buf.new result self.old self.new }
    {
        match self.next_end(serial) {
            Some(answer) => self.read_none(serial, buf.len(), answer),
            None => self.read_some(serial, buf),
        }
    }

    /// What the next write of that many bytes answers.
    fn next_write(&self, serial: u64, offered: usize) -> WriteAnswer
        requires { serial ≤ (tally self.now).latest }
        ensures { result ≡ write_given self.now serial offered }
    {
        if self.is_to_fail() {
            return WriteAnswer::Failed;
        }
        self.playback.stream(serial).write_answer(offered)
    }

    /// A write that takes no byte.
    fn write_none(&mut self, serial: u64, bytes: &[u8], answer: WriteAnswer) -> WriteAnswer
        requires { IsNotTaken answer }
        ensures fits { IsNotTakenOrNoMemory result }
        ensures plays { Plays (act.Write serial bytes.now answer)
            (write_act serial bytes.now result) self.old self.new }
    {
        let mut offered = Octets::new(self.alloc);
        let Ok(()) = offered.extend(bytes) else {
            return WriteAnswer::OutOfMemory;
        };
        match self.add_quiet(Act::Write {
            serial,
            bytes: offered,
            answer,
        }) {
            Ok(()) => answer,
            Err(_) => WriteAnswer::OutOfMemory,
        }
    }

    /// A write that takes that many bytes.
    fn write_some(&mut self, serial: u64, bytes: &[u8], count: usize) -> WriteAnswer
        requires { (0 < count) × (count ≤ length bytes.now) }
        ensures fits { FitsWrite result (length bytes.now) }
        ensures plays { Plays (act.Write serial bytes.now (written.Took count))
            (write_act serial bytes.now result) self.old self.new }
    {
        let mut offered = Octets::new(self.alloc);
        let Ok(()) = offered.extend(bytes) else {
            return WriteAnswer::OutOfMemory;
        };
        let answer = WriteAnswer::Took(count);
        match self.ledger.add(Act::Write {
            serial,
            bytes: offered,
            answer,
        }) {
            Ok(()) => {
                self.playback.take(serial, count);
                answer
            }
            Err(_) => WriteAnswer::OutOfMemory,
        }
    }

    pub(crate) fn play_write(&mut self, serial: u64, bytes: &[u8]) -> WriteAnswer
        requires some { 0 < length bytes.now }
        requires there { serial ≤ (tally self.old).latest }
        ensures fits { FitsWrite result (length bytes.now) }
        ensures plays { PlaysWrite serial bytes.now result self.old self.new }
    {
        match self.next_write(serial, bytes.len()) {
            WriteAnswer::Took(count) => self.write_some(serial, bytes, count),
            answer => self.write_none(serial, bytes, answer),
        }
    }

    pub(crate) fn play_close(&mut self, serial: u64) -> Result<(), OutOfMemory>
        ensures { PlaysClose serial result self.old self.new }
    {
        self.add_quiet(Act::Close { serial })?;
        Ok(())
    }
}
