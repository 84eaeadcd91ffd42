//! The bytes of clients: a piece is read, the messages that it ends are heard one by one, and a bad
//! frame after them parts the connection.

ghost use Rattle.std.specs.Prelude.{◌+◌, ◌<◌, ◌^◌, length, OnOk};
ghost use Rattle.machine.specs.Combining.{for_each};
ghost use Rattle.machine.specs.Hearing as hearing;
ghost use Rattle.machine.specs.Steps as steps;
ghost use Rattle.server_core.specs.Leading.{Leads};
ghost use Rattle.server_core.specs.Serving.{GivesMore, LeadsServing};
ghost use Rattle.server_core.specs.Receiving.{given_by};

use crate::server::ServerCore;
use message_codec::Msg;
use share_base::OutOfMemory;

impl ServerCore {
    /// Hears the next piece of the bytes of a connection, which are fewer than 2^63 in all. Of a
    /// connection that is parting nothing is read. After `OutOfMemory` some of the piece may be
    /// heard.
    pub(crate) fn got(&mut self, serial: u64, piece: &[u8]) -> Result<(), OutOfMemory>
        requires { given_by self.old serial + length piece.now < 2 ^ 63 }
        ensures serves { OnOk result (LeadsServing self.old self.new (steps.got serial piece.now)) }
        ensures grows { OnOk result (GivesMore serial (length piece.now) self.old self.new) }
    {
        let Some(connection) = self.table.get(serial) else {
            return Ok(());
        };
        if !connection.is_live() {
            return Ok(());
        }
        let alloc = self.config.alloc();
        let reading = self.table.read(alloc, serial, piece)?;
        self.hear_all(serial, reading.messages.as_slice())?;
        self.judge(serial, reading.bad)?;
        Ok(())
    }

    /// Hears messages of a connection one by one.
    pub(crate) fn hear_all(&mut self, serial: u64, messages: &[Msg]) -> Result<(), OutOfMemory>
        ensures { OnOk result (Leads self.old self.new
            (for_each messages.now (hearing.hear serial))) }
    {
        for message in messages {
            self.hear(serial, message)?;
        }
        Ok(())
    }
}
