//! The acceptance of a connection.

ghost use Rattle.std.specs.Prelude.{OnOk};
ghost use Rattle.machine.specs.Acceptance as acceptance;
ghost use Rattle.server_core.specs.Accepting.{LeadsNew};

use crate::server::ServerCore;
use crate::target::Target;
use connection_table::Connection;
use hello_states::{PROTOCOL_MAJOR, PROTOCOL_MINOR, PartCause};
use message_codec::Msg;
use share_base::OutOfMemory;

/// How many connections may be open before one more is accepted.
const MOST_OPEN: usize = 64;

impl ServerCore {
    /// Accepts the connection of a serial that is greater than those of all others, and of which
    /// nothing was heard. Where 64 are open already, it parts at once; else it is greeted.
    pub(crate) fn accept(&mut self, serial: u64) -> Result<(), OutOfMemory>
        ensures { OnOk result (LeadsNew serial self.old self.new (acceptance.accept serial)) }
    {
        let count = self.table.as_slice().len();
        self.add_connection(serial)?;
        if count >= MOST_OPEN {
            self.part(PartCause::Full, serial)?;
            return Ok(());
        }
        let hello = Msg::Hello {
            major: PROTOCOL_MAJOR,
            minor: PROTOCOL_MINOR,
        };
        self.route(Target::Client(serial), &hello)?;
        Ok(())
    }

    // Opens the connection of a serial that is greater than those of all others, and logs it.
    fn add_connection(&mut self, serial: u64) -> Result<(), OutOfMemory>
        ensures { OnOk result (LeadsNew serial self.old self.new (acceptance.opened serial)) }
    {
        let alloc = self.config.alloc();
        let limit = self.clip_limit();
        let connection = Connection::begin(alloc, serial, self.at.moment(), limit);
        self.table.add(connection)?;
        self.log_open(serial)?;
        Ok(())
    }
}
