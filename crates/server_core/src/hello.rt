//! The answer to the greeting.

ghost use Rattle.std.specs.Prelude.{◌≡◌, ◌<◌, ◌||◌, ℕ, length, OnOk};
ghost use Rattle.std.specs.List.{list_any};
ghost use Rattle.share_base.specs.Screens.{has};
ghost use Rattle.hello_states.specs.Handshake.{Admitted};
ghost use Rattle.machine.specs.Hello as hello;
ghost use Rattle.server_core.specs.Leading.{Reads};
ghost use Rattle.server_core.specs.Hearing.{LeadsGreeting};
ghost use Rattle.server_core.specs.Using.{is_using};

use crate::server::ServerCore;
use crate::target::Target;
use connection_table::Connection;
use hello_states::admitted_screen;
use message_codec::Msg;
use share_base::{OutOfMemory, ScreenNo, ScreenSet};

impl ServerCore {
    /// Hears the answer to the greeting, with the version and the name of a screen. The connection
    /// is asked for the information of the screen, or it parts: for another version, for a name
    /// that no screen has, and for a screen that is used.
    pub(crate) fn hear_hello(
        &mut self,
        serial: u64,
        major: u16,
        minor: u16,
        name: &[u8],
    ) -> Result<(), OutOfMemory>
        ensures { OnOk result (LeadsGreeting serial self.old self.new
            (λ accepted. hello.hear_hello major minor name.now accepted serial)) }
    {
        let used = self.used_screens();
        match admitted_screen(major, minor, name, &self.config, &used) {
            Ok(screen) => {
                self.admit(serial, screen)?;
                Ok(())
            }
            Err(cause) => {
                self.part(cause, serial)?;
                Ok(())
            }
        }
    }

    // Asks a connection for the information of the screen as which it is admitted.
    fn admit(&mut self, serial: u64, screen: ScreenNo) -> Result<(), OutOfMemory>
        requires small { screen.0 < 64 }
        requires known { screen.0 < length self.old.config.screens }
        ensures { OnOk result (LeadsGreeting serial self.old self.new
            (λ accepted. hello.answer (Admitted screen.0) accepted serial)) }
    {
        self.route(Target::Client(serial), &Msg::QueryInfo)?;
        let rate = self.config.globals().heartbeat;
        self.table.admit(serial, screen, rate);
        Ok(())
    }

    /// Returns the screens that are used: the primary, and those of all connections that were asked
    /// or are joined.
    pub(crate) fn used_screens(&self) -> ScreenSet
        ensures { (screen : ℕ) → Reads self.now (has result screen) (λ s. hello.is_used s screen) }
    {
        let mut screens = ScreenSet::new();
        screens.insert(self.primary_screen());
        add_used(&mut screens, self.table.as_slice());
        screens
    }
}

// Adds the screens that connections use.
fn add_used(screens: &mut ScreenSet, connections: &[Connection])
    ensures { (k : ℕ) → has screens.new k
        ≡ (has screens.old k || list_any (is_using k) connections.now) }
{
    for connection in connections {
        add_one_used(screens, connection);
    }
}

// Adds the screen that a connection uses.
fn add_one_used(screens: &mut ScreenSet, connection: &Connection)
    ensures { (k : ℕ) → has screens.new k ≡ (has screens.old k || is_using k connection.now) }
{
    if let Some(screen) = connection.phase().used_screen() {
        screens.insert(screen);
    }
}
